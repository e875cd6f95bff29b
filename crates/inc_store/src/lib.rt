//! A store of nodes in layers: the value of each cell and each node is kept under moves of the free
//! cells.
//!
//! It knows nothing of terms, models or any operation by name: its nodes are whatever is a `NodeRule`.
//! The layers above use that after each commit that succeeds every cell and node has the value that its
//! rule gives of its inputs' values, that what changed is listed exactly, that a fault is that of the
//! least failing node, and that the work is bounded by what the moves touch.
#![tactic(auto)]

mod cells;
mod changed;
mod commits;
mod course;
mod node_turn;
mod store;
mod turns;

pub use cells::Cells;
pub use changed::{Changed, NodeChange};
pub use course::Course;
pub use store::Store;
pub use store_build::{LayerEval, Links, PlainEval, StoreFault};
