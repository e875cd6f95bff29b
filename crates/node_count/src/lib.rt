//! Nodes that count and that read cells: how many cells of an array equal a number, and the cell of an
//! array at one index or at two.
//!
//! It knows nothing of terms, solvers or programs, and of no other node. The layers above use that each
//! type is a `NumberNode` with exactly its operation's rule, and that `number_after` tells what changes make
//! of one number. A change costs at most the logarithm of the
//! number of cells, and so does a probe for each of its changes.
#![tactic(auto)]

mod after;
mod count;
mod element;
mod element2;
mod place;

pub use after::number_after;
pub use count::Count;
pub use element::Element;
pub use element2::Element2;
