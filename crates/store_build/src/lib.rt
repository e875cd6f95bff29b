//! How a store of nodes in layers is built: its nodes are reset layer by layer, each to its inputs' values.
//!
//! It knows nothing of commits, nor of any operation by name: its nodes are whatever is a `NodeRule`.
//! The layers above use that what is built has the value that each rule gives of its inputs' values, that
//! each node holds these, that a fault is that of the least failing node, and on which ids a target stands.
#![tactic(auto)]

mod build;
mod building;
mod cones;
mod groups;
mod jobs;
mod layer_eval;
mod links;
mod lists;
mod parts;
mod uses;
mod values;
mod whole;

pub use build::parts_of;
pub use cones::{MOST_CONES, cone_of, find_cone};
pub use layer_eval::{LayerEval, PlainEval};
pub use links::Links;
pub use parts::{Parts, StoreFault};
pub use values::value_of;
