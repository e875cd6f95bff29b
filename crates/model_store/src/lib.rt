//! A store of a model's nodes: it has the values that evaluating the model afresh gives, from building
//! it on and after each commit, and where it can't be built, or a commit ends it, the fault is the
//! model's.
//!
//! It knows nothing of how the nodes and their inputs are made of a model, nor of any operation by
//! name: it says what these have to be. The layers above use that what a store answers is what the
//! model means.
#![tactic(auto)]

mod stores;
mod weights;

pub use stores::{build, commit};
pub use weights::set_weights;
