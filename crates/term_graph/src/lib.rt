//! Terms as a graph of shared nodes: one node for each distinct subterm.
//!
//! It knows nothing of models, solvers or what terms come to. The layer above uses that the nodes of the terms that were
//! added are their distinct subterms in the order in which `term_model` numbers them, each with the head, the place and
//! the arguments of the one that stands there, and that a term is refused exactly where there would be too many.
#![tactic(auto)]

mod adding;
mod codes;
mod graph;
mod head;
mod laws;
mod node;
mod stop;

pub use graph::Graph;
pub use head::Head;
pub use laws::{numbered_law, shared_law};
pub use stop::GraphStop;
