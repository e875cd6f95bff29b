//! What a store is given for a model, made of it: a node for each id of the graph of the model with its totals,
//! the inputs and the layer of each id, the numbers of the cells, and the places; and a store of it. Both come
//! with the graph of the model's distinct subterms, by which an id is found for a term.
//!
//! It knows nothing of how a store works, nor of how a node keeps its value. The layer above uses that the nodes
//! and inputs are those of the model's graph, each user's node at its subterm, and that the store that is built
//! of them has the model's values, or else the model's fault with its place.
#![tactic(auto)]

mod cells;
mod heads;
mod laws;
mod lists;
mod making;
mod members;
mod nodes;
mod numbers;
mod parts;
mod planned;
mod storing;
mod terms;

pub use laws::nodes_law;
pub use nodes::{ModelNodes, nodes_of};
pub use storing::{Built, build, stop_of};
