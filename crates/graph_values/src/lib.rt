//! Laws of a model's graph, the cells of its variables with a node behind them for each distinct subterm: what a
//! store of nodes over it comes to is what evaluating the model afresh gives, and the store's least failing node is
//! the model's fault.
//!
//! It knows nothing of how a store or a graph is built, nor of any operation by name. The layers above use the
//! definitions (the graph of a model, and when a graph holds a model's terms, or all of it with its totals) and
//! the laws.
#![tactic(auto)]

mod laws;

pub use laws::{fresh_values_law, least_fault_law, model_law, store_law, taken_law, totals_law};
