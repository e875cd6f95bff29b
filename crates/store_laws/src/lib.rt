//! Laws of a solver over a store of a model: on which ids of a graph that holds a model a system or an
//! objective stands; that what a trial tells at its total, or at a node that repeats that, is the model's
//! delta, with its fault; and that what a change touches of the graph it touches of the model.
//!
//! It knows nothing of how a store or a graph is built, nor of any operation by name. The layers above use
//! the laws, and that deltas and commits take at most four times as many steps as they touch of the model.
#![tactic(auto)]

mod commits;
mod deltas;
mod laws;
mod weights;

pub use commits::commit;
pub use deltas::delta;
pub use laws::{delta_law, failure_law, standing_law, touch_law, whole_law};
pub use weights::set_weights;
