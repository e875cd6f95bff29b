//! What stands of a run: what its names hold, its solvers, and the users' constraints.
//!
//! It knows nothing of expressions or statements. The layers above use that it is seen as the meaning of programs has the
//! state of a run, at its start too, and that a copy without data is one.
#![tactic(auto)]

pub mod outside_of_runs;
pub mod solving;
mod standing;
pub mod state_of_runs;

pub use standing::Standing;
