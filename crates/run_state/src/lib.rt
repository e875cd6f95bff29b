//! The state of a run: what the names hold, the arrays, the objects, the fuel and the data, and what is done with
//! them.
//!
//! It knows nothing of expressions or statements. The layers above use that each act does what the meaning of
//! programs says of the state's view.
#![tactic(auto)]

pub mod arrays;
pub mod cells;
pub mod copies;
pub mod data;
pub mod fuel;
pub mod names;
pub mod out;
pub mod outside_of_runs;
pub mod printing;
pub mod reading;
pub mod searching;
pub mod solvers_of_runs;
pub mod solving;
pub mod standing;
pub mod state;
pub mod targets;
pub mod values_of_runs;
mod words;

pub use out::print;
pub use run_outside::{Bytes, Out, Outside, Stage};
pub use run_search::{Closure, Event, Reaction};
pub use standing::{InTerm, TermCells};
pub use state::State;
pub use targets::Target;
