//! What a search keeps beside names, arrays and solvers: statements that run later, words, solutions, handlers, and the
//! events that wait for them.
//!
//! It knows nothing of names' cells, or of how a statement is executed. The layers above use that each act does what the
//! meaning of programs says of what is kept.
#![tactic(auto)]

pub mod moves;
pub mod search;
pub mod solving;

pub use ls_events::{Event, Solution, VarChange};
pub use ls_select::Ties;
pub use moves::copied_moves;
pub use search::{Closure, KeptMove, Reaction, Search};
