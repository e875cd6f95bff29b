//! What callers use of `run_state`.
pub use run_state::out::print;
pub use run_state::{Closure, Event, InTerm, Outside, State, Target, TermCells};
