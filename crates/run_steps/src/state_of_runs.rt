//! What callers use of `run_state`.
pub use run_objects::state_of_runs::{
    Closure, Event, InTerm, Outside, State, Target, TermCells, print,
};
