//! What callers use of `ls_solver`.
pub use run_state::solving::{Solver, Trial};
