//! What callers use of `ls_solver`.
pub use run_search::solving::{Solver, Trial};
