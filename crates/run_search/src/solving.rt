//! What callers use of `ls_solver`.
pub use run_solvers::solving::{Solver, Trial};
