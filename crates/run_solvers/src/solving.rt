//! What callers use of `ls_solver`.
pub use ls_solver::{Solver, Trial};
