//! What callers use of `run_solvers`.
pub use run_outside::solvers_of_runs::{Beginning, Built, Solvers, user_fits};
