//! What callers use of `run_solvers`.
pub use run_state::solvers_of_runs::{Beginning, Built, user_fits};
