//! What callers use of `run_solvers`.
pub use run_solvers::{Beginning, Built, Solvers, user_fits};
