//! What callers use of `run_standing`.
pub use run_standing::Standing;
