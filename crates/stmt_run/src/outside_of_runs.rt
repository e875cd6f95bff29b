//! What callers use of `run_outside`.
pub use run_standing::outside_of_runs::{HandedIn, handed_in};
