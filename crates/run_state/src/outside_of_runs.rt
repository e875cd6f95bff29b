//! What callers use of `run_outside`.
pub use run_outside::{HandedIn, handed_in};
