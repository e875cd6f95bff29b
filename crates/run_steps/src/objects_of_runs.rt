//! What callers use of `run_objects`.
pub use run_objects::open_with;
