//! The run of a checked program on one thread, over any output that counts its failures.
//!
//! It knows nothing of texts, types, files or words. The layer above uses that a run ends as the program's meaning says,
//! with the fuel that is left and the bytes that were printed.
#![tactic(auto)]

mod counted;
mod execution;
pub mod outside_of_runs;
pub mod standing_of_runs;

pub use counted::CountedOut;
pub use execution::{Ended, RunEnd, run};
