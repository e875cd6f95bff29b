//! The run of a checked program on one thread whose output goes to a sink as it comes.
//!
//! What a program prints gathers in a buffer, which is written when it is full and when the run ends. The crate knows nothing of
//! texts, files or words, nor of what a sink is. The layer above uses that the sink gets what the program's meaning
//! prints, and that a front of it is there where memory ran out or a write failed.
#![tactic(auto)]

mod buffered;
mod stream;
mod told;
mod wire;

pub use stream::run_to_sink;
