//! What the journals' text prints and reads, and what a port that replays answers.
//!
//! It has tests alone, so that the crates that they speak of are proved once and not twice.
#![tactic(auto)]

#[cfg(test)]
mod journals;
#[cfg(test)]
mod replays;
