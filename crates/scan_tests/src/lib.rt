//! What scans of candidates by one worker and by several give.
//!
//! It has tests alone, so that the crates that they speak of are proved once and not twice.
#![tactic(auto)]

#[cfg(test)]
mod planned;
#[cfg(test)]
mod scans;
#[cfg(test)]
mod waiting;
