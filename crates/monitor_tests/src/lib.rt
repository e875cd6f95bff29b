//! What seats and threads do with turns, claims, monitors and desks.
//!
//! It has tests alone, so that the crates that they speak of are proved once and not twice.
#![tactic(auto)]

#[cfg(test)]
mod answers;
#[cfg(test)]
mod claims;
#[cfg(test)]
mod monitors;
#[cfg(test)]
mod pools;
#[cfg(test)]
mod sleepers;
#[cfg(test)]
mod turns;
