//! What draws, selectors' scans and events give.
//!
//! It has tests alone, so that the crates that they speak of are proved once and not twice.
#![tactic(auto)]

#[cfg(test)]
mod draws;
#[cfg(test)]
mod events;
#[cfg(test)]
mod parts;
