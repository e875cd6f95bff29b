//! What loops over monitors and desks do, and the journal that one leaves.
//!
//! It has tests alone, so that the crates that they speak of are proved once and not twice.
#![tactic(auto)]

#[cfg(test)]
mod desk_loops;
#[cfg(test)]
mod left;
#[cfg(test)]
mod loops;
