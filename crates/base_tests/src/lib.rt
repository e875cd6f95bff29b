//! What the lowest crates give: sets, arithmetic, fuel, faults and texts, files and sinks, the words of the command
//! line, layers, and the constraints that the program hands in.
//!
//! It has tests alone, so that the crates that they speak of are proved once and not twice.
#![tactic(auto)]

#[cfg(test)]
mod base;
#[cfg(test)]
mod constraints;
#[cfg(test)]
mod layers;
#[cfg(test)]
mod outside;
#[cfg(test)]
mod texts;
#[cfg(test)]
mod words;
