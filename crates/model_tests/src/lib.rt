//! Models that are built and asked, with the values that the language's description gives. It has tests alone, so that
//! the crates that they speak of are proved once and not twice.
#![tactic(auto)]

#[cfg(test)]
mod models;
#[cfg(test)]
mod subterms;
#[cfg(test)]
mod tests;
