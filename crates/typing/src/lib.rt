//! Typing rules, and that what they accept is what checking accepts.
//!
//! It has no code. `specs/` gives a rule for each form, and the laws say that checking follows the rules.
#![tactic(auto)]

pub mod laws;
