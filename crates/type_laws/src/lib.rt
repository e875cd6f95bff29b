//! Laws of checking that stand over its definitions alone.
//!
//! It has no code. They say what a reader of the judgement may conclude without following it.
#![tactic(auto)]

pub mod laws;
