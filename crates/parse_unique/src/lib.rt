//! Tokens are spelled by one tree.
//!
//! It knows the grammar and how a tree is written as a derivation, and no function that reads. Trees are compared
//! without their pointers: where a box or a vector lies in memory is no part of a program.
#![tactic(auto)]

pub mod laws;
