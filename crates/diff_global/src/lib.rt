//! Nodes of the constraints on how often values stand in a list: all different, and at most, at least
//! or exactly as often as their bounds say.
//!
//! It knows nothing of other constraints, of operations, terms or solvers. The layer above uses that
//! `AllDifferent` and `Cardinality` are `NumberNode`s, and that each is made with the rule of its
//! constraint: the violations, their fault, and the violation at a place. A change costs them what it
//! takes to find its two numbers among those that stand there, and no pass over all.
#![tactic(auto)]

mod all_different;
mod cardinality;

pub use all_different::AllDifferent;
pub use cardinality::{Cardinality, Demand};
