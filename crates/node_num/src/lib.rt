//! Nodes of arithmetic, comparisons and truth: for each of these operations of terms a node over
//! numbers that holds its inputs and answers by the operation's rule.
//!
//! It knows nothing of other operations, of constraints, terms or solvers. The layer above uses that
//! `Sum`, `Junction`, `Binary` and `Unary` are `NumberNode`s, and that each is made with the rule of its
//! operation. A change costs them the same however many numbers they hold.
#![tactic(auto)]

mod binary;
mod junction;
mod sum;
mod unary;

pub use binary::Binary;
pub use junction::{Junction, JunctionKind};
pub use sum::Sum;
pub use unary::Unary;
