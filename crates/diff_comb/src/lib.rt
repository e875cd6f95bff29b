//! Nodes of constraints that relate two numbers or combine others: the four relations, all of some
//! constraints, one of some, one that is not to hold, the total with weights of a system or an objective,
//! and the repeat of a number.
//!
//! It knows nothing of terms, solvers or programs, and of no constraint that counts. The layers above use
//! that each type is a `NumberNode` with exactly its rule. A change of a total costs the same whatever the
//! number of members; where many changes of it are probed at once, each costs the logarithm of their number.
#![tactic(auto)]

mod all_of;
mod any_of;
mod new_numbers;
mod of_one;
mod relation;
mod weighted_total;

pub use all_of::AllOf;
pub use any_of::AnyOf;
pub use of_one::OfOne;
pub use relation::Relation;
pub use weighted_total::WeightedTotal;
