//! The constraints that the program `comet` hands in: `allequal` and `increasing`.
//!
//! It knows nothing of solvers, of programs or of how a constraint is posted. The layers above use that
//! `AllEqual` and `Increasing` are `UserConstraint`s with the rules `all_equal` and `increasing`, by the
//! names "allequal" and "increasing".
#![tactic(auto)]

mod all_equal;
mod increasing;
mod laws;
mod moves;
mod whole;

pub use all_equal::AllEqual;
pub use increasing::Increasing;
pub use laws::{all_equal_law, all_equal_values, increasing_law, increasing_values};
