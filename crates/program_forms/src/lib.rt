//! Questions about a checked program that are answered before it runs: whether it holds only forms that run by now, and
//! which of its functions and expressions are pure.
//!
//! It knows nothing of how a program runs. The layers above use that each answer is its definition.
#![tactic(auto)]

mod actions;
mod expressions;
pub mod functions;
pub mod programs;
mod purity;
mod tasks;

pub use functions::pure_functions;
pub use programs::is_built;
pub use purity::is_pure;
