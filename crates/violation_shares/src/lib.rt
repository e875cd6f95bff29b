//! How much of a system's violations is a variable's, from scratch.
//!
//! It knows nothing of solvers, nodes that are kept up to date, or programs. The layers above use that
//! `variable_violations` gives exactly what the definition says, or the fault of the system, or that a total doesn't fit.
#![tactic(auto)]

mod dependence;
mod shares;
mod system_shares;

pub use system_shares::variable_violations;
