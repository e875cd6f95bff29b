//! Users' constraints that were posted to a solver, as nodes.
//!
//! It knows nothing of solvers, systems or programs, nor of what kind of node a user's constraint is. The layers above use
//! what is kept of a node's rule, which has a code; that a posted constraint tells the violations of a list with a number
//! for each place by its rule; and that many of them compute the users' constraints of a model, numbered in order of posting.
#![tactic(auto)]

mod changes;
mod posted;
mod users;

pub use posted::{PostedUser, zeros};
pub use users::PostedUsers;
