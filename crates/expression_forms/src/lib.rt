//! What each form of an expression gives.
//!
//! One function for each form. They evaluate the parts inside a part by what they are handed, and know nothing of how
//! that is done; so none of them is in a cycle with another. The layers above use that each does what the meaning of the
//! form says.
#![tactic(auto)]

pub mod aggregates;
pub mod arrays;
pub mod calls;
pub mod constants;
pub mod expressions;
mod methods;
pub mod operators;
mod posting;
mod user_posting;
