//! What each form of an expression stands for in a term.
//!
//! One function for each form. They ask for the terms of the parts inside a part by what they are handed, and know nothing
//! of how that is done; so none of them is in a cycle with another. The layers above use that each does what the meaning
//! of the form says.
#![tactic(auto)]

pub mod aggregates;
pub mod arrays;
pub mod bodies;
pub mod calls;
pub mod operators;
pub mod parts;
pub mod terms;
