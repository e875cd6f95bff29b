//! What each form of a constraint stands for where it is posted.
//!
//! One function for each form. They ask for the terms and the values of the parts inside a part by what they are handed,
//! and know nothing of how that is done; so none of them is in a cycle with another. The layers above use that each does
//! what the meaning of the form says.
#![tactic(auto)]

mod calls;
pub mod constraints;
mod function_nodes;
mod functions;
mod joinings;
mod kept;
mod operator_nodes;
mod operators;
