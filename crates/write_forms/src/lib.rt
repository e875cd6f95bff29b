//! What is written: the targets of assignments, what these do, exchanges, steps and what is printed, and `with`, whose body
//! is written together.
//!
//! One function for each form. They execute the parts inside a part by what they are handed, and know nothing of how that
//! is done; so none of them is in a cycle with another. The layers above use that each does what the meaning of the form
//! says.
#![tactic(auto)]

pub mod printing;
pub mod targets;
pub mod together;
pub mod writes;
