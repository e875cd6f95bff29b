//! What each form of a declaration does.
//!
//! One function for each form. They execute the parts inside a part by what they are handed, and know nothing of how
//! that is done; so none of them is in a cycle with another, but for those that go along the dimensions of an array. The
//! layers above use that each does what the meaning of the form says.
#![tactic(auto)]

pub mod array_declarations;
pub mod declarations;
pub mod objects;
mod variable_arrays;
