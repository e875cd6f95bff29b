//! The making of a checked tree: each form, of its parts, and the boxes that these lie in; and what is kept while
//! other parts are made.
//!
//! It knows nothing of how a tree is checked. The layers above use that each form is made of its parts, and that
//! what is kept beside what is made stays the same.
#![tactic(auto)]

mod boxes;
pub mod kept;
pub mod make_actions;
pub mod make_expressions;
pub mod make_tasks;
