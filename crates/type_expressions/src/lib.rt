//! What expressions are: each form by the types of its parts, with the exact first refusal.
//!
//! It knows no statement. The layers above use that an expression, its arguments and its generators are judged
//! as the definition says, form by form.
#![tactic(auto)]

pub mod expressions;
mod leaves;

pub use expressions::{
    check_arguments, check_condition, check_expression, condition_note, generated,
};
pub use leaves::check_name;
