//! What simple statements are: the expressions in them, and then their own rule; and what a `return` is.
//!
//! It knows no statement that holds statements. The layers above use that each of these is judged as the
//! definition says, form by form.
#![tactic(auto)]

pub mod simples;

pub use simples::{Acted, Standing, check_return, check_simple, through_doing};
