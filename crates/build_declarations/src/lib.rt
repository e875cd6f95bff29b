//! The builder of trees undoes the forms of declarations, and those of programs, parameters and classes.
//!
//! Each form takes the values of its symbols off the stacks and puts there what is made of them (`Made`), and that is
//! written as the form and its values (the laws). It knows nothing of expressions but what stands behind their first
//! operand, and nothing of statements but that they are values. The layer above uses `undo_declaration`,
//! `undo_program` and the laws.
#![tactic(auto)]

mod classes;
mod declarations;
mod dimensions;
mod laws;
mod parameters;
mod programs;

pub use declarations::undo_declaration;
pub use laws::{declaration_forms_fit, program_forms_fit};
pub use programs::undo_program;
