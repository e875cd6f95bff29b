//! The typing rules of the language: what stands where what is asked, what each operation makes of its
//! operands, and the rows of methods, functions, constraints and classes.
//!
//! It knows no tree, no scope and no effect. The layers above use that each rule and each row is its definition.
#![tactic(auto)]

pub mod classes;
pub mod context;
pub mod kinds;
pub mod rows;
pub mod rules;

pub use context::Context;
pub use kinds::{Asked, Note, Want};
pub use rows::{Row, Writes};
