//! The values of pure expressions, without any change to the state.
//!
//! It knows nothing of texts, types or files, nor of whether an expression stands in a program. The layers above use that
//! an expression is evaluated as its meaning says: its value, or the fault or the end of the fuel with its place, and the
//! fuel that is left.
#![tactic(auto)]

mod evaluation;

pub use evaluation::{EvalStop, eval};
