//! Evaluates expressions and executes statements.
//!
//! The body of a function is a statement, and statements hold expressions, so what executes parts is one cycle. It is
//! these four functions alone: each hands the other ones, with room for one part fewer, to the function of the form. It
//! knows nothing of texts, types or files. The layers above use that each part of a checked program does what its meaning
//! says, with the room that is left for parts inside each other, and that where memory runs out, or the output stops,
//! what was printed is a front of what is meant.
#![tactic(auto)]

pub mod levels;

pub use levels::{evaluate, run};
pub use run_steps::code::{Code, Flow};
