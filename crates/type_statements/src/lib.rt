//! What statements are, each with the statements in it.
//!
//! Statements hold statements, so what judges them is a cycle. It is one function alone: it hands itself, for smaller
//! statements, to the function of the form, which knows nothing of how the statements in it are judged. It knows no
//! function and no program. The layers above use that a statement and a block are judged as the definition says, form by
//! form.
#![tactic(auto)]

mod blocks;
mod branches;
mod forms;
mod inside;
mod later;
mod loops;
mod selectors;
pub mod statements;

pub use statements::{check_block, check_statement};
