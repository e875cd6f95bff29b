//! The words of the command line: whether they are in form, and what they ask for.
//!
//! It knows nothing of files, programs or runs. The layer above uses that `read_words` gives exactly what
//! the words ask for, and `None` exactly where they aren't in form. Nothing here takes memory.
#![tactic(auto)]

mod given;
mod item;
pub mod laws;
mod limits;
mod setting;
mod value;
mod words;

pub use words::{Source, Words, read_words, words_form};
