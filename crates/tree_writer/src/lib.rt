//! Trees as texts, form by form, without recursion: what a text was read as, for a person to compare.
//!
//! It knows nothing of how a text is read, and claims nothing: it stands beside the proofs. The program above uses
//! `Writer` and `write_program`.
#![tactic(auto)]

mod declarations;
mod expressions;
mod heads;
mod part;
mod programs;
mod simples;
mod statements;
mod words;
mod writer;

pub use programs::write_program;
pub use writer::{Places, Writer};
