//! The top call: from words and files to the bytes on a sink and a status.
//!
//! `comet_run` reads the files that the words name, runs the program, writes what it printed, and says on the standard
//! error why it ended. It is `front`, which reads and refuses, and then `run_still`, which runs. It knows nothing of how a
//! text is read or how a program runs: it uses that `read_words` gives what the words ask for, that `read_program` gives
//! the one checked program that a text is, or its refusal, and that `run` meets the program's meaning.
#![tactic(auto)]

mod files;
mod job;
pub mod laws;
mod line;
mod report;
mod top;

pub use comet_words::words_form;
pub use job::{Job, front};
pub use line::say;
pub use report::{Cause, FileRole, Report};
pub use top::{comet_run, run_still};
