//! Journals as texts.
//!
//! It knows nothing of boards, of pools, of threads, or of how a journal came about. The layers above use that
//! `print` gives a journal's text, that `read` gives a journal exactly where a text spells it in one of the
//! versions, else the first line through which no journal begins so, that `tail` gives where the last header
//! begins, and the law that what is printed is read as the same journal. A version is one record, in
//! `Versions` and in `version`.
#![tactic(auto)]

mod cutting;
mod entries;
mod header;
pub mod laws;
mod numbers;
mod pairs;
mod printing;
mod reader;
mod replies;
mod requests;
mod stop;
mod version;

pub use header::tail;
pub use printing::{loop_line, print, print_reply, print_request};
pub use reader::read;
pub use stop::JournalStop;
