//! A port that replays what an iteration asked of a desk, from the entries of a journal.
//!
//! It knows nothing of how a journal came about, nor of who asks. The layers above use that it replies as the journal
//! does while it is asked what the journal has, and else tells in which line the two differ, and how.
#![tactic(auto)]

mod lines;
mod port;
mod same;
mod texts;

pub use lines::EntryLine;
pub use port::ReplayPort;
