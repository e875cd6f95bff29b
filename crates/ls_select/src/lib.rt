//! Random draws, and what a scan of a selector's candidates gives.
//!
//! It knows nothing of programs, of what a candidate is, or of how one is scored. The layers above use that the words of
//! `Draws` are those of PCG XSL RR 128/64 for a seed and a stream; that `below` is an even share of the next word; that
//! a `Part` is what the definition says of the candidates that were added to it, or that stand in the two parts of
//! which it was merged; and that `pick` draws exactly where there is a choice.
#![tactic(auto)]

mod draws;
mod merging;
mod part;
mod scored;
mod ties;
mod want;

pub use draws::Draws;
pub use merging::Merged;
pub use part::Part;
pub use scored::{End, Scored, Stop};
pub use ties::{Ties, pick};
pub use want::Want;
