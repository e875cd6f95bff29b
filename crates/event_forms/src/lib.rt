//! Statements that run later, and the queue of events.
//!
//! It executes them by what it is handed, and knows nothing of how that is done, nor of which forms commit. The layers above
//! use that a statement that runs later does what its meaning says, with the names that it saw, and that behind a commit
//! the queue is run as the meaning says.
#![tactic(auto)]

mod closures;
mod queue;

pub use closures::{Binding, run_closure};
pub use queue::{behind_block, behind_commit, behind_restore, run_queue};
