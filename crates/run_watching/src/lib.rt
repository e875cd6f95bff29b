//! The solvers of a run, lent to be asked.
//!
//! It knows nothing of names, expressions or statements. The layers above use that lent solvers are `Outside`: each
//! question is answered as the meaning of programs says, and each call that would change or print something answers want
//! of memory, so that nothing changes.
#![tactic(auto)]

mod watch;

pub use watch::Watch;
