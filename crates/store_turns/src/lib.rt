//! Turns over nodes in layers: what nodes come to, from scratch; the nodes that wait for a turn; and
//! how the new outcome of a node is told to those that use it.
//!
//! It knows nothing of who takes the turns: a store that commits, or a trial that only asks. The
//! layers above use that the nodes that wait are taken by layer and then by id, that each user of a
//! node is told of its new outcome at each place where it uses it, and the laws in `proofs/`: what
//! holds between two turns holds after the next one, and each turn is paid by what it newly touches.
#![tactic(auto)]

mod frame;
mod outcome;
mod set_changes;
mod short_list;
mod telling;
mod waiting;

pub use frame::{Cone, Frame};
pub use outcome::{Outcome, copy_of, same};
pub use set_changes::{change_to, without};
pub use telling::{has, tell};
pub use waiting::{Turn, Waiting};
