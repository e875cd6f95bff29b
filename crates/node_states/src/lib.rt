//! Operations by name, and the inputs of a node as a list that changes: whether an operation takes them, and
//! the changes that make them into others.
//!
//! It knows nothing of how a node keeps its value. The programs above use that whatever `takes` passes may
//! be given to the operation's node, and that `changes_between` and `changes_at` give changes of the first list
//! that make it the second.
#![tactic(auto)]

mod changes;
mod operations;
mod ordered;
mod taking;

pub use changes::{Places, changes_between};
pub use operations::plain_operation;
pub use ordered::changes_at;
pub use taking::{are_numbers, are_so_many, takes};
