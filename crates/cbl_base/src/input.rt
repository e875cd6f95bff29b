//! What a node takes and gives, and how an input changes.

use crate::int_set::IntSet;

/// A number, or a set of numbers.
#[derive(Clone, Drop, Debug)]
pub enum Input {
    Int(i64),
    Set(IntSet),
}

/// The value of a node: it may be an input of a node above.
pub type NodeValue = Input;

/// How the input at a place, counted from 0, changes.
#[derive(Drop, Debug)]
pub enum Change {
    /// The number `old` becomes `new`.
    Int {
        place: u32,
        old: i64,
        new: i64,
    },
    /// The set gets the members `added`, which it lacks, and loses the members `removed`, which it has.
    Set {
        place: u32,
        added: IntSet,
        removed: IntSet,
    },
}
