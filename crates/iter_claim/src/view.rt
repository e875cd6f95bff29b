//! What a seat knows of the claims.
use std::collections::LinkedList;

/// It stands in proofs alone: no value of it is made.
pub struct View {
    /// How many numbers there are.
    pub count: u64,
    /// The numbers that it drew, and those of the seats that it took in.
    pub drawn: LinkedList<u64>,
    /// How many of its steps found no number left.
    pub nones: u64,
    /// How many seats may still come from it, itself counted.
    pub seats: u64,
    /// Whether it makes no further step on the word.
    pub stopped: bool,
}
