//! What a seat knows of the turn.
use crate::replays::Entry;
use std::collections::LinkedList;

/// It stands in proofs alone: no value of it is made.
pub struct View<S, Q, R> {
    /// The state that the turn began with. `None` once the seat was joined into another.
    pub start: Option<S>,
    /// The part of the history that the seat has seen, each entry with the number of the seat that made it.
    pub seen: LinkedList<(u64, Entry<Q, R>)>,
    /// The seat's own number first, then those that it took in, each with the entries made under it.
    pub made: LinkedList<(u64, LinkedList<Entry<Q, R>>)>,
    /// How many numbers it may still give to new seats.
    pub rest: u64,
    /// Whether the seat has the turn.
    pub has_turn: bool,
}
