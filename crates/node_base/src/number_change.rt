//! How a list of numbers changes at a place.

/// At a place, counted from 0, the number `old` becomes `new`.
#[derive(Clone, Copy, PartialEq, Eq, Debug)]
pub struct NumberChange {
    pub place: usize,
    pub old: i64,
    pub new: i64,
}
