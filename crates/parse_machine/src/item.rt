//! What is still to come, one by one.
use crate::grammar::{Kind, Part};

/// What is still to come.
#[derive(Clone, Copy)]
pub enum Item {
    /// A token of this kind, and whether the tree keeps its place.
    Token(bool, Kind),
    /// A part at its depth.
    Part(Part, usize),
}
