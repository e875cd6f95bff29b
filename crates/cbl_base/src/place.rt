//! A place in a text.

/// A place in a text: the line from 1, and the byte in the line from 1.
#[derive(Clone, Copy, PartialEq, Eq, Debug)]
pub struct Place {
    pub line: u32,
    pub col: u32,
}
