//! What the machine writes down.
use crate::form::Form;

/// A step of the derivation of a list of tokens, from the left.
#[derive(Clone, Copy)]
pub enum Event {
    /// The part that comes next has this form.
    Chose(Form),
    /// The next token is read. Whether the tree keeps its place.
    Read(bool),
}
