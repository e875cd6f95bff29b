//! What each iteration passes.

/// A gate is entered before an iteration runs, and left behind it.
pub trait Gate {
    fn enter(&self, iteration: u32);

    fn leave(&self, iteration: u32);
}

/// A gate that does nothing.
#[derive(Clone, Copy, Drop)]
pub struct OpenGate;

impl Gate for OpenGate {
    fn enter(&self, _iteration: u32) {}

    fn leave(&self, _iteration: u32) {}
}
