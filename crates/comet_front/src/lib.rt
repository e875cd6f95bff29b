//! From a text to the checked program that it is, or its refusal: by its form, by the rules of types and effects, or
//! because it holds a form that isn't built.
//!
//! It knows nothing of files, nor of what a program means. The layers above use that a text is one checked program or
//! is refused at one place for one cause.
#![tactic(auto)]

pub mod laws;
mod reading;
mod stop;

pub use reading::read_program;
pub use stop::TextStop;
