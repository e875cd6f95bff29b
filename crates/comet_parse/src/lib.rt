//! The reader of programs: a list of tokens to the one tree that spells it, or to its exact refusal.
//!
//! It knows nothing of texts, of types, or of what a program means. The layers above use that `parse` gives a
//! tree that spells the tokens within the limit of depth, that every tree which spells them is that one, and
//! that it refuses a list at the token and for the cause that the definition of a refusal names.
#![tactic(auto)]

mod building;
mod keeping;
pub mod laws;
mod program;
mod stop;

pub use program::parse;
pub use stop::ParseStop;
