//! Types, effects and names: the checked tree of a program, or its exact first refusal.
//!
//! `check` gives the checked tree exactly where the program is well typed, and else the first part in order of
//! checking whose rule has no case, with its place and its code. It knows no text and no run. The layers above
//! use that each use of a name is resolved, and that a refusal is the definition's.
#![tactic(auto)]

mod functions;
mod program;

pub use program::{CheckStop, check};
