//! Names and where they are visible, what parts do beyond giving a value, and what checking knows.
//!
//! It knows no tree. The layers above use that the names are a list in order of declaration, of which the last
//! of a spelling is visible, and that it is found without a pass over all of them.
#![tactic(auto)]

pub mod checker;
pub mod effects;
pub mod latest;
pub mod laws;
pub mod lists;
pub mod names;
pub mod scope;

pub use checker::Checker;
pub use effects::{Doing, Effects, Signature};
pub use lists::{Flags, Kinds, Slots};
pub use names::{Binding, Found, Names};
pub use scope::{Frame, Scope};
