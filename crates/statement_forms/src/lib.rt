//! What each form of a statement does.
//!
//! One function for each form. They execute the parts inside a part by what they are handed, and know nothing of how
//! that is done; so none of them is in a cycle with another. The layers above use that each does what the meaning of the
//! form says.
#![tactic(auto)]

mod for_all;
mod loops;
pub mod statements;
