//! The value of one operation of a list of inputs, and the violation at a place of a constraint, exactly as the
//! operation's rule says.
//!
//! It knows nothing of terms' variables, of models or of what they come to. The layers above use `value_of` and
//! `violation_at`, and the trait by which users' constraints are computed.
#![tactic(auto)]

mod operation;
mod places;
mod users;
pub mod violating;

pub use operation::{number_of, numbers_of, value_of};
pub use places::violation_at;
pub use users::{NoUsers, UserValues};
