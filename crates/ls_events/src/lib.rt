//! What handlers of variables are told, and in which order; and what a solution keeps.
//!
//! It knows nothing of solvers, models or programs: a handler is a variable and the number of what is to run. The layers
//! above use that changes are queued one after another, each for the handlers of its variable in the order in which
//! they were added; that events leave the queue in the order in which they came; and that a solution keeps the numbers
//! that it is given.
#![tactic(auto)]

mod change;
mod handlers;
mod queue;
mod solution;

pub use change::VarChange;
pub use handlers::{Handler, Handlers};
pub use queue::{Event, Queue};
pub use solution::Solution;
