//! Constraints that users of the library write, and the node that wraps one.
//!
//! It knows nothing of any constraint by name, of solvers or of programs. The layers above use that
//! whatever is a `UserConstraint` tells the violations of the numbers that it holds by its rule, which
//! no call changes, that a box of one is one, and that `UserNode` is a `NumberNode` with that rule.
#![tactic(auto)]

mod local;
mod node;
mod user;

pub use local::LocalConstraint;
pub use node::UserNode;
pub use user::UserConstraint;
