//! What is kept of a model, so that the violations of a variable in a system are read without taking memory.
//!
//! It knows nothing of stores, solvers or programs: who keeps the values is behind a trait. The layer above uses that
//! `Shares::variable_violations` gives exactly what the definition says, from the values and violations that are read.
#![tactic(auto)]

mod calls;
mod closing;
mod held;
mod making;
mod naming;
mod parts;
mod reading;
mod shares;
mod users;
mod walk;
mod words;

pub use held::Held;
pub use shares::Shares;
pub use walk::Ids;
