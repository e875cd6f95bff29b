//! What models come to under an assignment, from scratch: the values of their variables, systems and objectives,
//! and what a move changes.
//!
//! It knows nothing of solvers, nodes that are kept up to date, or programs. The layers above use the definitions
//! (what a term, a variable, a system and an objective come to, on which subterms a system or an objective
//! stands, and which of several failing subterms counts), and that `fresh` and `fresh_with` give exactly the
//! values that these say, or the fault of the least numbered failing subterm with its place, and `delta` what a move
//! changes.
#![tactic(auto)]

mod all_parts;
pub mod asked;
pub mod computing;
pub mod deltas;
pub mod dependence;
pub mod evaluation;
mod failure;
mod fresh_values;
mod laws;
mod least_failure;
mod reach;
pub mod settling;
mod values;
pub mod wholes;

pub use asked::AskStop;
pub use deltas::{Move, delta};
pub use failure::Failure;
pub use fresh_values::{fresh, fresh_with};
pub use laws::{closed_model_law, defined_variable_law};
pub use operation_values::{NoUsers, UserValues};
pub use values::{ModelStop, Values};
pub use wholes::Whole;
