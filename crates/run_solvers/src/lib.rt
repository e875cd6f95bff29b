//! The solvers of a run: terms that statements build, and what each act of a program makes of its solvers.
//!
//! It knows nothing of statements or of names' cells. The layers above use that a built term is seen as its tree, that
//! the solvers are seen as the meaning of programs has them, and that each act does of them what the meaning says.
#![tactic(auto)]

mod asking;
mod beginning;
mod built;
mod changing;
mod closing;
mod defining;
mod firsts;
mod held;
pub mod laws;
mod objects;
mod reading;
mod refusals;
mod solutions;
mod solvers;
pub mod solving;
mod totals;
mod users;
pub mod values_of_runs;
mod waiting;

pub use beginning::Beginning;
pub use built::{Built, user_fits};
pub use solvers::Solvers;
