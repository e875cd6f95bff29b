//! What a run has beside its names: the output that it prints to, its solvers, and the users' constraints.
//!
//! It knows nothing of names, expressions or statements. The layers above use that whatever is `Outside` tells what was
//! printed, the solvers and the users' constraints as the meaning of programs has them, and that each call does of them
//! what the meaning says.
#![tactic(auto)]

mod beside;
mod handed;
mod out;
mod outside;
pub mod solvers_of_runs;
mod stage;

pub use handed::{HandedIn, handed_in};
pub use out::{Bytes, Out};
pub use outside::Outside;
pub use stage::Stage;
