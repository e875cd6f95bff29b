//! The variables and objects of a run, its methods, and what is written.
//!
//! It knows nothing of expressions or of statements. The layers above use that each function does what the meaning of
//! programs says of the state's view.
#![tactic(auto)]

pub mod methods;
pub mod objects;
pub mod solutions;
pub mod solvers_of_runs;
pub mod state_of_runs;
pub mod systems;
pub mod variables;
pub mod writes;

pub use methods::method;
pub use objects::{make_objective, make_solver, make_sum, make_system};
pub use solutions::{make_solution, restore};
pub use systems::post;
pub use variables::{
    assign, close, commit_waiting, define, domain_of, new_variable, open_with, swap, variable_in,
};
pub use writes::{added, stepped, subtracted, write};
