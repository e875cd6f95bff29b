//! What the constraints of the language mean: for each its violations, the violation at a place, and its
//! rule as a node; and all of them in one type, `Constraint`. Beside each definition stand two plain
//! functions that compute it from scratch, which the methods of `Constraint` call.
//!
//! It knows nothing of nodes that are kept up to date, of terms, solvers or programs. The layers above
//! use `Constraint`, that it gives the rules exactly, and the laws: a constraint has 0 violations exactly
//! where what its name says holds, and never fewer.
#![tactic(auto)]

mod all_different;
mod cardinality;
mod combined;
mod constraint;
mod counting;
mod knapsack;
mod laws;
mod multi_knapsack;
mod relations;
mod sequence;
mod summing;

pub use combined::{all_of_violations, repeat_value, weighted_total_value};
pub use constraint::{Constraint, Fields};
pub use laws::{
    all_different_law, all_of_law, any_of_law, at_least_law, at_most_law, constraints_by_numbers,
    eq_law, exactly_law, knapsack_law, le_law, lt_law, multi_knapsack_law, ne_law, not_held_law,
    sequence_law, total_law,
};
pub use relations::{eq_violations, le_violations, lt_violations, ne_violations};
