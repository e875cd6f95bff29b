//! Nodes of the order of numbers: the least and the greatest of two or many.
//!
//! It knows nothing of terms, solvers or programs, and of no other node. The layers above use that each
//! type is a `NumberNode` with exactly its rule. It keeps how often each number stands there, in order. A
//! change costs the logarithm of the number of inputs; a probe walks over the numbers below its answer,
//! each of which stands at none but changed places.
#![tactic(auto)]

mod arg_extreme;
mod counts;
mod greatest;
mod least;
mod least_keys;
mod lowest;
mod place_index;

pub use arg_extreme::ArgExtreme;
pub use greatest::Greatest;
pub use least::Least;
pub use lowest::Lowest;
