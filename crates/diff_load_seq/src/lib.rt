//! Nodes of the constraints on loads and on places in a row: `knapsack`, `multiknapsack` and `sequence`.
//!
//! It knows nothing of terms, solvers or programs. The layers above use that each type here is a node
//! with exactly its constraint's rule, and that a change costs no pass over the inputs: the load of a
//! knapsack, the load of each bin and the count of each window are kept, and so is the sum of how far
//! each is above its limit.
#![tactic(auto)]

mod bins;
mod knapsack;
mod levels;
mod levels_over;
mod multi_knapsack;
mod running_sum;
mod sequence;
mod windows;

pub use knapsack::Knapsack;
pub use multi_knapsack::MultiKnapsack;
pub use sequence::Sequence;
