//! What all node crates share: nodes over numbers alone, each of which is made a `NodeRule` once and
//! for all, and the library of counting.
//!
//! It knows nothing of any operation or constraint by name. The layers above use that
//! `OverNumbers<N>` is a `NodeRule` for whatever `N` is a `NumberNode`, that a `Tally` is seen as its
//! list of numbers and tells how often each stands there, and how often the old and the new number
//! of a change stand at the other places, and that an `Overlay` tells the same of a list as changes
//! would make it, while the tally stays.
#![tactic(auto)]

mod counts;
mod lists;
mod number_change;
mod number_node;
mod ordered_counts;
mod over_numbers;
mod overlay;
mod tally;

pub use counts::Counts;
pub use lists::{changes_between, inputs_of};
pub use number_change::NumberChange;
pub use number_node::{NumberNode, probe_answer};
pub use ordered_counts::OrderedCounts;
pub use over_numbers::OverNumbers;
pub use overlay::Overlay;
pub use tally::{Elsewhere, Tally};
