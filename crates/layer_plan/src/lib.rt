//! Layers: the order in which items can be worked on that depend on one another, or the cycle that
//! stands in the way.
//!
//! It knows nothing of what an item is: items are numbers from 0, each with the list of those that it
//! depends on. The layers above use that an item's layer is the length of its longest path, so that it
//! is above the layer of each item that it depends on, and that a cycle is answered exactly where there
//! is one: the shortest through the least item that lies on one, the first in the order of lists.
//!
//! The layers come from one search in depth. Only where that meets a cycle, the least item on one is
//! found by the components of items that lead to one another, and the cycle by a search back from it.
//! Each of these looks at every entry at most twice.
#![tactic(auto)]

mod components;
mod layers;
mod planning;
mod rounds;
mod search;
mod shortest;
mod stop;
mod uses;

pub use layers::Layers;
pub use planning::plan;
pub use stop::PlanStop;
