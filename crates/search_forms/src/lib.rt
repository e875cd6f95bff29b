//! What selectors, neighborhoods and handlers do as statements.
//!
//! One function for each form. They execute the parts inside a part by what they are handed, and know nothing of how
//! that is done; so none of them is in a cycle with another. The layers above use that each does what the meaning of the
//! form says.
#![tactic(auto)]

mod candidates;
mod listing;
mod moves;
mod scanning;
mod selectors;
mod watching;

pub use moves::{call_move, execute_neighbor};
pub use selectors::{execute_select, execute_select_by};
pub use watching::execute_whenever;
