//! Nodes of operations on sets: the union, the intersection and the difference of two sets, how many
//! members a set has, whether a number is a member, and the set of the keys whose number is true.
//!
//! It knows nothing of terms, solvers or programs, and of no other node. The layers above use that each
//! type is a `NodeRule` with exactly its operation's rule. What a change costs grows with the members that
//! come and go and with the sets that are kept, never with the number of inputs.
#![tactic(auto)]

mod card;
mod editing;
mod key_bag;
mod member;
mod set_of;
mod two_sets;

pub use card::Card;
pub use member::Member;
pub use set_of::SetOf;
pub use two_sets::TwoSets;
