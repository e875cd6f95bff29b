//! What every crate of the project names: places in a text, the faults of a run, texts and lists of
//! numbers, sets, exact arithmetic on 64-bit signed numbers, fuel, counted steps, the limits, and the
//! law of a node.
//!
//! It knows nothing of programs, solvers or files, and of no operation by name. The layers above use
//! that `add`, `sub`, `mul`, `div` and `rem` give the exact result or refuse exactly where there is
//! none in 64 bits, that `Fuel::charge` refuses exactly where less is left, that a `Text` is seen as
//! its list of bytes, `Numbers` as its list of numbers and an `IntSet` as the rising list of its
//! members, and that whatever is a `NodeRule` answers by its rule of the inputs that it holds.
#![tactic(auto)]

mod arithmetic;
mod faults;
mod fuel;
mod ids;
mod input;
mod int_set;
pub mod limits;
mod names;
mod node_rule;
mod numbers;
mod place;
mod text;

pub use arithmetic::{add, div, mul, rem, sub};
pub use faults::{Limit, NoMemory, NodeFault, RunFault, WantOfMemory};
pub use fuel::{Fuel, Spent, Steps};
pub use ids::{NodeId, VarId};
pub use input::{Change, Input, NodeValue};
pub use int_set::IntSet;
pub use names::Names;
pub use node_rule::NodeRule;
pub use numbers::Numbers;
pub use place::Place;
pub use text::Text;
