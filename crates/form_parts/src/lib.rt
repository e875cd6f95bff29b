//! What the forms ask of the parts inside them: values, numbers, truths, terms, and the tuples of generators.
//!
//! The parts are executed by what the functions are handed, and they know nothing of how that is done, nor of any form.
//! The layers above use that each asks for what its meaning says.
#![tactic(auto)]

pub mod aggregates;
pub mod bodies;
pub mod terms;
pub mod tuples;
pub mod values;
