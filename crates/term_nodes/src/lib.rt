//! Operations of terms that have their operands.
//!
//! It asks for no part of a form, and knows nothing of how forms are executed. The layers above use that each function
//! stands for the term that the meaning of programs says, with each fault and each unit of fuel at its place.
#![tactic(auto)]

pub mod nodes;
