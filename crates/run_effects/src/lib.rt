//! What forms do that write: declarations, assignments and what makes objects, once their last operand is there, and the
//! cells of an array before it is filled.
//!
//! It evaluates nothing, and knows nothing of how expressions are evaluated or statements executed. The layers above use
//! that each function does what the meaning of programs says.
#![tactic(auto)]

pub mod blocks;
pub mod cells;
pub mod declaring;
pub mod effects;
