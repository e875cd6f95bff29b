//! Trials: what a target's value would be after moves, less its value now, asked of a store that stays as
//! it is.
//!
//! It knows nothing of terms, systems or objectives: its targets are nodes of a store. The layers above use
//! that a trial gives the difference of two fresh evaluations, or the least failing node on which the target
//! stands, and that its work is bounded by what the moves touch.
#![tactic(auto)]

mod asking;
mod changes;
mod ending;
mod fault;
mod moving;
mod overlay;
mod settling;
mod trial_calls;
mod turning;

pub use fault::{DifferenceFault, TrialFault};
pub use overlay::Overlay;
pub use trial_calls::Trial;
