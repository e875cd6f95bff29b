//! Systems and objectives of models that are seen without where their lists lie.
//!
//! It has no code. The layer above uses that a system or an objective has the value, the deltas and the variables'
//! violations that it has in such a model, and that such a model gets the system, objective or member that the model gets.
#![tactic(auto)]

pub mod laws;
