//! Parallel loops over any body.
//!
//! It knows nothing of what a body computes, nor of the state that its iterations share. The layers above use `run_loop`:
//! workers draw the iterations and run them, each over a seat of its own, and what they asked is one legal history, in
//! which each iteration's entries are just what it asks. A history fits a loop by a definition of its own, and the law
//! of the core is `laws::schedule`. A loop may wait.
#![tactic(auto)]

mod body;
mod gate;
pub mod laws;
mod outcomes;
mod running;
mod worker;

pub use body::{IterBody, run_iteration};
pub use gate::{Gate, OpenGate};
pub use running::{LoopResult, run_loop};
