//! Scans of a selector's candidates by workers beside each other.
//!
//! It knows nothing of what a candidate is, or of how one is scored. The layers above use that `scan` gives the part of
//! all candidates, scanned in order under the fuel, however many workers there are. It waits for nobody.
#![tactic(auto)]

mod probe;
mod scanning;
mod stretch;

pub use probe::Probe;
pub use scanning::scan;
