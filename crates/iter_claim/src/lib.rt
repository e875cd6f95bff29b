//! Claims: numbers that threads draw, each once and in order.
//!
//! It knows nothing of what a number stands for, of threads or of loops. The layers above use that each
//! number below the count goes to one seat, once, in order, and that `None` comes exactly where all were
//! drawn. Nothing here waits.
#![tactic(auto)]

mod calls;
mod claims;
mod view;

pub use claims::{ClaimSeat, Claims};
