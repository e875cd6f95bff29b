//! What callers use of `run_state`.
pub use run_state::{Bytes, Out, Outside, Stage, State};
