//! What callers use of `run_values`.
pub use run_values::values::copied_values;
pub use run_values::{Bounds, OutStop, Stop, Value};
