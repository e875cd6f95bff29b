//! What callers use of `operation_values`.
pub use operation_values::{UserValues, number_of, value_of, violation_at};
