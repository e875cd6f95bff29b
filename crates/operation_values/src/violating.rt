//! What callers use of `cbl_violations`.
pub use cbl_violations::weighted_total_value;
