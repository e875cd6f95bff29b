//! Changes of variables.
use cbl_base::VarId;

/// The value of a whole-number variable was `old`, and is `new`.
#[derive(Clone, Copy, PartialEq, Eq, Debug)]
pub struct VarChange {
    pub var: VarId,
    pub old: i64,
    pub new: i64,
}
