//! Terms.

use cbl_base::{IntSet, Place, VarId};
use cbl_operations::Op;

/// A term: a constant, a variable, or an operation of other terms with its place in the program's text. A
/// variable is named by its index; its solver isn't looked at.
#[derive(Drop, Debug)]
pub enum Term {
    Const(i64),
    ConstSet(IntSet),
    Var(VarId),
    Node {
        op: Op,
        args: Vec<Term>,
        place: Place,
    },
}
