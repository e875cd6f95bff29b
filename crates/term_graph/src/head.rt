//! What a node computes.

use cbl_base::IntSet;
use term_model::Op;

/// What a node computes: a number, a set, or what an operation gives of its inputs.
#[derive(Drop)]
pub enum Head {
    Const(i64),
    ConstSet(IntSet),
    Op(Op),
}
