//! The operations on two sets.
ghost use Rattle.std.specs.Prelude.{◌≡◌, IfOk};
ghost use Rattle.cbl_operations.specs.TwoSets.{two_sets_number, two_sets_value};

use crate::sets::{inter_of, minus_of, union_of};
use cbl_base::{IntSet, NoMemory};
use std::alloc::Global;

/// An operation on two sets whose value is a set.
#[derive(Clone, Copy, PartialEq, Eq, Debug)]
pub enum TwoSetsOp {
    Union,
    Inter,
    Minus,
}

impl TwoSetsOp {
    /// The operation's value: the members of either set, of both, or of the first alone. `NoMemory` where
    /// there is none for it.
    pub fn value(self, alloc: Global, left: &IntSet, right: &IntSet) -> Result<IntSet, NoMemory>
        ensures { IfOk result (λ set. set ≡ two_sets_value self left.now right.now) }
    {
        match self {
            TwoSetsOp::Union => union_of(alloc, left, right),
            TwoSetsOp::Inter => inter_of(alloc, left, right),
            TwoSetsOp::Minus => minus_of(alloc, left, right),
        }
    }

    /// The operation as a number, by which it is told from the others.
    pub fn number(self) -> u8
        ensures { result ≡ two_sets_number self }
    {
        self as u8
    }
}
