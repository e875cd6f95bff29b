//! The operations on keys that each have a number.
ghost use Rattle.std.specs.Prelude.{◌≡◌, IfOk, length};
ghost use Rattle.cbl_operations.specs.Keyed.{keyed_number, keyed_value};

use crate::sets::{keys_of_greatest, keys_of_least, keys_of_ones};
use cbl_base::{IntSet, NoMemory};
use std::alloc::Global;

/// An operation that gives some of the keys.
#[derive(Clone, Copy, PartialEq, Eq, Debug)]
pub enum KeyedOp {
    ArgMin,
    ArgMax,
    SetOf,
}

impl KeyedOp {
    /// The operation's value of keys and one number for each: the set of the keys whose number is least, is
    /// greatest, or is 1. `NoMemory` where there is none for it.
    pub fn value(self, alloc: Global, keys: &[i64], numbers: &[i64]) -> Result<IntSet, NoMemory>
        requires { length numbers.now ≡ length keys.now }
        ensures { IfOk result (λ set. set ≡ keyed_value self keys.now numbers.now) }
    {
        match self {
            KeyedOp::ArgMin => keys_of_least(alloc, keys, numbers),
            KeyedOp::ArgMax => keys_of_greatest(alloc, keys, numbers),
            KeyedOp::SetOf => keys_of_ones(alloc, keys, numbers),
        }
    }

    /// The operation as a number, by which it is told from the others.
    pub fn number(self) -> u8
        ensures { result ≡ keyed_number self }
    {
        self as u8
    }
}
