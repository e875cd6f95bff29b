//! Signed numbers that are kept: the lists of reports, the values of solutions.
ghost use Rattle.std.specs.Prelude.{◌≡◌, ◌==◌, List, length, IfOk, slice_get};

use crate::faults::NoMemory;
use std::alloc::Global;
use std::marker::Model;

/// A list of 64-bit signed numbers, and seen as that list.
#[derive(Clone, Drop, Debug)]
pub struct Numbers {
    numbers: Vec<i64>,
}

impl Model for Numbers {
    ghost use Rattle.std.specs.Prelude.{ℤ, List};

    ghost Value = { List ℤ };

    ghost view = { λ a. a.numbers.items };
}

impl Numbers {
    /// A list of these numbers. `NoMemory` where there is none for a copy.
    pub fn from_slice(alloc: Global, numbers: &[i64]) -> Result<Numbers, NoMemory>
        ensures { IfOk result (λ list. list ≡ numbers.now) }
    {
        Ok(Numbers {
            numbers: Vec::from_slice(alloc, numbers)?,
        })
    }

    /// How many numbers it has.
    pub fn len(&self) -> usize
        ensures { result ≡ length self.now }
    {
        self.numbers.len()
    }

    /// Whether it has no number.
    pub fn is_empty(&self) -> bool
        ensures { result ≡ (length self.now == 0) }
    {
        self.numbers.is_empty()
    }

    /// The number at an index from 0. `None` exactly at an index that isn't below the length.
    pub fn get(&self, index: usize) -> Option<i64>
        ensures { result ≡ slice_get self.now index }
    {
        self.numbers.get(index).copied()
    }

    /// Its numbers.
    pub fn as_slice(&self) -> &[i64]
        ensures { result.now ≡ self.now }
    {
        self.numbers.as_slice()
    }
}
