//! The numbers of tied candidates, and the choice of one.
ghost use Rattle.std.specs.Prelude.{◌≡◌, ◌<◌, ◌+◌, ◌^◌, ◌==◌, [], ◌∷◌, ◌++◌, length, slice_get, IfOk, OnOk, OnErr};
ghost use Rattle.ls_select.specs.Joining.{ties_at};
ghost use Rattle.ls_select.specs.Picking.{picked};

use crate::draws::Draws;
use cbl_base::NoMemory;
use std::alloc::Global;
use std::collections::LinkedList;
use std::marker::Model;

/// The numbers of candidates, and seen as their list. They are linked, so that two lists are joined without memory.
#[derive(Drop)]
pub struct Ties {
    numbers: LinkedList<u64>,
    alloc: Global,
}

impl Model for Ties {
    ghost use Rattle.std.specs.Prelude.{ℕ, List};

    ghost Value = { List ℕ };

    ghost view = { λ t. t.numbers };
}

impl Ties {
    /// No number.
    pub fn new(alloc: Global) -> Ties
        ensures { result ≡ [] }
    {
        Ties {
            numbers: LinkedList::new(alloc),
            alloc,
        }
    }

    /// How many they are.
    pub fn len(&self) -> usize
        ensures { result ≡ length self.now }
    {
        self.numbers.len()
    }

    /// Whether there are none.
    pub fn is_empty(&self) -> bool
        ensures { result ≡ (length self.now == 0) }
    {
        self.numbers.is_empty()
    }

    /// The number at a place from 0. `None` exactly at a place that isn't below the length.
    pub fn get(&self, place: usize) -> Option<u64>
        ensures { result ≡ slice_get self.now place }
    {
        self.numbers.iter().nth(place).copied()
    }

    /// Adds a number at the end. With `NoMemory` the list is as before.
    pub fn push(&mut self, number: u64) -> Result<(), NoMemory>
        ensures added { OnOk result (self.new ≡ self.old ++ number ∷ []) }
        ensures kept { OnErr result (self.new ≡ self.old) }
    {
        self.numbers.push_back(number)?;
        Ok(())
    }

    /// Puts one number in place of all. With `NoMemory` the list is as before.
    pub(crate) fn replace(&mut self, number: u64) -> Result<(), NoMemory>
        ensures replaced { OnOk result (self.new ≡ number ∷ []) }
        ensures kept { OnErr result (self.new ≡ self.old) }
    {
        let mut numbers = LinkedList::new(self.alloc);
        numbers.push_back(number)?;
        self.numbers = numbers;
        Ok(())
    }

    /// Takes all numbers out.
    pub(crate) fn clear(&mut self)
        ensures { self.new ≡ [] }
    {
        self.numbers.clear();
    }

    /// The numbers, where the best key of theirs is the best of all; else none.
    pub(crate) fn at(mut self, own: Option<i64>, best: Option<i64>) -> Ties
        ensures { result ≡ ties_at best own self }
    {
        if own != best {
            self.clear();
        }
        self
    }

    /// Adds the numbers of another list at the end, and takes no memory.
    pub(crate) fn append(&mut self, mut other: Ties)
        requires { length self.old + length other < 2 ^ 63 }
        ensures { self.new ≡ self.old ++ other }
    {
        let joined = self.numbers.append(&mut other.numbers);
        prove!(joined.is_ok());
    }
}

/// One of the tied candidates: none where there is none, and the only one where there is one, without a draw; else
/// that at the place `draws.below(len)`. It takes no memory.
pub fn pick(ties: &Ties, draws: &mut Draws) -> Option<u64>
    ensures { (result, draws.new) ≡ picked ties.now draws.old }
{
    let len = ties.len();
    if len < 2 {
        return ties.get(0);
    }
    let place = draws.below(len as u128);
    ties.get(place as usize)
}
