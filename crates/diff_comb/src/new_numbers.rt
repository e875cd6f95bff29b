//! What the first of some changes made of the numbers at their places.
ghost use Rattle.std.specs.Prelude.{◌≡◌, ◌+◌, ◌<◌, ◌≤◌, length, take, OnOk};
ghost use Rattle.node_count.specs.After.{number_after};
ghost use Rattle.diff_comb.specs.NewNumbers.{AreNewNumbers};

use cbl_base::NoMemory;
use node_base::NumberChange;
use node_count::number_after;
use std::alloc::Global;
use std::collections::BTreeMap;

/// So many changes are looked through; of more than these the new numbers are kept by their places.
const FEW: usize = 8;

/// The new numbers of the first of some changes, by their places, where there are many changes.
#[derive(Drop)]
pub(crate) struct NewNumbers {
    by_place: BTreeMap<usize, i64>,
}

impl NewNumbers {
    /// Those of no change.
    pub(crate) fn new(alloc: Global, changes: &[NumberChange]) -> NewNumbers
        ensures { AreNewNumbers result changes.now 0 }
    {
        NewNumbers {
            by_place: BTreeMap::new(alloc),
        }
    }

    /// The number at a place after the first `count` changes, where it was this one before them.
    pub(crate) fn number_at(
        &self,
        changes: &[NumberChange],
        count: usize,
        place: usize,
        number: i64,
    ) -> i64
        requires within { count ≤ length changes.now }
        requires kept { AreNewNumbers self.now changes.now count }
        ensures { result ≡ number_after place number (take count changes.now) }
    {
        if changes.len() <= FEW {
            number_after(number, place, &changes[..count])
        } else {
            self.by_place.get(&place).copied().unwrap_or(number)
        }
    }

    /// One change more.
    pub(crate) fn add(&mut self, changes: &[NumberChange], count: usize) -> Result<(), NoMemory>
        requires within { count < length changes.now }
        requires kept { AreNewNumbers self.old changes.now count }
        ensures { OnOk result (AreNewNumbers self.new changes.now (count + 1)) }
    {
        if changes.len() > FEW {
            let change = changes[count];
            self.by_place.insert(change.place, change.new)?;
        }
        Ok(())
    }
}
