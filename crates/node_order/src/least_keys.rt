//! The keys at which the least of some numbers stands.
ghost use Rattle.std.specs.Prelude.{◌≡◌, length, slice_get, IfOk, OnOk};
ghost use Rattle.std.specs.List.{filter_map};
ghost use Rattle.node_base.specs.NumberChanges.{IsNumberChange, AreNumberChanges, after_number_change, after_number_changes};
ghost use Rattle.cbl_operations.specs.Operations.Least.{least_of};
ghost use Rattle.node_order.specs.Extremes.{least_keys};
ghost use Rattle.node_order.specs.PlaceIndex.{IsIndexOf};

use crate::lowest::Lowest;
use crate::place_index::{index_of, move_place, move_places, places_of};
use cbl_base::{IntSet, NoMemory, Numbers};
use node_base::{NumberChange, NumberNode};
use std::alloc::Global;
use std::collections::BTreeSet;

/// Keys with a number for each: the least number, and which number stands at which place.
#[derive(Drop)]
pub(crate) struct LeastKeys {
    keys: Numbers,
    lowest: Lowest,
    index: BTreeSet<(i64, usize)>,
    alloc: Global,
}

impl LeastKeys {
    /// The keys, without numbers yet.
    pub(crate) fn new(alloc: Global, keys: Numbers) -> LeastKeys
        ensures { result.keys ≡ keys }
    {
        LeastKeys {
            keys,
            lowest: Lowest::new(alloc),
            index: BTreeSet::new(alloc),
            alloc,
        }
    }

    /// Takes these numbers in place of all that it holds.
    pub(crate) fn reset(&mut self, numbers: &[i64]) -> Result<(), NoMemory>
        ensures settled { OnOk result (⟦<Lowest as NumberNode>⟧.settled self.new.lowest) }
        ensures numbers { OnOk result (⟦<Lowest as NumberNode>⟧.held_numbers self.new.lowest ≡
            numbers.now) }
        ensures index { OnOk result (IsIndexOf self.new.index numbers.now) }
        ensures keys { self.new.keys ≡ self.old.keys }
    {
        self.lowest.reset(numbers)?;
        self.index = index_of(self.alloc, numbers)?;
        Ok(())
    }

    /// Makes a change in the numbers that it holds.
    pub(crate) fn set(&mut self, change: NumberChange) -> Result<(), NoMemory>
        requires settled { ⟦<Lowest as NumberNode>⟧.settled self.old.lowest }
        requires index { IsIndexOf self.old.index
            (⟦<Lowest as NumberNode>⟧.held_numbers self.old.lowest) }
        requires change { IsNumberChange (⟦<Lowest as NumberNode>⟧.held_numbers self.old.lowest) change }
        ensures settled { OnOk result (⟦<Lowest as NumberNode>⟧.settled self.new.lowest) }
        ensures numbers { OnOk result (⟦<Lowest as NumberNode>⟧.held_numbers self.new.lowest ≡
            after_number_change (⟦<Lowest as NumberNode>⟧.held_numbers self.old.lowest) change) }
        ensures index { OnOk result (IsIndexOf self.new.index
            (after_number_change (⟦<Lowest as NumberNode>⟧.held_numbers self.old.lowest) change)) }
        ensures keys { self.new.keys ≡ self.old.keys }
    {
        self.lowest.set(change)?;
        move_place(&mut self.index, change)
    }

    /// The keys at which the least of the numbers stands as these changes would make them.
    pub(crate) fn found(&self, changes: &[NumberChange]) -> Result<IntSet, NoMemory>
        requires settled { ⟦<Lowest as NumberNode>⟧.settled self.now.lowest }
        requires index { IsIndexOf self.now.index
            (⟦<Lowest as NumberNode>⟧.held_numbers self.now.lowest) }
        requires length { length (⟦<Lowest as NumberNode>⟧.held_numbers self.now.lowest) ≡
            length self.now.keys }
        requires changes { AreNumberChanges
            (⟦<Lowest as NumberNode>⟧.held_numbers self.now.lowest) changes.now }
        ensures { IfOk result (λ keys. keys ≡
            least_keys self.now.keys (after_number_changes
            (⟦<Lowest as NumberNode>⟧.held_numbers self.now.lowest) changes.now)) }
    {
        let least = self.least(changes)?;
        let mut places = places_of(self.alloc, &self.index, least)?;
        move_places(&mut places, least, changes)?;
        let found = keys_at(self.alloc, &self.keys, &places)?;
        IntSet::from_slice(self.alloc, &found)
    }

    /// The least of the numbers as these changes would make them, 0 where there is none.
    fn least(&self, changes: &[NumberChange]) -> Result<i64, NoMemory>
        requires settled { ⟦<Lowest as NumberNode>⟧.settled self.now.lowest }
        requires changes { AreNumberChanges
            (⟦<Lowest as NumberNode>⟧.held_numbers self.now.lowest) changes.now }
        ensures { IfOk result (λ least. least ≡ least_of (after_number_changes (⟦<Lowest as NumberNode>⟧.held_numbers self.now.lowest) changes.now)) }
    {
        match self.lowest.probe(changes) {
            Ok(least) => Ok(least),
            Err(_) => Err(NoMemory),
        }
    }
}

/// The keys at these places.
fn keys_at(alloc: Global, keys: &Numbers, places: &BTreeSet<usize>) -> Result<Vec<i64>, NoMemory>
    ensures { IfOk result (λ found. found.items ≡ filter_map (slice_get keys.now) places.now.keys) }
{
    Ok(
        places
            .iter()
            .filter_map(|place| keys.get(*place))
            .collect(alloc)?,
    )
}
