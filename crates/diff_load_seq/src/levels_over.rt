//! Levels as raises would make them, over levels that stay.
ghost use Rattle.std.specs.Prelude.{◌≡◌, ◌<◌, ◌≤◌, ℕ, length, slice_set, OnOk};
ghost use Rattle.diff_load_seq.specs.Parts.{joined};
ghost use Rattle.diff_load_seq.specs.Levels.{excesses, level_at, raised, raised_between, IsRaisable, IsKept};
ghost use Rattle.diff_load_seq.specs.LevelsOver.{level_over, shown, IsKeptOver};

use crate::levels::{Level, Levels};
use crate::running_sum::RunningSum;
use cbl_base::{NoMemory, RunFault};
use std::alloc::Global;
use std::collections::BTreeMap;

/// The levels that differ from those below, by their places, and the sum of how far each level is above
/// its limit.
#[derive(Drop)]
pub(crate) struct LevelsOver {
    raised: BTreeMap<usize, Level>,
    excess: RunningSum,
}

impl LevelsOver {
    /// The levels as they stand.
    pub(crate) fn new(alloc: Global, levels: &Levels) -> LevelsOver
        requires { IsKept levels.now }
        ensures shown { shown levels.now.each.items result ≡ levels.now.each.items }
        ensures kept { IsKeptOver levels.now.each.items result }
    {
        LevelsOver {
            raised: BTreeMap::new(alloc),
            excess: levels.excess,
        }
    }

    /// A level, whose place counts from 0.
    pub(crate) fn level(&self, levels: &Levels, place: usize) -> Level
        requires { place < length levels.now.each.items }
        ensures { result ≡ level_over levels.now.each.items self.now place }
    {
        match self.raised.get(&place) {
            Some(level) => *level,
            None => levels.each[place],
        }
    }

    /// Raises a level, whose place counts from 0.
    pub(crate) fn raise(&mut self, levels: &Levels, place: usize, by: i128) -> Result<(), NoMemory>
        requires within { place < length levels.now.each.items }
        requires kept { IsKeptOver levels.now.each.items self.old }
        requires room { IsRaisable (level_over levels.now.each.items self.old place) by }
        ensures shown { OnOk result (shown levels.now.each.items self.new ≡
            slice_set (shown levels.now.each.items self.old) place
            (raised by (level_over levels.now.each.items self.old place))) }
        ensures kept { OnOk result (IsKeptOver levels.now.each.items self.new) }
    {
        let old = self.level(levels, place);
        let new = old.raised(by);
        self.raised.insert(place, new)?;
        self.excess = self.excess.replaced(old.excess(), new.excess());
        Ok(())
    }

    /// Raises each level from the place `first` up to before the place `last`.
    pub(crate) fn raise_between(
        &mut self,
        levels: &Levels,
        first: usize,
        last: usize,
        by: i128,
    ) -> Result<(), NoMemory>
        requires order { first ≤ last }
        requires within { last ≤ length levels.now.each.items }
        requires kept { IsKeptOver levels.now.each.items self.old }
        requires room { (place : ℕ) → place < last →
            IsRaisable (level_at (shown levels.now.each.items self.old) place) by }
        ensures shown { OnOk result (shown levels.now.each.items self.new ≡
            raised_between first last by (shown levels.now.each.items self.old)) }
        ensures kept { OnOk result (IsKeptOver levels.now.each.items self.new) }
    {
        for place in first..last {
            self.raise(levels, place, by)?;
        }
        Ok(())
    }

    /// How far the levels are above their limits, as a sum. `Overflow` exactly where a height, a
    /// difference or the sum doesn't fit.
    pub(crate) fn total(&self, levels: &Levels) -> Result<i64, RunFault>
        requires { IsKeptOver levels.now.each.items self.now }
        ensures { result ≡ joined (excesses (shown levels.now.each.items self.now)) }
    {
        self.excess.number()
    }
}
