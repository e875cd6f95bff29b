//! Levels, each with a limit: how far each is above its limit, as a sum that is kept as levels are raised.
ghost use Rattle.std.specs.Prelude.{◌≡◌, ℕ, ◌<◌, ◌≤◌, ◌-◌, ◌++◌, [], ◌∷◌, length, slice_set, OnOk};
ghost use Rattle.cbl_base.specs.Arithmetic.{exact};
ghost use Rattle.diff_load_seq.specs.Parts.{joined, number_in, sum_of};
ghost use Rattle.diff_load_seq.specs.Levels.{excess_of, excesses, excesses_between, level_at, raised, raised_between, IsRaisable, IsKept};

use crate::running_sum::{RunningSum, narrowed};
use cbl_base::{NoMemory, RunFault, sub};
use std::alloc::Global;

/// A level and its limit.
#[derive(Clone, Copy)]
pub(crate) struct Level {
    pub(crate) height: i128,
    pub(crate) limit: i64,
}

impl Level {
    /// How far it is above the limit. `Overflow` exactly where the height or the difference doesn't fit.
    pub(crate) fn excess(self) -> Result<i64, RunFault>
        ensures { result ≡ excess_of self }
    {
        let height = narrowed(self.height)?;
        Ok(sub(height, self.limit)?.max(0))
    }

    /// The level, so much higher.
    pub(crate) fn raised(self, by: i128) -> Level
        requires { IsRaisable self by }
        ensures { result ≡ raised by self }
    {
        Level {
            height: self.height + by,
            limit: self.limit,
        }
    }
}

/// A list of levels, and the sum of how far each is above its limit.
#[derive(Drop)]
pub(crate) struct Levels {
    pub(crate) each: Vec<Level>,
    pub(crate) excess: RunningSum,
}

impl Levels {
    /// No level.
    pub(crate) fn new(alloc: Global) -> Levels
        ensures each { result.each.items ≡ [] }
        ensures kept { IsKept result }
    {
        Levels {
            each: Vec::new(alloc),
            excess: RunningSum::empty(),
        }
    }

    /// One more level, at the end.
    pub(crate) fn push(&mut self, level: Level) -> Result<(), NoMemory>
        requires { IsKept self.old }
        ensures each { OnOk result (self.new.each.items ≡ self.old.each.items ++ level ∷ []) }
        ensures kept { OnOk result (IsKept self.new) }
    {
        self.each.push(level)?;
        self.excess = self.excess.replaced(Ok(0), level.excess());
        Ok(())
    }

    /// Raises a level, whose place counts from 0.
    pub(crate) fn raise(&mut self, place: usize, by: i128)
        requires within { place < length self.old.each.items }
        requires kept { IsKept self.old }
        requires room { IsRaisable (level_at self.old.each.items place) by }
        ensures each { self.new.each.items ≡
            slice_set self.old.each.items place (raised by (level_at self.old.each.items place)) }
        ensures kept { IsKept self.new }
    {
        let old = self.each[place];
        let new = old.raised(by);
        self.each[place] = new;
        self.excess = self.excess.replaced(old.excess(), new.excess());
    }

    /// Raises each level from the place `first` up to before the place `last`.
    pub(crate) fn raise_between(&mut self, first: usize, last: usize, by: i128)
        requires order { first ≤ last }
        requires within { last ≤ length self.old.each.items }
        requires kept { IsKept self.old }
        requires room { (place : ℕ) → place < last →
            IsRaisable (level_at self.old.each.items place) by }
        ensures each { self.new.each.items ≡ raised_between first last by self.old.each.items }
        ensures kept { IsKept self.new }
    {
        for place in first..last {
            self.raise(place, by);
        }
    }

    /// How far the levels are above their limits, as a sum. `Overflow` exactly where a height, a
    /// difference or the sum doesn't fit.
    pub(crate) fn total(&self) -> Result<i64, RunFault>
        requires { IsKept self.now }
        ensures { result ≡ joined (excesses self.now.each.items) }
    {
        self.excess.number()
    }

    /// How far a level is above its limit, 0 where that doesn't fit.
    pub(crate) fn excess_at(&self, place: usize) -> i64
        requires { place < length self.now.each.items }
        ensures { result ≡ number_in (excess_of (level_at self.now.each.items place)) }
    {
        self.each[place].excess().unwrap_or(0)
    }

    /// How far the levels from the place `first` up to before the place `last` are above their limits, as
    /// a sum of those that fit. `Overflow` exactly where the sum doesn't.
    pub(crate) fn excess_between(&self, first: usize, last: usize) -> Result<i64, RunFault>
        requires order { first ≤ last }
        requires within { last ≤ length self.now.each.items }
        ensures { result ≡ exact (sum_of (excesses_between self.now.each.items first
            (last - first))) }
    {
        let mut sum = RunningSum::empty();
        for place in first..last {
            sum = sum.replaced(Ok(0), self.each[place].excess());
        }
        sum.of_numbers()
    }
}
