//! Counts as changes would make them, over those of a tally that stays.
ghost use Rattle.std.specs.Prelude.{◌≡◌, ◌+◌, ◌<◌, ◌^◌, [], length, IfOk, OnOk, IfSome};
ghost use Rattle.node_base.specs.Counting.{count_over, place_among, ShowsChange, IsWritten};

use crate::number_change::NumberChange;
use crate::tally::{Elsewhere, Tally};
use cbl_base::NoMemory;
use std::alloc::Global;
use std::collections::BTreeMap;
use std::marker::Model;

/// The counts that differ from those of a tally, and seen as a list of numbers with their counts. Over
/// a tally it shows the tally's list, until changes make it show another. The first four counts, enough
/// for two changes, take no memory but its own.
#[derive(Drop)]
pub struct Overlay {
    first: [(i64, usize); 4],
    len: usize,
    later: BTreeMap<i64, usize>,
}

impl Model for Overlay {
    ghost use Rattle.std.specs.Prelude.{ℤ, ℕ, List, take, ◌++◌, ◌≤◌};

    ghost Value = { List (ℤ × ℕ) };

    ghost view = { λ a. take a.len a.first ++ a.later.entries };

    ghost invariant = { λ a. a.len ≤ 4 };
}

impl Overlay {
    /// No count that differs.
    pub fn new(alloc: Global) -> Overlay
        ensures { result ≡ [] }
    {
        Overlay {
            first: [(0, 0); 4],
            len: 0,
            later: BTreeMap::new(alloc),
        }
    }

    /// At how many places the number stands in the list that it shows over the tally.
    pub fn times(&self, tally: &Tally, number: i64) -> usize
        ensures { result ≡ count_over tally.now self.now number }
    {
        match place_among(&self.first[..self.len], number) {
            Some(place) => self.first[place].1,
            None => match self.later.get(&number) {
                Some(times) => *times,
                None => tally.times(number),
            },
        }
    }

    /// Makes a change in the list that it shows over the tally. It answers how often the old and the
    /// new number stand there at the other places.
    pub fn set(&mut self, tally: &Tally, change: NumberChange) -> Result<Elsewhere, NoMemory>
        requires stands { 0 < count_over tally.now self.old change.old }
        requires room { count_over tally.now self.old change.new + 1 < 2 ^ 64 }
        ensures { IfOk result (λ e. ShowsChange tally.now self.old self.new change e) }
    {
        let old = self.times(tally, change.old) - 1;
        self.write(change.old, old)?;
        let new = self.times(tally, change.new);
        self.write(change.new, new + 1)?;
        Ok(Elsewhere { old, new })
    }

    /// From now on the count of the number is this one.
    fn write(&mut self, number: i64, times: usize) -> Result<(), NoMemory>
        ensures { OnOk result (IsWritten self.old self.new number times) }
    {
        match place_among(&self.first[..self.len], number) {
            Some(place) => self.first[place] = (number, times),
            None => {
                if self.len < 4 {
                    self.first[self.len] = (number, times);
                    self.len += 1;
                } else {
                    self.later.insert(number, times)?;
                }
            }
        }
        Ok(())
    }
}

/// The place of the number among these.
fn place_among(counts: &[(i64, usize)], number: i64) -> Option<usize>
    ensures place { result ≡ place_among number counts.now }
    ensures within { IfSome result (λ place. place < length counts.now) }
{
    for (place, count) in counts.iter().enumerate() {
        if count.0 == number {
            return Some(place);
        }
    }
    None
}
