//! All values are to differ.
ghost use Rattle.std.specs.Prelude.{◌≡◌, ◌+◌, ◌≤◌, ◌<◌, ◌^◌, min, length, Ok};
ghost use Rattle.cbl_violations.specs.Violations.AllDifferent.{all_different, all_different_violations};
ghost use Rattle.node_base.specs.NumberChanges.{AreNumberChanges, IsNumberAnswer, IsNumberChange, after_number_change, after_number_changes};
ghost use Rattle.diff_global.specs.Repeats.{repeats};

use cbl_base::{NoMemory, NodeFault, RunFault};
use node_base::{Elsewhere, NumberChange, NumberNode, Overlay, Tally};
use std::alloc::Global;

/// A node of `alldifferent`. It keeps at how many places a number stands that stands at a later place too.
#[derive(Drop)]
pub struct AllDifferent {
    tally: Tally,
    repeats: usize,
    alloc: Global,
}

impl AllDifferent {
    /// A node with the rule of `alldifferent`.
    pub fn new(alloc: Global) -> AllDifferent
        ensures rule { ⟦<AllDifferent as NumberNode>⟧.number_rule result ≡ all_different }
    {
        AllDifferent {
            tally: Tally::new(alloc),
            repeats: 0,
            alloc,
        }
    }
}

impl NumberNode for AllDifferent {
    ghost use Rattle.std.specs.Prelude.{◌≡◌, ◌<◌, ◌^◌, length};
    ghost use Rattle.cbl_violations.specs.Violations.AllDifferent.{all_different};
    ghost use Rattle.diff_global.specs.Repeats.{repeats};

    ghost number_rule = { λ _. all_different };

    ghost settled = { λ s. (s.repeats ≡ repeats s.tally) × (length s.tally < 2 ^ 62) };

    ghost held_numbers = { λ s. s.tally };

    fn reset(&mut self, numbers: &[i64]) -> Result<(), NoMemory> {
        self.tally = Tally::for_numbers(self.alloc, numbers)?;
        self.repeats = 0;
        for x in numbers {
            let before = self.tally.push(*x)?;
            self.repeats += one_if_any(before);
        }
        Ok(())
    }

    fn set(&mut self, change: NumberChange) -> Result<(), NoMemory> {
        let elsewhere = self.tally.set(change)?;
        self.repeats = repeats_after(self.repeats, elsewhere);
        Ok(())
    }

    // One change takes no counts of its own.
    fn probe(&self, changes: &[NumberChange]) -> Result<i64, NodeFault> {
        if changes.len() == 1 {
            Ok(probe_one(&self.tally, self.repeats, changes[0]))
        } else {
            probe_each(self.alloc, &self.tally, self.repeats, changes)
        }
    }

    fn value(&self) -> Result<i64, RunFault> {
        Ok(self.repeats as i64)
    }

    fn place_violation(&self, place: usize) -> i64 {
        let is_repeated = self.tally.times(self.tally.at(place)) >= 2;
        if is_repeated { 1 } else { 0 }
    }
}

/// The violations of the numbers as a change would make them, of which so many are repeats now.
fn probe_one(tally: &Tally, count: usize, change: NumberChange) -> i64
    requires change { IsNumberChange tally.now change }
    requires count { count ≡ repeats tally.now }
    requires few { length tally.now < 2 ^ 62 }
    ensures { all_different_violations (after_number_change tally.now change) ≡ Ok result }
{
    repeats_after(count, tally.elsewhere(change)) as i64
}

/// The violations of the numbers as these changes would make them, of which so many are repeats now.
fn probe_each(
    alloc: Global,
    tally: &Tally,
    count: usize,
    changes: &[NumberChange],
) -> Result<i64, NodeFault>
    requires changes { AreNumberChanges tally.now changes.now }
    requires count { count ≡ repeats tally.now }
    requires few { length tally.now < 2 ^ 62 }
    ensures { IsNumberAnswer
        (all_different_violations (after_number_changes tally.now changes.now)) result }
{
    let mut overlay = Overlay::new(alloc);
    let mut repeats = count;
    for change in changes {
        let elsewhere = overlay.set(tally, *change)?;
        repeats = repeats_after(repeats, elsewhere);
    }
    Ok(repeats as i64)
}

/// The repeats after a change: the old number's goes where it still stands elsewhere, and the new
/// number's comes where it stands elsewhere.
fn repeats_after(repeats: usize, elsewhere: Elsewhere) -> usize
    requires old { min 1 elsewhere.old ≤ repeats }
    requires room { repeats < 2 ^ 63 }
    ensures { result + min 1 elsewhere.old ≡ repeats + min 1 elsewhere.new }
{
    repeats - one_if_any(elsewhere.old) + one_if_any(elsewhere.new)
}

/// 1 for a number that stands anywhere.
fn one_if_any(times: usize) -> usize
    ensures { result ≡ min 1 times }
{
    if times == 0 { 0 } else { 1 }
}
