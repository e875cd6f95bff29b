//! How often values of a set may stand in places in a row, as a node.
ghost use Rattle.std.specs.Prelude.{◌≡◌};
ghost use Rattle.cbl_violations.specs.Violations.Sequence.{sequence};

use crate::levels::Levels;
use crate::levels_over::LevelsOver;
use crate::running_sum::answer;
use crate::windows::{counted_windows, move_number, move_number_over, size_of, windows_holding};
use cbl_base::{IntSet, NoMemory, NodeFault, RunFault};
use node_base::{NumberChange, NumberNode};
use std::alloc::Global;

/// The node of `sequence`: over the windows of so many places in a row, how many more than `most` have a
/// value of the set. The counts of the windows are kept.
#[derive(Drop)]
pub struct Sequence {
    values: IntSet,
    most: i64,
    window: i64,
    numbers: Vec<i64>,
    windows: Levels,
    alloc: Global,
}

impl Sequence {
    /// The node with this set of values, this most and so many places to a window.
    pub fn new(alloc: Global, values: IntSet, most: i64, window: i64) -> Sequence
        ensures { ⟦<Sequence as NumberNode>⟧.number_rule result ≡ sequence values most window }
    {
        Sequence {
            values,
            most,
            window,
            numbers: Vec::new(alloc),
            windows: Levels::new(alloc),
            alloc,
        }
    }
}

impl NumberNode for Sequence {
    ghost use Rattle.std.specs.Prelude.{◌≡◌};
    ghost use Rattle.cbl_violations.specs.Violations.Sequence.{sequence, size_of};
    ghost use Rattle.diff_load_seq.specs.Levels.{IsKept};
    ghost use Rattle.diff_load_seq.specs.Windows.{windows_of};

    ghost number_rule = { λ s. sequence s.values s.most s.window };

    ghost settled = { λ s. (s.windows.each.items ≡
        windows_of s.values s.most (size_of s.window) s.numbers.items) × IsKept s.windows };

    ghost held_numbers = { λ s. s.numbers.items };

    fn reset(&mut self, numbers: &[i64]) -> Result<(), NoMemory> {
        self.numbers.clear();
        self.numbers.extend_from_slice(numbers)?;
        self.windows = counted_windows(
            self.alloc,
            numbers,
            &self.values,
            self.most,
            size_of(self.window),
        )?;
        Ok(())
    }

    fn set(&mut self, change: NumberChange) -> Result<(), NoMemory> {
        move_number(
            &mut self.windows,
            &self.values,
            size_of(self.window),
            change,
        );
        self.numbers[change.place] = change.new;
        Ok(())
    }

    fn probe(&self, changes: &[NumberChange]) -> Result<i64, NodeFault> {
        let size = size_of(self.window);
        let mut over = LevelsOver::new(self.alloc, &self.windows);
        for change in changes {
            move_number_over(&mut over, &self.windows, &self.values, size, *change)?;
        }
        answer(over.total(&self.windows))
    }

    fn value(&self) -> Result<i64, RunFault> {
        self.windows.total()
    }

    fn place_violation(&self, place: usize) -> i64 {
        if !self.values.contains(self.numbers[place]) {
            return 0;
        }
        let holding = windows_holding(size_of(self.window), place, self.windows.each.len());
        self.windows
            .excess_between(holding.first, holding.last)
            .unwrap_or(0)
    }
}
