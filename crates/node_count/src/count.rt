//! How many cells of an array equal a number.
ghost use Rattle.std.specs.Prelude.{◌≡◌, ◌+◌, ◌<◌, ◌^◌};
ghost use Rattle.cbl_operations.specs.Operations.Count.{count};
ghost use Rattle.node_count.specs.Standing.{one_where};

use crate::after::number_after;
use cbl_base::{NoMemory, NodeFault, RunFault};
use node_base::{NumberChange, NumberNode, Tally};
use std::alloc::Global;

/// The node of `Count`: it takes cells, and then the number that is counted.
#[derive(Drop)]
pub struct Count {
    cells: Tally,
    counted: i64,
    alloc: Global,
}

impl Count {
    /// The node of `Count`: how many of the cells equal the number.
    pub fn new(alloc: Global) -> Count
        ensures { ⟦<Count as NumberNode>⟧.number_rule result ≡ count }
    {
        Count {
            cells: Tally::new(alloc),
            counted: 0,
            alloc,
        }
    }
}

impl NumberNode for Count {
    ghost use Rattle.std.specs.Prelude.{[], ◌∷◌, ◌++◌, ◌<◌, ◌^◌, length};
    ghost use Rattle.cbl_operations.specs.Operations.Count.{count};

    ghost number_rule = { λ _. count };

    ghost settled = { λ s. length s.cells < 2 ^ 63 };

    ghost held_numbers = { λ s. s.cells ++ s.counted ∷ [] };

    fn reset(&mut self, numbers: &[i64]) -> Result<(), NoMemory> {
        let cells = numbers.len() - 1;
        self.cells = Tally::of(self.alloc, &numbers[..cells])?;
        self.counted = numbers[cells];
        Ok(())
    }

    fn set(&mut self, change: NumberChange) -> Result<(), NoMemory> {
        if change.place < self.cells.len() {
            self.cells.set(change)?;
        } else {
            self.counted = change.new;
        }
        Ok(())
    }

    fn probe(&self, changes: &[NumberChange]) -> Result<i64, NodeFault> {
        let cells = self.cells.len();
        let counted = number_after(self.counted, cells, changes);
        let mut times = self.cells.times(counted);
        for change in changes {
            if change.place < cells {
                times = times_after(times, counted, *change);
            }
        }
        Ok(times as i64)
    }

    fn value(&self) -> Result<i64, RunFault> {
        Ok(self.cells.times(self.counted) as i64)
    }

    fn place_violation(&self, _place: usize) -> i64 {
        0
    }
}

/// How often a number stands among the cells after a change of one of them, where it stood there that
/// often before.
fn times_after(times: usize, counted: i64, change: NumberChange) -> usize
    requires stood { change.old ≡ counted → 0 < times }
    requires few { times + 1 < 2 ^ 64 }
    ensures { result + one_where counted change.old ≡ times + one_where counted change.new }
{
    match (change.old == counted, change.new == counted) {
        (true, false) => times - 1,
        (false, true) => times + 1,
        (true, true) => times,
        (false, false) => times,
    }
}
