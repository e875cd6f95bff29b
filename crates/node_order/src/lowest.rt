//! The least of any list of numbers.
ghost use Rattle.std.specs.Prelude.{◌≡◌};
ghost use Rattle.node_order.specs.Lowering.{lower, lowest_with, lowest};

use crate::counts::{first_left, first_left_by_few};
use cbl_base::{NoMemory, NodeFault, RunFault};
use node_base::{NumberChange, NumberNode, OrderedCounts};
use std::alloc::Global;

/// A node that takes any list of numbers: the least of them, 0 for none.
#[derive(Drop)]
pub struct Lowest {
    numbers: Vec<i64>,
    counts: OrderedCounts,
    alloc: Global,
}

impl Lowest {
    /// The node of the least of any list, 0 for none.
    pub fn new(alloc: Global) -> Lowest
        ensures { ⟦<Lowest as NumberNode>⟧.number_rule result ≡ lowest }
    {
        Lowest {
            numbers: Vec::new(alloc),
            counts: OrderedCounts::new(alloc),
            alloc,
        }
    }
}

impl NumberNode for Lowest {
    ghost use Rattle.node_order.specs.Lowering.{lowest};
    ghost use Rattle.node_order.specs.OrderedCounts.{AreCountsOf};

    ghost number_rule = { λ _. lowest };

    ghost settled = { λ s. AreCountsOf s.counts s.numbers.items };

    ghost held_numbers = { λ s. s.numbers.items };

    fn reset(&mut self, numbers: &[i64]) -> Result<(), NoMemory> {
        self.numbers.clear();
        self.numbers.extend_from_slice(numbers)?;
        self.counts = OrderedCounts::of(self.alloc, numbers)?;
        Ok(())
    }

    fn set(&mut self, change: NumberChange) -> Result<(), NoMemory> {
        self.counts.add(change.new)?;
        self.counts.take(change.old);
        self.numbers[change.place] = change.new;
        Ok(())
    }

    fn probe(&self, changes: &[NumberChange]) -> Result<i64, NodeFault> {
        let left = first_left(self.alloc, &self.counts, changes)?;
        let least = lowest_with(left, changes);
        Ok(least.unwrap_or(0))
    }

    fn value(&self) -> Result<i64, RunFault> {
        let none: [NumberChange; 0] = [];
        Ok(first_left_by_few(&self.counts, &none).unwrap_or(0))
    }

    fn place_violation(&self, _place: usize) -> i64 {
        0
    }
}

/// The lowest of a number, where there is one, and the new numbers of changes.
fn lowest_with(found: Option<i64>, changes: &[NumberChange]) -> Option<i64>
    ensures { result ≡ lowest_with found changes.now }
{
    let mut lowest = found;
    for change in changes {
        lowest = lower(lowest, *change);
    }
    lowest
}

/// The lower of a number, where there is one, and the new number of a change.
fn lower(found: Option<i64>, change: NumberChange) -> Option<i64>
    ensures { result ≡ lower found change }
{
    match found {
        None => Some(change.new),
        Some(number) => Some(number.min(change.new)),
    }
}
