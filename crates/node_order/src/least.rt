//! The least of two or many numbers.
ghost use Rattle.std.specs.Prelude.{◌≡◌};
ghost use Rattle.cbl_operations.specs.Operations.Least.{least};

use crate::lowest::Lowest;
use cbl_base::{NoMemory, NodeFault, RunFault};
use node_base::{NumberChange, NumberNode};
use std::alloc::Global;

/// The node of `Least`: it takes one number at least.
#[derive(Drop)]
pub struct Least {
    lowest: Lowest,
}

impl Least {
    /// The node of `Least`: the least of the numbers.
    pub fn new(alloc: Global) -> Least
        ensures { ⟦<Least as NumberNode>⟧.number_rule result ≡ least }
    {
        Least {
            lowest: Lowest::new(alloc),
        }
    }
}

impl NumberNode for Least {
    ghost use Rattle.cbl_operations.specs.Operations.Least.{least};

    ghost number_rule = { λ _. least };

    ghost settled = { λ s. ⟦<Lowest as NumberNode>⟧.settled s.lowest };

    ghost held_numbers = { λ s. ⟦<Lowest as NumberNode>⟧.held_numbers s.lowest };

    fn reset(&mut self, numbers: &[i64]) -> Result<(), NoMemory> {
        self.lowest.reset(numbers)
    }

    fn set(&mut self, change: NumberChange) -> Result<(), NoMemory> {
        self.lowest.set(change)
    }

    fn probe(&self, changes: &[NumberChange]) -> Result<i64, NodeFault> {
        self.lowest.probe(changes)
    }

    fn value(&self) -> Result<i64, RunFault> {
        self.lowest.value()
    }

    fn place_violation(&self, _place: usize) -> i64 {
        0
    }
}
