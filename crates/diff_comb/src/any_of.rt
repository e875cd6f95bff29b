//! One of some constraints.
ghost use Rattle.std.specs.Prelude.{◌≡◌};
ghost use Rattle.cbl_violations.specs.Violations.AnyOf.{any_of};

use cbl_base::{NoMemory, NodeFault, RunFault};
use node_base::{NumberChange, NumberNode};
use node_order::Lowest;
use std::alloc::Global;

/// The node of `AnyOf`: it takes the violations of its members.
#[derive(Drop)]
pub struct AnyOf {
    lowest: Lowest,
}

impl AnyOf {
    /// The node of `AnyOf`: the least of the members' violations, 0 where there is no member.
    pub fn new(alloc: Global) -> AnyOf
        ensures { ⟦<AnyOf as NumberNode>⟧.number_rule result ≡ any_of }
    {
        AnyOf {
            lowest: Lowest::new(alloc),
        }
    }
}

impl NumberNode for AnyOf {
    ghost use Rattle.cbl_violations.specs.Violations.AnyOf.{any_of};

    ghost number_rule = { λ _. any_of };

    ghost settled = { λ s. ⟦<Lowest as NumberNode>⟧.settled s.lowest };

    ghost held_numbers = { λ s. ⟦<Lowest as NumberNode>⟧.held_numbers s.lowest };

    fn reset(&mut self, numbers: &[i64]) -> Result<(), NoMemory> {
        self.lowest.reset(numbers)
    }

    fn set(&mut self, change: NumberChange) -> Result<(), NoMemory> {
        self.lowest.set(change)
    }

    fn probe(&self, changes: &[NumberChange]) -> Result<i64, NodeFault> {
        self.lowest.probe(changes)
    }

    fn value(&self) -> Result<i64, RunFault> {
        self.lowest.value()
    }

    fn place_violation(&self, _place: usize) -> i64 {
        0
    }
}
