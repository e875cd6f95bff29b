//! All of some constraints.
ghost use Rattle.std.specs.Prelude.{◌≡◌};
ghost use Rattle.cbl_violations.specs.Violations.AllOf.{all_of};

use cbl_base::{NoMemory, NodeFault, RunFault};
use node_base::{NumberChange, NumberNode};
use node_num::Sum;
use std::alloc::Global;

/// The node of `AllOf`: it takes the violations of its members.
#[derive(Drop)]
pub struct AllOf {
    sum: Sum,
}

impl AllOf {
    /// The node of `AllOf`: the sum of the members' violations.
    pub fn new(alloc: Global) -> AllOf
        ensures { ⟦<AllOf as NumberNode>⟧.number_rule result ≡ all_of }
    {
        AllOf {
            sum: Sum::new(alloc),
        }
    }
}

impl NumberNode for AllOf {
    ghost use Rattle.cbl_violations.specs.Violations.AllOf.{all_of};

    ghost number_rule = { λ _. all_of };

    ghost settled = { λ s. ⟦<Sum as NumberNode>⟧.settled s.sum };

    ghost held_numbers = { λ s. ⟦<Sum as NumberNode>⟧.held_numbers s.sum };

    fn reset(&mut self, numbers: &[i64]) -> Result<(), NoMemory> {
        self.sum.reset(numbers)
    }

    fn set(&mut self, change: NumberChange) -> Result<(), NoMemory> {
        self.sum.set(change)
    }

    fn probe(&self, changes: &[NumberChange]) -> Result<i64, NodeFault> {
        self.sum.probe(changes)
    }

    fn value(&self) -> Result<i64, RunFault> {
        self.sum.value()
    }

    fn place_violation(&self, _place: usize) -> i64 {
        0
    }
}
