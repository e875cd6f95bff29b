//! `And` and `Or` of any number of truths.
ghost use Rattle.std.specs.Prelude.{◌≡◌, ℤ, ◌+◌, ◌≤◌, ◌<◌, ◌^◌, List, length, Ok};
ghost use Rattle.cbl_operations.specs.Truth.{truth};
ghost use Rattle.node_num.specs.JunctionRules.{rule_of_junction};
ghost use Rattle.node_num.specs.Truths.{one_if_true, truths_in};

use cbl_base::{NoMemory, NodeFault, RunFault};
use node_base::{NumberChange, NumberNode};
use std::alloc::Global;

/// Whether all of the numbers are to be true, or some of them.
#[derive(Clone, Copy, PartialEq, Eq, Debug)]
pub enum JunctionKind {
    And,
    Or,
}

/// A node that computes the one or the other. It keeps how many of its numbers are true: aren't 0.
#[derive(Drop)]
pub struct Junction {
    kind: JunctionKind,
    numbers: Vec<i64>,
    truths: usize,
}

impl Junction {
    /// A node with the rule of `And` or of `Or`.
    pub fn new(alloc: Global, kind: JunctionKind) -> Junction
        ensures rule { ⟦<Junction as NumberNode>⟧.number_rule result ≡ rule_of_junction kind }
    {
        Junction {
            kind,
            numbers: Vec::new(alloc),
            truths: 0,
        }
    }

    /// The value of as many numbers as it holds, so many of which are true.
    fn value_with(&self, truths: usize) -> i64
        ensures { (xs : List ℤ) → length xs ≡ length self.now.numbers.items →
            truths ≡ truths_in xs → Ok result ≡ (rule_of_junction self.now.kind).value xs }
    {
        match self.kind {
            JunctionKind::And => truth_value(truths == self.numbers.len()),
            JunctionKind::Or => truth_value(truths > 0),
        }
    }
}

impl NumberNode for Junction {
    ghost use Rattle.std.specs.Prelude.{◌≡◌};
    ghost use Rattle.node_num.specs.JunctionRules.{rule_of_junction};
    ghost use Rattle.node_num.specs.Truths.{truths_in};

    ghost number_rule = { λ s. rule_of_junction s.kind };

    ghost settled = { λ s. s.truths ≡ truths_in s.numbers.items };

    ghost held_numbers = { λ s. s.numbers.items };

    fn reset(&mut self, numbers: &[i64]) -> Result<(), NoMemory> {
        self.numbers.clear();
        self.numbers.extend_from_slice(numbers)?;
        self.truths = numbers.iter().filter(|x| **x != 0).count();
        Ok(())
    }

    fn set(&mut self, change: NumberChange) -> Result<(), NoMemory> {
        self.truths = truths_after(self.truths, change);
        self.numbers[change.place] = change.new;
        Ok(())
    }

    fn probe(&self, changes: &[NumberChange]) -> Result<i64, NodeFault> {
        let mut truths = self.truths;
        for change in changes {
            truths = truths_after(truths, *change);
        }
        Ok(self.value_with(truths))
    }

    fn value(&self) -> Result<i64, RunFault> {
        Ok(self.value_with(self.truths))
    }

    fn place_violation(&self, _place: usize) -> i64 {
        0
    }
}

/// A truth as a number.
fn truth_value(holds: bool) -> i64
    ensures { result ≡ truth holds }
{
    i64::from(holds)
}

/// How many numbers are true after a change, where so many were before.
fn truths_after(truths: usize, change: NumberChange) -> usize
    requires old { one_if_true change.old ≤ truths }
    requires room { truths < 2 ^ 63 }
    ensures { result + one_if_true change.old ≡ truths + one_if_true change.new }
{
    match (change.old != 0, change.new != 0) {
        (true, false) => truths - 1,
        (false, true) => truths + 1,
        _ => truths,
    }
}
