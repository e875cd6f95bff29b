//! The law of a node whose inputs and value are numbers.
ghost use Rattle.std.specs.Prelude.{◌≡◌, ℤ, ◌<◌, List, length, IsTrue, IsOk, OnOk};
ghost use Rattle.cbl_base.specs.NumberRule.{NumberRule};
ghost use Rattle.node_base.specs.NumberChanges.{IsNumberChange, AreNumberChanges, after_number_change, after_number_changes, IsNumberAnswer, answer_of};

use crate::number_change::NumberChange;
use cbl_base::{NoMemory, NodeFault, RunFault};

/// A node over numbers alone: it holds a list of numbers, and answers with its rule's value of them.
/// `OverNumbers` makes a node of it.
pub trait NumberNode: Drop {
    /// What it computes: how many numbers it takes, their value, and the violation at a place. No call changes it.
    ghost number_rule: { Self → NumberRule };

    /// It was reset, and found memory ever since.
    ghost settled: { Self → Type 0 };

    /// The numbers that it holds.
    ghost held_numbers: { Self → List ℤ };

    /// Takes these numbers in place of all that it holds. After `NoMemory` the node is used no more.
    fn reset(&mut self, numbers: &[i64]) -> Result<(), NoMemory>
        requires { IsTrue ((number_rule self.old).takes (length numbers.now)) }
        ensures settled { OnOk result (settled self.new) }
        ensures numbers { OnOk result (held_numbers self.new ≡ numbers.now) }
        ensures rule { number_rule self.new ≡ number_rule self.old };

    /// Makes a change in the numbers that it holds. After `NoMemory` the node is used no more.
    fn set(&mut self, change: NumberChange) -> Result<(), NoMemory>
        requires settled { settled self.old }
        requires change { IsNumberChange (held_numbers self.old) change }
        ensures settled { OnOk result (settled self.new) }
        ensures numbers { OnOk result (held_numbers self.new ≡
            after_number_change (held_numbers self.old) change) }
        ensures rule { number_rule self.new ≡ number_rule self.old };

    /// The value of the numbers as these changes would make them. `Run` with the rule's fault where
    /// they have no value, `NoMemory` where there is none. It changes nothing.
    fn probe(&self, changes: &[NumberChange]) -> Result<i64, NodeFault>
        requires settled { settled self.now }
        requires changes { AreNumberChanges (held_numbers self.now) changes.now }
        ensures { IsNumberAnswer ((number_rule self.now).value
            (after_number_changes (held_numbers self.now) changes.now)) result };

    /// The value of the numbers that it holds, or the rule's fault where they have none.
    fn value(&self) -> Result<i64, RunFault>
        requires { settled self.now }
        ensures { result ≡ (number_rule self.now).value (held_numbers self.now) };

    /// The violation at a place, which counts from 0, of the numbers that it holds. They have a value.
    fn place_violation(&self, place: usize) -> i64
        requires settled { settled self.now }
        requires within { place < length (held_numbers self.now) }
        requires valued { IsOk ((number_rule self.now).value (held_numbers self.now)) }
        ensures { result ≡ (number_rule self.now).violation_at (held_numbers self.now) place };
}

/// A value, or its fault, as the answer of a probe.
pub fn probe_answer(value: Result<i64, RunFault>) -> Result<i64, NodeFault>
    ensures { result ≡ answer_of value }
{
    match value {
        Ok(number) => Ok(number),
        Err(fault) => Err(NodeFault::Run(fault)),
    }
}
