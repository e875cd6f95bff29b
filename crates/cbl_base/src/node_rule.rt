//! The law of a node: what each type of nodes promises.
ghost use Rattle.std.specs.Prelude.{◌≡◌, ℕ, ◌<◌, List, length, IsTrue, IsOk, OnOk, MatchResult};
ghost use Rattle.cbl_base.specs.declared.input.Input.{Input};
ghost use Rattle.cbl_base.specs.Inputs.{kinds_of};
ghost use Rattle.cbl_base.specs.Changes.{AreChanges, after_changes};
ghost use Rattle.cbl_base.specs.NodeLaw.{Rule, IsAnswer, GivesOneKind};

use crate::faults::{NoMemory, NodeFault, RunFault};
use crate::input::{Change, Input, NodeValue};

/// A node: it holds a list of inputs, and answers with its rule's value of them.
pub trait NodeRule: Drop {
    /// What it computes: which inputs it takes, their value, and the violation at a place. No call changes it.
    ghost rule: { Self → Rule };

    /// It was reset, and found memory ever since.
    ghost ready: { Self → Type 0 };

    /// The inputs that it holds.
    ghost held: { Self → List Input };

    /// Takes these inputs in place of all that it holds. After `NoMemory` the node is used no more.
    fn reset(&mut self, inputs: &[Input]) -> Result<(), NoMemory>
        requires { IsTrue ((rule self.old).takes (kinds_of inputs.now)) }
        ensures ready { OnOk result (ready self.new) }
        ensures held { OnOk result (held self.new ≡ inputs.now) }
        ensures rule { rule self.new ≡ rule self.old };

    /// Makes these changes in the inputs that it holds. After `NoMemory` the node is used no more.
    fn apply(&mut self, changes: &[Change]) -> Result<(), NoMemory>
        requires ready { ready self.old }
        requires changes { AreChanges (held self.old) changes.now }
        ensures ready { OnOk result (ready self.new) }
        ensures held { OnOk result (held self.new ≡ after_changes (held self.old) changes.now) }
        ensures rule { rule self.new ≡ rule self.old };

    /// The value of the inputs as these changes would make them. `Run` with the rule's fault where
    /// they have no value, `NoMemory` where there is none. It changes nothing.
    fn probe(&self, changes: &[Change]) -> Result<NodeValue, NodeFault>
        requires ready { ready self.now }
        requires changes { AreChanges (held self.now) changes.now }
        ensures { IsAnswer ((rule self.now).value
            (after_changes (held self.now) changes.now)) result };

    /// The value of the inputs that it holds, or the rule's fault where they have none.
    fn value(&self) -> Result<&NodeValue, RunFault>
        requires { ready self.now }
        ensures { let value = (rule self.now).value (held self.now) in
            MatchResult result (λ v. value ≡ Ok v.now) (λ fault. value ≡ Err fault) };

    /// The violation at a place, which counts from 0, of the inputs that it holds. They have a value.
    fn place_violation(&self, place: u32) -> i64
        requires ready { ready self.now }
        requires within { place < length (held self.now) }
        requires valued { IsOk ((rule self.now).value (held self.now)) }
        ensures { result ≡ (rule self.now).violation_at (held self.now) place };

    /// Over inputs of the same kinds its values are of one kind.
    ghost one_kind: { (s : Self) → GivesOneKind (rule s) };
}
