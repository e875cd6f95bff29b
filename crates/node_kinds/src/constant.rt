//! The value of a node without inputs.
ghost use Rattle.std.specs.Prelude.{◌≡◌, [], Ok, IsTrue, OnOk};
ghost use Rattle.cbl_base.specs.Changes.{AreChanges, after_changes};
ghost use Rattle.cbl_base.specs.Inputs.{kinds_of};
ghost use Rattle.cbl_base.specs.NodeLaw.{IsAnswer};
ghost use Rattle.node_kinds.specs.ConstantRule.{rule_of_constant};

use cbl_base::{Change, Input, NoMemory, NodeFault, NodeValue};

/// What a node without inputs keeps: the value that it always has.
#[derive(Drop)]
pub struct Constant {
    value: NodeValue,
}

impl Constant {
    /// The constant with this value.
    pub(crate) fn new(value: NodeValue) -> Constant
        ensures { result.value ≡ value }
    {
        Constant { value }
    }

    /// Takes the inputs, of which there are none.
    pub(crate) fn reset(&self, _inputs: &[Input]) -> Result<(), NoMemory>
        requires { IsTrue ((rule_of_constant self.now.value).takes (kinds_of _inputs.now)) }
        ensures held { OnOk result ([] ≡ _inputs.now) }
    {
        Ok(())
    }

    /// Makes the changes, of which there are none.
    pub(crate) fn apply(&self, _changes: &[Change]) -> Result<(), NoMemory>
        requires changes { AreChanges [] _changes.now }
        ensures held { OnOk result ([] ≡ after_changes [] _changes.now) }
    {
        Ok(())
    }

    /// A copy of the value.
    pub(crate) fn probe(&self) -> Result<NodeValue, NodeFault>
        ensures { IsAnswer (Ok self.now.value) result }
    {
        self.value.clone().map_err(|_| NodeFault::NoMemory)
    }

    /// The value.
    pub(crate) fn value(&self) -> &NodeValue
        ensures { result.now ≡ self.now.value }
    {
        &self.value
    }
}
