//! The values of all cells and nodes.
ghost use Rattle.std.specs.Prelude.{◌≡◌, ◌+◌, ◌<◌, length, slice_set};
ghost use Rattle.store_build.specs.Frames.{cell_of};

use cbl_base::{NodeValue, Steps};
use std::marker::Model;
use std::mem;
use std::sync::ledger::Ledger;

/// The value of each id, and seen as that list. Each read and each write is a step.
#[derive(Drop, Debug)]
pub struct Cells {
    values: Vec<NodeValue>,
}

impl Model for Cells {
    ghost use Rattle.std.specs.Prelude.{List};
    ghost use Rattle.cbl_base.specs.declared.input.Input.{Input};

    ghost Value = { List Input };

    ghost view = { λ c. c.values.items };
}

impl Cells {
    /// These values, by id.
    pub(crate) fn new(values: Vec<NodeValue>) -> Cells
        ensures { result ≡ values.items }
    {
        Cells { values }
    }

    /// The value of an id. One step.
    pub(crate) fn read<L: Ledger>(&self, id: u32, steps: &mut Steps<L>) -> &NodeValue
        requires { id < length self.now }
        ensures value { result.now ≡ cell_of self.now id }
        ensures steps { steps.new ≡ steps.old + 1 }
    {
        steps.tick();
        &self.values[id as usize]
    }

    /// The id has this value from now on. It gives the old one. One step.
    pub(crate) fn write<L: Ledger>(
        &mut self,
        id: u32,
        value: NodeValue,
        steps: &mut Steps<L>,
    ) -> NodeValue
        requires { id < length self.old }
        ensures old { result ≡ cell_of self.old id }
        ensures new { self.new ≡ slice_set self.old id value }
        ensures steps { steps.new ≡ steps.old + 1 }
    {
        steps.tick();
        mem::replace(&mut self.values[id as usize], value)
    }
}
