//! The keys at which the least, or the greatest, of some numbers stands.
ghost use Rattle.std.specs.Prelude.{◌≡◌, map, IfOk};
ghost use Rattle.cbl_base.specs.Inputs.{numbers_of};
ghost use Rattle.cbl_operations.specs.Operations.ArgMax.{arg_max};
ghost use Rattle.cbl_operations.specs.Operations.ArgMin.{arg_min};
ghost use Rattle.node_base.specs.NumberChanges.{number_changes_of};
ghost use Rattle.node_order.specs.Extremes.{turned, turned_change};

use crate::greatest::mirrored;
use crate::least_keys::LeastKeys;
use crate::lowest::Lowest;
use cbl_base::{Change, Input, NoMemory, NodeFault, NodeRule, NodeValue, Numbers, RunFault};
use node_base::{NumberChange, NumberNode};
use std::alloc::Global;

/// Which of some numbers are looked for.
#[derive(Clone, Copy, PartialEq, Eq, Debug)]
enum Extreme {
    Least,
    Greatest,
}

impl Extreme {
    /// The number as it is kept: mirrored where the greatest is looked for.
    fn turned(self, number: i64) -> i64
        ensures { result ≡ turned self number }
    {
        match self {
            Extreme::Least => number,
            Extreme::Greatest => mirrored(number),
        }
    }

    /// The change as it is kept.
    fn turned_change(self, change: NumberChange) -> NumberChange
        ensures { result ≡ turned_change self change }
    {
        NumberChange {
            place: change.place,
            old: self.turned(change.old),
            new: self.turned(change.new),
        }
    }

    /// The numbers that the inputs are, as they are kept; of a set, 0.
    fn turned_numbers(self, alloc: Global, inputs: &[Input]) -> Result<Vec<i64>, NoMemory>
        ensures { IfOk result (λ made. made.items ≡ map (turned self) (numbers_of inputs.now)) }
    {
        let mut made = Vec::with_capacity(alloc, inputs.len())?;
        for input in inputs {
            match input {
                Input::Int(number) => made.push(self.turned(*number))?,
                Input::Set(_) => made.push(self.turned(0))?,
            }
        }
        Ok(made)
    }

    /// Those of the changes that are of numbers, as they are kept.
    fn turned_changes(
        self,
        alloc: Global,
        changes: &[Change],
    ) -> Result<Vec<NumberChange>, NoMemory>
        ensures { IfOk result (λ made. made.items ≡
            map (turned_change self) (number_changes_of changes.now)) }
    {
        let mut made = Vec::with_capacity(alloc, changes.len())?;
        for change in changes {
            match change {
                Change::Int { place, old, new } => made.push(self.turned_change(NumberChange {
                    place: *place as usize,
                    old: *old,
                    new: *new,
                }))?,
                Change::Set { .. } => {}
            }
        }
        Ok(made)
    }
}

/// The node of `ArgMin` or of `ArgMax`: it has keys and takes a number for each. It keeps the keys of the
/// least of the numbers, which are mirrored where the greatest is looked for.
#[derive(Drop)]
pub struct ArgExtreme {
    extreme: Extreme,
    least: LeastKeys,
    kept: Input,
    alloc: Global,
}

impl ArgExtreme {
    /// The node of `ArgMin` with these keys: the set of the keys at which the least number stands.
    pub fn least(alloc: Global, keys: Numbers) -> ArgExtreme
        ensures { ⟦<ArgExtreme as NodeRule>⟧.rule result ≡ arg_min keys }
    {
        ArgExtreme {
            extreme: Extreme::Least,
            least: LeastKeys::new(alloc, keys),
            kept: Input::Int(0),
            alloc,
        }
    }

    /// The node of `ArgMax` with these keys: the set of the keys at which the greatest number stands.
    pub fn greatest(alloc: Global, keys: Numbers) -> ArgExtreme
        ensures { ⟦<ArgExtreme as NodeRule>⟧.rule result ≡ arg_max keys }
    {
        ArgExtreme {
            extreme: Extreme::Greatest,
            least: LeastKeys::new(alloc, keys),
            kept: Input::Int(0),
            alloc,
        }
    }
}

impl NodeRule for ArgExtreme {
    ghost use Rattle.std.specs.Prelude.{◌≡◌, length, map};
    ghost use Rattle.cbl_base.specs.Inputs.{as_inputs};
    ghost use Rattle.cbl_base.specs.declared.input.Input.TheVariants.{Set};
    ghost use Rattle.cbl_operations.specs.SetForms.{rule_of_keys, one_kind_of_keys};
    ghost use Rattle.node_order.specs.Extremes.{extreme_keys, least_keys, turned};
    ghost use Rattle.node_order.specs.PlaceIndex.{IsIndexOf};

    ghost rule = { λ s. rule_of_keys s.least.keys (extreme_keys s.extreme s.least.keys) };

    ghost ready = { λ s.
        ⟦<Lowest as NumberNode>⟧.settled s.least.lowest
        × IsIndexOf s.least.index (⟦<Lowest as NumberNode>⟧.held_numbers s.least.lowest)
        × (length (⟦<Lowest as NumberNode>⟧.held_numbers s.least.lowest) ≡ length s.least.keys)
        × (s.kept ≡ Set (least_keys s.least.keys (⟦<Lowest as NumberNode>⟧.held_numbers s.least.lowest))) };

    ghost held = { λ s. as_inputs (map (turned s.extreme)
        (⟦<Lowest as NumberNode>⟧.held_numbers s.least.lowest)) };

    ghost one_kind = { λ s. one_kind_of_keys s.least.keys (extreme_keys s.extreme s.least.keys) };

    fn reset(&mut self, inputs: &[Input]) -> Result<(), NoMemory> {
        let numbers = self.extreme.turned_numbers(self.alloc, inputs)?;
        self.least.reset(&numbers)?;
        let none: [NumberChange; 0] = [];
        self.kept = Input::Set(self.least.found(&none)?);
        Ok(())
    }

    fn apply(&mut self, changes: &[Change]) -> Result<(), NoMemory> {
        let changes = self.extreme.turned_changes(self.alloc, changes)?;
        for change in &changes {
            self.least.set(*change)?;
        }
        let none: [NumberChange; 0] = [];
        self.kept = Input::Set(self.least.found(&none)?);
        Ok(())
    }

    fn probe(&self, changes: &[Change]) -> Result<NodeValue, NodeFault> {
        let changes = self.extreme.turned_changes(self.alloc, changes)?;
        let keys = self.least.found(&changes)?;
        Ok(Input::Set(keys))
    }

    fn value(&self) -> Result<&NodeValue, RunFault> {
        Ok(&self.kept)
    }

    fn place_violation(&self, _place: u32) -> i64 {
        0
    }
}
