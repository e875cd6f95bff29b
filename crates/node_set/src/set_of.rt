//! The set of the keys whose number is 1.
ghost use Rattle.std.specs.Prelude.{◌≡◌, ◌<◌, IfOk, OnOk, length, slice_set};
ghost use Rattle.cbl_base.specs.Inputs.{numbers_of};
ghost use Rattle.cbl_operations.specs.Operations.SetOf.{set_of_ones};
ghost use Rattle.cbl_operations.specs.SetForms.{keys_where};
ghost use Rattle.cbl_operations.specs.Truth.{is_one};
ghost use Rattle.node_set.specs.Bags.{IsBagOf};

use crate::key_bag::KeyBag;
use cbl_base::{Change, Input, NoMemory, NodeFault, NodeRule, NodeValue, Numbers, RunFault};
use std::alloc::Global;

/// The node of `SetOf`: it has keys and takes a number for each.
#[derive(Drop)]
pub struct SetOf {
    keys: Numbers,
    numbers: Vec<i64>,
    ones: KeyBag,
    alloc: Global,
}

impl SetOf {
    /// The node of `SetOf` with these keys: the set of the keys whose number is 1.
    pub fn new(alloc: Global, keys: Numbers) -> SetOf
        ensures { ⟦<SetOf as NodeRule>⟧.rule result ≡ set_of_ones keys }
    {
        SetOf {
            keys,
            numbers: Vec::new(alloc),
            ones: KeyBag::new(alloc),
            alloc,
        }
    }
}

impl NodeRule for SetOf {
    ghost use Rattle.std.specs.Prelude.{◌≡◌, length};
    ghost use Rattle.cbl_base.specs.Inputs.{as_inputs};
    ghost use Rattle.cbl_base.specs.Sets.{set_of};
    ghost use Rattle.cbl_operations.specs.Operations.SetOf.{set_of_ones};
    ghost use Rattle.cbl_operations.specs.SetForms.{keys_where, one_kind_of_keys};
    ghost use Rattle.cbl_operations.specs.Truth.{is_one};
    ghost use Rattle.node_set.specs.Bags.{IsBagOf};

    ghost rule = { λ s. set_of_ones s.keys };

    ghost ready = { λ s. IsBagOf s.ones (keys_where is_one s.keys s.numbers.items) ×
        (length s.numbers.items ≡ length s.keys) };

    ghost held = { λ s. as_inputs s.numbers.items };

    ghost one_kind = { λ s. one_kind_of_keys s.keys (λ xs. set_of (keys_where is_one s.keys xs)) };

    fn reset(&mut self, inputs: &[Input]) -> Result<(), NoMemory> {
        self.numbers = numbers_in(self.alloc, inputs)?;
        self.ones = bag_of(self.alloc, self.keys.as_slice(), &self.numbers)?;
        Ok(())
    }

    fn apply(&mut self, changes: &[Change]) -> Result<(), NoMemory> {
        for change in changes {
            match change {
                Change::Int { place, old, new } => {
                    let key = self.keys.as_slice()[*place as usize];
                    self.ones.change(key, is_one(*old), is_one(*new))?;
                    self.numbers[*place as usize] = *new;
                }
                Change::Set { .. } => unreachable!(),
            }
        }
        Ok(())
    }

    fn probe(&self, changes: &[Change]) -> Result<NodeValue, NodeFault> {
        let mut ones = self.ones.copied()?;
        for change in changes {
            match change {
                Change::Int { place, old, new } => {
                    let key = self.keys.as_slice()[*place as usize];
                    ones.change(key, is_one(*old), is_one(*new))?;
                }
                Change::Set { .. } => unreachable!(),
            }
        }
        Ok(ones.into_kept())
    }

    fn value(&self) -> Result<&NodeValue, RunFault> {
        Ok(self.ones.kept())
    }

    fn place_violation(&self, _place: u32) -> i64 {
        0
    }
}

/// The numbers that the inputs are; of a set, 0.
fn numbers_in(alloc: Global, inputs: &[Input]) -> Result<Vec<i64>, NoMemory>
    ensures { IfOk result (λ numbers. numbers.items ≡ numbers_of inputs.now) }
{
    let mut numbers = Vec::new(alloc);
    for input in inputs {
        match input {
            Input::Int(number) => numbers.push(*number)?,
            Input::Set(_) => numbers.push(0)?,
        }
    }
    Ok(numbers)
}

/// The keys whose number is 1.
fn bag_of(alloc: Global, keys: &[i64], numbers: &[i64]) -> Result<KeyBag, NoMemory>
    requires { length numbers.now ≡ length keys.now }
    ensures { IfOk result (λ bag. IsBagOf bag (keys_where is_one keys.now numbers.now)) }
{
    let mut bag = KeyBag::new(alloc);
    for i in 0..keys.len() {
        bag.change(keys[i], false, is_one(numbers[i]))?;
    }
    Ok(bag)
}

/// Whether a number is 1.
fn is_one(number: i64) -> bool
    ensures { result ≡ is_one number }
{
    number == 1
}
