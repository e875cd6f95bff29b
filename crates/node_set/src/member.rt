//! Whether a number is a member of a set.
ghost use Rattle.std.specs.Prelude.{◌≡◌};
ghost use Rattle.cbl_base.specs.Inputs.{number_of};
ghost use Rattle.cbl_base.specs.declared.input.Input.TheVariants.{Int};
ghost use Rattle.cbl_operations.specs.Operations.Member.{member};
ghost use Rattle.cbl_operations.specs.Truth.{truth};
ghost use Rattle.node_set.specs.Edits.{number_after, is_in_after};

use crate::editing::{edit, set_in};
use cbl_base::{Change, Input, IntSet, NoMemory, NodeFault, NodeRule, NodeValue, RunFault};
use std::alloc::Global;

/// The node of `Member`: it takes a number and a set.
#[derive(Drop)]
pub struct Member {
    number: i64,
    set: IntSet,
    kept: Input,
    alloc: Global,
}

impl Member {
    /// The node of `Member`: 1 where the number is a member of the set, 0 else.
    pub fn new(alloc: Global) -> Member
        ensures { ⟦<Member as NodeRule>⟧.rule result ≡ member }
    {
        Member {
            number: 0,
            set: IntSet::new(alloc),
            kept: Input::Int(0),
            alloc,
        }
    }
}

impl NodeRule for Member {
    ghost use Rattle.std.specs.Prelude.{◌≡◌, [], ◌∷◌};
    ghost use Rattle.cbl_base.specs.Sets.{is_member};
    ghost use Rattle.cbl_base.specs.declared.input.Input.TheVariants.{Int, Set};
    ghost use Rattle.cbl_operations.specs.Operations.Member.{member, one_kind_of_member};
    ghost use Rattle.cbl_operations.specs.Truth.{truth};

    ghost rule = { λ _. member };

    ghost ready = { λ s. s.kept ≡ Int (truth (is_member s.number s.set)) };

    ghost held = { λ s. Int s.number ∷ Set s.set ∷ [] };

    ghost one_kind = { λ _. one_kind_of_member };

    fn reset(&mut self, inputs: &[Input]) -> Result<(), NoMemory> {
        self.number = number_in(&inputs[0]);
        self.set = set_in(self.alloc, &inputs[1])?;
        self.kept = truth(self.set.contains(self.number));
        Ok(())
    }

    fn apply(&mut self, changes: &[Change]) -> Result<(), NoMemory> {
        for change in changes {
            match change {
                Change::Int { new, .. } => self.number = *new,
                Change::Set { added, removed, .. } => edit(&mut self.set, added, removed)?,
            }
        }
        self.kept = truth(self.set.contains(self.number));
        Ok(())
    }

    fn probe(&self, changes: &[Change]) -> Result<NodeValue, NodeFault> {
        let number = number_after(self.number, changes);
        let is_in = is_in_after(number, self.set.contains(number), changes);
        Ok(truth(is_in))
    }

    fn value(&self) -> Result<&NodeValue, RunFault> {
        Ok(&self.kept)
    }

    fn place_violation(&self, _place: u32) -> i64 {
        0
    }
}

/// The number that an input is; of a set, 0.
fn number_in(input: &Input) -> i64
    ensures { result ≡ number_of input.now }
{
    match input {
        Input::Int(number) => *number,
        Input::Set(_) => 0,
    }
}

/// Truth as the value of a node.
fn truth(is_true: bool) -> Input
    ensures { result ≡ Int (truth is_true) }
{
    Input::Int(i64::from(is_true))
}

/// The number after changes of it and of the set.
fn number_after(number: i64, changes: &[Change]) -> i64
    ensures { result ≡ number_after number changes.now }
{
    let mut number = number;
    for change in changes {
        match change {
            Change::Int { new, .. } => number = *new,
            Change::Set { .. } => {}
        }
    }
    number
}

/// Whether the number is in the set after changes of the set, by whether it is in it.
fn is_in_after(number: i64, is_in: bool, changes: &[Change]) -> bool
    ensures { result ≡ is_in_after number is_in changes.now }
{
    let mut is_in = is_in;
    for change in changes {
        match change {
            Change::Int { .. } => {}
            Change::Set { added, removed, .. } => {
                is_in = !removed.contains(number) && (added.contains(number) || is_in);
            }
        }
    }
    is_in
}
