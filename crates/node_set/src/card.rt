//! How many members a set has.
ghost use Rattle.std.specs.Prelude.{◌≡◌};
ghost use Rattle.cbl_operations.specs.Operations.Card.{card};

use crate::editing::{edit, set_in};
use cbl_base::{Change, Input, IntSet, NoMemory, NodeFault, NodeRule, NodeValue, RunFault};
use std::alloc::Global;

/// The node of `Card`: it takes a set.
#[derive(Drop)]
pub struct Card {
    set: IntSet,
    kept: Input,
    alloc: Global,
}

impl Card {
    /// The node of `Card`: how many members the set has.
    pub fn new(alloc: Global) -> Card
        ensures { ⟦<Card as NodeRule>⟧.rule result ≡ card }
    {
        Card {
            set: IntSet::new(alloc),
            kept: Input::Int(0),
            alloc,
        }
    }
}

impl NodeRule for Card {
    ghost use Rattle.std.specs.Prelude.{◌≡◌, pos, [], ◌∷◌, length};
    ghost use Rattle.cbl_base.specs.declared.input.Input.TheVariants.{Int, Set};
    ghost use Rattle.cbl_operations.specs.Operations.Card.{card, one_kind_of_card};

    ghost rule = { λ _. card };

    ghost ready = { λ s. s.kept ≡ Int (pos (length s.set)) };

    ghost held = { λ s. Set s.set ∷ [] };

    ghost one_kind = { λ _. one_kind_of_card };

    fn reset(&mut self, inputs: &[Input]) -> Result<(), NoMemory> {
        self.set = set_in(self.alloc, &inputs[0])?;
        self.kept = Input::Int(self.set.len() as i64);
        Ok(())
    }

    fn apply(&mut self, changes: &[Change]) -> Result<(), NoMemory> {
        for change in changes {
            match change {
                Change::Set { added, removed, .. } => edit(&mut self.set, added, removed)?,
                Change::Int { .. } => unreachable!(),
            }
        }
        self.kept = Input::Int(self.set.len() as i64);
        Ok(())
    }

    fn probe(&self, changes: &[Change]) -> Result<NodeValue, NodeFault> {
        let members = self.set.as_slice().len();
        match changes.first() {
            Some(Change::Set { added, removed, .. }) => {
                let len = members + added.as_slice().len() - removed.as_slice().len();
                Ok(Input::Int(len as i64))
            }
            Some(Change::Int { .. }) => unreachable!(),
            None => Ok(Input::Int(members as i64)),
        }
    }

    fn value(&self) -> Result<&NodeValue, RunFault> {
        Ok(&self.kept)
    }

    fn place_violation(&self, _place: u32) -> i64 {
        0
    }
}
