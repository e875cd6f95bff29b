//! A set that two sets are combined to.
ghost use Rattle.std.specs.Prelude.{◌≡◌, ◌<◌, IfOk, OnOk};
ghost use Rattle.cbl_base.specs.Changes.{after_change};
ghost use Rattle.cbl_base.specs.Sets.{with_members, without_members};
ghost use Rattle.cbl_base.specs.declared.input.Input.TheVariants.{Set};
ghost use Rattle.cbl_base.specs.declared.input.Change.TheVariants.{Set as SetChange};
ghost use Rattle.cbl_operations.specs.TwoSets.{rule_of_sets, two_sets_value};
ghost use Rattle.node_set.specs.Combining.{belongs, both, combined, exchanged};
ghost use Rattle.node_set.specs.Placing.{placed};

use crate::editing::{place, place_in, set_in};
use cbl_base::{Change, Input, IntSet, NoMemory, NodeFault, NodeRule, NodeValue, RunFault};
use cbl_operations::TwoSetsOp;
use std::alloc::Global;

/// Which members of two sets the combined set has.
#[derive(Clone, Copy, PartialEq, Eq, Debug)]
enum Combining {
    Either,
    Both,
    FirstAlone,
    SecondAlone,
}

impl Combining {
    /// How the operation combines.
    fn of(op: TwoSetsOp) -> Combining
        ensures { combined result ≡ two_sets_value op }
    {
        match op {
            TwoSetsOp::Union => Combining::Either,
            TwoSetsOp::Inter => Combining::Both,
            TwoSetsOp::Minus => Combining::FirstAlone,
        }
    }

    /// Whether a number belongs to the combined set, by whether it is in the first and in the second.
    fn has(self, in_first: bool, in_second: bool) -> bool
        ensures { result ≡ belongs self in_first in_second }
    {
        match self {
            Combining::Either => in_first || in_second,
            Combining::Both => in_first && in_second,
            Combining::FirstAlone => in_first && !in_second,
            Combining::SecondAlone => !in_first && in_second,
        }
    }

    /// The same of the two sets in the other order.
    fn exchanged(self) -> Combining
        ensures { result ≡ exchanged self }
    {
        match self {
            Combining::Either => Combining::Either,
            Combining::Both => Combining::Both,
            Combining::FirstAlone => Combining::SecondAlone,
            Combining::SecondAlone => Combining::FirstAlone,
        }
    }

    /// The combined set, from scratch.
    fn set_of(self, alloc: Global, first: &IntSet, second: &IntSet) -> Result<IntSet, NoMemory>
        ensures { IfOk result (λ s. s ≡ combined self first.now second.now) }
    {
        match self {
            Combining::Either => TwoSetsOp::Union.value(alloc, first, second),
            Combining::Both => TwoSetsOp::Inter.value(alloc, first, second),
            Combining::FirstAlone => TwoSetsOp::Minus.value(alloc, first, second),
            Combining::SecondAlone => TwoSetsOp::Minus.value(alloc, second, first),
        }
    }
}

/// The node of an operation on two sets.
#[derive(Drop)]
pub struct TwoSets {
    combining: Combining,
    first: IntSet,
    second: IntSet,
    kept: Input,
    alloc: Global,
}

impl TwoSets {
    /// The node of this operation.
    pub fn new(alloc: Global, op: TwoSetsOp) -> TwoSets
        ensures { ⟦<TwoSets as NodeRule>⟧.rule result ≡ rule_of_sets op }
    {
        TwoSets {
            combining: Combining::of(op),
            first: IntSet::new(alloc),
            second: IntSet::new(alloc),
            kept: Input::Int(0),
            alloc,
        }
    }

    /// A copy of all that it holds.
    fn copied(&self) -> Result<TwoSets, NoMemory>
        ensures combining { IfOk result (λ copy. copy.combining ≡ self.now.combining) }
        ensures first { IfOk result (λ copy. copy.first ≡ self.now.first) }
        ensures second { IfOk result (λ copy. copy.second ≡ self.now.second) }
        ensures kept { IfOk result (λ copy. copy.kept ≡ self.now.kept) }
    {
        Ok(TwoSets {
            combining: self.combining,
            first: self.first.clone()?,
            second: self.second.clone()?,
            kept: self.kept.clone()?,
            alloc: self.alloc,
        })
    }

    /// Gives the set at a place these members, and then takes those from it.
    fn edit(&mut self, place: u32, added: &IntSet, removed: &IntSet) -> Result<(), NoMemory>
        requires within { place < 2 }
        requires kept { self.old.kept ≡ Set
            (combined self.old.combining self.old.first self.old.second) }
        ensures kept { OnOk result (self.new.kept ≡
            Set (combined self.new.combining self.new.first self.new.second)) }
        ensures sets { OnOk result (both self.new.first self.new.second ≡
            after_change (both self.old.first self.old.second)
            (SetChange place added.now removed.now)) }
        ensures combining { self.new.combining ≡ self.old.combining }
    {
        if place == 0 {
            let combining = self.combining;
            edit_one(
                combining,
                &mut self.first,
                &self.second,
                &mut self.kept,
                added,
                removed,
            )
        } else {
            let combining = self.combining.exchanged();
            edit_one(
                combining,
                &mut self.second,
                &self.first,
                &mut self.kept,
                added,
                removed,
            )
        }
    }
}

impl NodeRule for TwoSets {
    ghost use Rattle.std.specs.Prelude.{◌≡◌};
    ghost use Rattle.cbl_base.specs.declared.input.Input.TheVariants.{Set};
    ghost use Rattle.cbl_operations.specs.SetForms.{rule_of_two_sets, one_kind_of_two_sets};
    ghost use Rattle.node_set.specs.Combining.{combined, both};

    ghost rule = { λ s. rule_of_two_sets (combined s.combining) };

    ghost ready = { λ s. s.kept ≡ Set (combined s.combining s.first s.second) };

    ghost held = { λ s. both s.first s.second };

    ghost one_kind = { λ s. one_kind_of_two_sets (combined s.combining) };

    fn reset(&mut self, inputs: &[Input]) -> Result<(), NoMemory> {
        self.first = set_in(self.alloc, &inputs[0])?;
        self.second = set_in(self.alloc, &inputs[1])?;
        let combined = self
            .combining
            .set_of(self.alloc, &self.first, &self.second)?;
        self.kept = Input::Set(combined);
        Ok(())
    }

    fn apply(&mut self, changes: &[Change]) -> Result<(), NoMemory> {
        for change in changes {
            match change {
                Change::Set {
                    place,
                    added,
                    removed,
                } => self.edit(*place, added, removed)?,
                Change::Int { .. } => unreachable!(),
            }
        }
        Ok(())
    }

    fn probe(&self, changes: &[Change]) -> Result<NodeValue, NodeFault> {
        let mut changed = self.copied()?;
        changed.apply(changes)?;
        Ok(changed.kept)
    }

    fn value(&self) -> Result<&NodeValue, RunFault> {
        Ok(&self.kept)
    }

    fn place_violation(&self, _place: u32) -> i64 {
        0
    }
}

/// Edits one of two sets, and with it the set that it and the other are combined to.
fn edit_one(
    combining: Combining,
    set: &mut IntSet,
    other: &IntSet,
    kept: &mut Input,
    added: &IntSet,
    removed: &IntSet,
) -> Result<(), NoMemory>
    requires { kept.old ≡ Set (combined combining set.old other.now) }
    ensures kept { OnOk result (kept.new ≡ Set (combined combining set.new other.now)) }
    ensures set { OnOk result (set.new ≡
        without_members removed.now (with_members added.now set.old)) }
{
    for v in added.as_slice() {
        place_one(combining, set, other, kept, *v, true)?;
    }
    for v in removed.as_slice() {
        place_one(combining, set, other, kept, *v, false)?;
    }
    Ok(())
}

/// Makes the number a member of one of two sets, or no member, and so in the combined set.
fn place_one(
    combining: Combining,
    set: &mut IntSet,
    other: &IntSet,
    kept: &mut Input,
    v: i64,
    is_in: bool,
) -> Result<(), NoMemory>
    requires { kept.old ≡ Set (combined combining set.old other.now) }
    ensures kept { OnOk result (kept.new ≡ Set (combined combining set.new other.now)) }
    ensures set { OnOk result (set.new ≡ placed v is_in set.old) }
{
    place(set, v, is_in)?;
    place_in(kept, v, combining.has(is_in, other.contains(v)))
}
