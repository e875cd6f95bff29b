//! The changes that make a node's inputs into others.
ghost use Rattle.std.specs.Prelude.{◌≡◌, true, false, IfOk, IfSome};
ghost use Rattle.cbl_base.specs.Changes.{AreChanges, after_changes};
ghost use Rattle.cbl_base.specs.Inputs.{kind_of};
ghost use Rattle.cbl_base.specs.declared.input.Input.TheVariants.{Set};
ghost use Rattle.node_states.specs.Step.{IsStep};

use cbl_base::{Change, Input, IntSet, NoMemory};
use cbl_operations::TwoSetsOp;
use std::alloc::Global;

/// At which places there are changes: at all, or where the inputs differ.
#[derive(Clone, Copy, PartialEq, Eq, Debug)]
pub enum Places {
    All,
    Differing,
}

/// The changes that make the inputs `from` into `to`, one at each of these places. `None` where these are not
/// as many, or of other kinds.
pub fn changes_between(
    alloc: Global,
    from: &[Input],
    to: &[Input],
    places: Places,
) -> Result<Option<Vec<Change>>, NoMemory>
    ensures changes { IfOk result (λ found.
        IfSome found (λ changes. AreChanges from.now changes.items)) }
    ensures after { IfOk result (λ found.
        IfSome found (λ changes. after_changes from.now changes.items ≡ to.now)) }
{
    if from.len() != to.len() || from.len() > u32::MAX as usize {
        return Ok(None);
    }
    let mut changes = Vec::new(alloc);
    for place in 0..from.len() {
        let old = &from[place];
        let new = &to[place];
        if is_changed(places, old, new) {
            let Some(change) = change_at(alloc, place as u32, old, new)? else {
                return Ok(None);
            };
            changes.push(change)?;
        }
    }
    Ok(Some(changes))
}

/// Whether there is a change at a place with these inputs.
fn is_changed(places: Places, from: &Input, to: &Input) -> bool
    ensures { result ≡ false → from.now ≡ to.now }
{
    match places {
        Places::All => true,
        Places::Differing => !are_equal(from, to),
    }
}

/// Whether both are one number or one set.
fn are_equal(from: &Input, to: &Input) -> bool
    ensures { result ≡ true → from.now ≡ to.now }
{
    match (from, to) {
        (Input::Int(old), Input::Int(new)) => *old == *new,
        (Input::Set(old), Input::Set(new)) => are_equal_lists(old.as_slice(), new.as_slice()),
        _ => false,
    }
}

fn are_equal_lists(from: &[i64], to: &[i64]) -> bool
    ensures { result ≡ true → from.now ≡ to.now }
{
    from == to
}

/// The change that makes an input into another of its kind.
pub(crate) fn change_at(
    alloc: Global,
    place: u32,
    from: &Input,
    to: &Input,
) -> Result<Option<Change>, NoMemory>
    ensures { IfOk result (λ found. IfSome found (IsStep place from.now to.now)) }
{
    match (from, to) {
        (Input::Int(old), Input::Int(new)) => Ok(Some(Change::Int {
            place,
            old: *old,
            new: *new,
        })),
        (Input::Set(old), Input::Set(new)) => {
            let change = set_change(alloc, place, old, new)?;
            Ok(Some(change))
        }
        _ => Ok(None),
    }
}

/// The change that makes a set into another.
fn set_change(alloc: Global, place: u32, from: &IntSet, to: &IntSet) -> Result<Change, NoMemory>
    ensures { IfOk result (IsStep place (Set from.now) (Set to.now)) }
{
    // what these ensure says that the members rise
    let _from = from.as_slice();
    let _to = to.as_slice();
    let added = TwoSetsOp::Minus.value(alloc, to, from)?;
    let removed = TwoSetsOp::Minus.value(alloc, from, to)?;
    Ok(Change::Set {
        place,
        added,
        removed,
    })
}
