//! Changes in an order that is given.
ghost use Rattle.std.specs.Prelude.{◌≡◌, true, IfOk, IfSome};
ghost use Rattle.std.specs.List.{list_all};
ghost use Rattle.cbl_base.specs.Changes.{AreChanges, after_changes};
ghost use Rattle.node_states.specs.Elsewhere.{is_elsewhere};

use crate::changes::{Places, change_at, changes_between};
use cbl_base::{Change, Input, NoMemory};
use std::alloc::Global;

/// The changes that make the inputs `from` into `to`, one at each of these places, in their order. `None`
/// where these are not as many, or of other kinds, where a place is beyond them or stands twice, or where
/// the two differ at a place that isn't among these.
pub fn changes_at(
    alloc: Global,
    from: &[Input],
    to: &[Input],
    places: &[u32],
) -> Result<Option<Vec<Change>>, NoMemory>
    ensures changes { IfOk result (λ found.
        IfSome found (λ changes. AreChanges from.now changes.items)) }
    ensures after { IfOk result (λ found.
        IfSome found (λ changes. after_changes from.now changes.items ≡ to.now)) }
{
    if from.len() != to.len() {
        return Ok(None);
    }
    let mut changes = Vec::new(alloc);
    let mut held = copy_of_all(alloc, from)?;
    for at in places {
        let place = *at;
        let index = place as usize;
        if index >= from.len() || !are_elsewhere(changes.as_slice(), place) {
            return Ok(None);
        }
        let old = &from[index];
        let new = &to[index];
        let Some(change) = change_at(alloc, place, old, new)? else {
            return Ok(None);
        };
        let copy = copied(new)?;
        changes.push(change)?;
        held[index] = copy;
    }
    if are_same(alloc, held.as_slice(), to)? {
        Ok(Some(changes))
    } else {
        Ok(None)
    }
}

/// Whether none of the changes is at the place.
fn are_elsewhere(changes: &[Change], place: u32) -> bool
    ensures { result ≡ list_all (is_elsewhere place) changes.now }
{
    changes.iter().all(|change| is_elsewhere(change, place))
}

fn is_elsewhere(change: &Change, place: u32) -> bool
    ensures { result ≡ is_elsewhere place change.now }
{
    match change {
        Change::Int { place: at, .. } => *at != place,
        Change::Set { place: at, .. } => *at != place,
    }
}

/// A copy of an input, as a function of its own so that its contract says that it is the same.
fn copied(input: &Input) -> Result<Input, NoMemory>
    ensures { IfOk result (λ copy. copy ≡ input.now) }
{
    Ok(input.clone()?)
}

fn copy_of_all(alloc: Global, inputs: &[Input]) -> Result<Vec<Input>, NoMemory>
    ensures { IfOk result (λ copy. copy.items ≡ inputs.now) }
{
    let mut copy = Vec::new(alloc);
    for input in inputs {
        copy.push(copied(input)?)?;
    }
    Ok(copy)
}

/// Whether no change is left from the ones to the others.
fn are_same(alloc: Global, inputs: &[Input], others: &[Input]) -> Result<bool, NoMemory>
    ensures { IfOk result (λ same. same ≡ true → inputs.now ≡ others.now) }
{
    match changes_between(alloc, inputs, others, Places::Differing)? {
        Some(changes) => Ok(changes.is_empty()),
        None => Ok(false),
    }
}
