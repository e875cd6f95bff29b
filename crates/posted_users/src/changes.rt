//! The changes from a list of numbers to another.
ghost use Rattle.std.specs.Prelude.{◌≡◌, length, IfOk, OnOk};
ghost use Rattle.cbl_base.specs.Changes.{AreChanges, after_changes};
ghost use Rattle.cbl_base.specs.Inputs.{as_inputs};
ghost use Rattle.posted_users.specs.Moving.{with_change};

use cbl_base::{Change, NoMemory};
use std::alloc::Global;

/// A change more, where it changes anything.
fn push_change(changes: &mut Vec<Change>, place: usize, old: i64, new: i64) -> Result<(), NoMemory>
    ensures { OnOk result (changes.new.items ≡ with_change changes.old.items place old new) }
{
    if old == new {
        return Ok(());
    }
    let Ok(place) = u32::try_from(place) else {
        return Err(NoMemory);
    };
    Ok(changes.push(Change::Int { place, old, new })?)
}

/// A change at each place at which two lists of one length differ.
pub fn changes_between(alloc: Global, held: &[i64], list: &[i64]) -> Result<Vec<Change>, NoMemory>
    requires { length list.now ≡ length held.now }
    ensures changes { IfOk result (λ changes. AreChanges (as_inputs held.now) changes.items) }
    ensures after { IfOk result (λ changes.
        after_changes (as_inputs held.now) changes.items ≡ as_inputs list.now) }
{
    let mut changes = Vec::new(alloc);
    for place in 0..held.len() {
        push_change(&mut changes, place, held[place], list[place])?;
    }
    Ok(changes)
}
