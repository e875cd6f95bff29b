//! The change from one value to another of the same kind.
ghost use Rattle.std.specs.Prelude.{◌≡◌, IfOk};
ghost use Rattle.cbl_base.specs.Inputs.{kind_of};
ghost use Rattle.store_turns.specs.Telling.{change_to, without};

use cbl_base::{Change, Input, IntSet, NoMemory, NodeValue};
use std::alloc::Global;

/// The members of the one set that the other lacks.
pub fn without(alloc: Global, set: &IntSet, other: &IntSet) -> Result<IntSet, NoMemory>
    ensures { IfOk result (λ s. s ≡ without other.now set.now) }
{
    let mut members = Vec::new(alloc);
    for member in set.as_slice() {
        if !other.contains(*member) {
            members.push(*member)?;
        }
    }
    let left = IntSet::from_slice(alloc, &members)?;
    Ok(left)
}

/// The change at a place, from an old value to a new one of the same kind.
pub fn change_to(
    alloc: Global,
    place: u32,
    old: &NodeValue,
    new: &NodeValue,
) -> Result<Change, NoMemory>
    requires { kind_of new.now ≡ kind_of old.now }
    ensures { IfOk result (λ change. change ≡ change_to place old.now new.now) }
{
    match (old, new) {
        (Input::Int(a), Input::Int(b)) => Ok(Change::Int {
            place,
            old: *a,
            new: *b,
        }),
        (Input::Set(a), Input::Set(b)) => {
            let added = without(alloc, b, a)?;
            let removed = without(alloc, a, b)?;
            Ok(Change::Set {
                place,
                added,
                removed,
            })
        }
        (Input::Int(_), Input::Set(_)) => unreachable!(),
        (Input::Set(_), Input::Int(_)) => unreachable!(),
    }
}
