//! Sets that are copied, and sets that get and lose members.
ghost use Rattle.std.specs.Prelude.{◌≡◌, IfOk, OnOk};
ghost use Rattle.cbl_base.specs.Sets.{with_members, without_members};
ghost use Rattle.cbl_operations.specs.SetForms.{members_of};
ghost use Rattle.node_set.specs.Placing.{placed, placed_in};

use cbl_base::{Input, IntSet, NoMemory};
use std::alloc::Global;

/// A copy of the set that an input is; of a number, the empty set.
pub(crate) fn set_in(alloc: Global, input: &Input) -> Result<IntSet, NoMemory>
    ensures { IfOk result (λ set. set ≡ members_of input.now) }
{
    match input {
        Input::Set(set) => Ok(set.clone()?),
        Input::Int(_) => Ok(IntSet::new(alloc)),
    }
}

/// Makes the number a member of the set, or no member.
pub(crate) fn place(set: &mut IntSet, v: i64, is_in: bool) -> Result<(), NoMemory>
    ensures { OnOk result (set.new ≡ placed v is_in set.old) }
{
    if is_in {
        set.insert(v)?;
    } else {
        set.remove(v);
    }
    Ok(())
}

/// Makes the number a member of the set that an input is, or no member.
pub(crate) fn place_in(input: &mut Input, v: i64, is_in: bool) -> Result<(), NoMemory>
    ensures { OnOk result (input.new ≡ placed_in v is_in input.old) }
{
    match input {
        Input::Set(set) => place(set, v, is_in),
        Input::Int(_) => Ok(()),
    }
}

/// Gives the set these members, and then takes those from it.
pub(crate) fn edit(set: &mut IntSet, added: &IntSet, removed: &IntSet) -> Result<(), NoMemory>
    ensures { OnOk result (set.new ≡ without_members removed.now (with_members added.now set.old)) }
{
    for v in added.as_slice() {
        set.insert(*v)?;
    }
    for v in removed.as_slice() {
        set.remove(*v);
    }
    Ok(())
}
