//! The changes of a store's values as changes of variables.
ghost use Rattle.std.specs.Prelude.{◌≡◌, Some, IfOk, OnOk};
ghost use Rattle.cbl_base.specs.declared.input.Input.TheVariants.{Int};
ghost use Rattle.solver_models.specs.Changes.{change_between};
ghost use Rattle.solver_models.specs.KeptChanges.{with_change};
ghost use Rattle.solver_store.specs.ToldChanges.{variable_change, variable_changes};

use cbl_base::{Input, NoMemory, VarId};
use inc_store::NodeChange;
use ls_events::VarChange;
use std::alloc::Global;

/// How a number changed.
fn number_change(var: VarId, old: i64, new: &Input) -> Option<VarChange>
    ensures { result ≡ change_between var (Some (Int old)) (Some new.now) }
{
    match new {
        Input::Int(new) => {
            if old == *new {
                None
            } else {
                Some(VarChange {
                    var,
                    old,
                    new: *new,
                })
            }
        }
        Input::Set(_) => None,
    }
}

/// How a value changed.
fn change_between(var: VarId, old: &Input, new: &Input) -> Option<VarChange>
    ensures { result ≡ change_between var (Some old.now) (Some new.now) }
{
    match old {
        Input::Int(old) => number_change(var, *old, new),
        Input::Set(_) => None,
    }
}

/// How a variable's value changed, where the id is one of so many variables.
fn variable_change(solver: u32, count: u32, change: &NodeChange) -> Option<VarChange>
    ensures { result ≡ variable_change solver count change.now }
{
    let index = change.node.0;
    if index < count {
        return change_between(VarId { solver, index }, &change.old, &change.new);
    }
    None
}

/// Puts a change, where there is one, behind the others.
fn push_change(changes: &mut Vec<VarChange>, change: Option<VarChange>) -> Result<(), NoMemory>
    ensures { OnOk result (changes.new.items ≡ with_change changes.old.items change) }
{
    match change {
        Some(change) => Ok(changes.push(change)?),
        None => Ok(()),
    }
}

/// The changes of the first so many ids, which are variables, in order.
pub(crate) fn variable_changes(
    alloc: Global,
    solver: u32,
    count: u32,
    changes: &[NodeChange],
) -> Result<Vec<VarChange>, NoMemory>
    ensures { IfOk result (λ v. v.items ≡ variable_changes solver count changes.now) }
{
    let mut told = Vec::new(alloc);
    for change in changes {
        push_change(&mut told, variable_change(solver, count, change))?;
    }
    Ok(told)
}
