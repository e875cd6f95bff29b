//! The weights of a model's members, and the numbers with which its cells start.
ghost use Rattle.std.specs.Prelude.{◌≡◌, ◌++◌, map, IfOk, OnOk};
ghost use Rattle.graph_values.specs.Members.{members_by, numbers_of};
ghost use Rattle.term_model.specs.Wellformed.{IsWellFormed};

use cbl_base::NoMemory;
use std::alloc::Global;
use term_model::{Member, Model, Side, totals_by};

/// The weights of members behind the numbers.
fn push_weights(members: &[Member], numbers: &mut Vec<i64>) -> Result<(), NoMemory>
    ensures { OnOk result (numbers.new.items ≡
        numbers.old.items ++ map (λ m. m.weight) members.now) }
{
    for member in members {
        numbers.push(member.weight)?;
    }
    Ok(())
}

/// The weights of the members of all systems, or of all objectives, by system or objective and in order
/// of posting.
pub(crate) fn weights_by(alloc: Global, model: &Model, side: Side) -> Result<Vec<i64>, NoMemory>
    requires { IsWellFormed model.now }
    ensures { IfOk result (λ v. v.items ≡ map (λ m. m.weight) (members_by model.now side)) }
{
    let mut weights = Vec::new(alloc);
    let totals = totals_by(model, side);
    for total in totals {
        push_weights(&total.members, &mut weights)?;
    }
    Ok(weights)
}

/// The numbers of the variables, and behind them the weights of the systems' members.
pub(crate) fn numbers_of(
    alloc: Global,
    model: &Model,
    assignment: &[i64],
) -> Result<Vec<i64>, NoMemory>
    requires { IsWellFormed model.now }
    ensures { IfOk result (λ v. v.items ≡ numbers_of model.now assignment.now) }
{
    let weights = weights_by(alloc, model, Side::Systems)?;
    let mut numbers = Vec::from_slice(alloc, assignment)?;
    numbers.extend_from_slice(&weights)?;
    Ok(numbers)
}
