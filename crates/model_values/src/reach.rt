//! On which variables some variables depend, themselves among them, also through definitions.
ghost use Rattle.std.specs.Prelude.{◌≡◌, ◌<◌, ◌++◌, IfOk, OnOk, [], ◌∷◌, length, map};
ghost use Rattle.std.specs.List.{All};
ghost use Rattle.model_values.specs.Reach.{Spreads};
ghost use Rattle.model_values.specs.Settling.{AreTables};
ghost use Rattle.model_values.specs.Support.{AreReached, member_in, roots_in, vars_in};
ghost use Rattle.term_model.specs.Definitions.{IsAcyclic};
ghost use Rattle.term_model.specs.Wellformed.{IsWellFormed};

use crate::settling::Tables;
use crate::wholes::{Whole, member_in};
use cbl_base::NoMemory;
use operation_values::UserValues;
use term_model::{Model, Posted, push_variables};

/// Marks a variable that has no mark yet, and puts it on the stack.
#[tactic(auto, using(crate::proofs::ReachLaws::entered, crate::proofs::ReachLaws::left_alone))]
fn enter(marks: &mut Vec<bool>, stack: &mut Vec<u32>, var: u32) -> Result<(), NoMemory>
    ensures { OnOk result (Spreads (var ∷ []) marks.old.items stack.old.items marks.new.items stack.new.items) }
{
    let place = var as usize;
    if place >= marks.len() {
        return Ok(());
    }
    if marks[place] {
        return Ok(());
    }
    stack.push(var)?;
    marks[place] = true;
    Ok(())
}

/// Marks those of some variables that have no mark yet, and puts them on the stack.
fn enter_all(marks: &mut Vec<bool>, stack: &mut Vec<u32>, vars: &[u32]) -> Result<(), NoMemory>
    ensures { OnOk result (Spreads vars.now marks.old.items stack.old.items marks.new.items stack.new.items) }
{
    for var in vars {
        enter(marks, stack, *var)?;
    }
    Ok(())
}

/// A mark for each variable on which one of the roots depends.
#[tactic(auto, using(crate::proofs::ReachLaws::reach_start, crate::proofs::ReachLaws::reach_end, crate::proofs::VarLaws::names_of_var, crate::proofs::VarLaws::lists_within))]
pub(crate) fn reached<U: UserValues>(
    tables: &Tables<'_, U>,
    roots: &[u32],
) -> Result<Vec<bool>, NoMemory>
    requires well_formed { IsWellFormed tables.now.model.now }
    requires acyclic { IsAcyclic tables.now.model.now }
    requires tables { AreTables tables.now.model.now tables.now.definitions.items
        (map (λ names. names.items) tables.now.named.items) }
    requires roots { All (λ u. u < length tables.now.model.now.vars.items) roots.now }
    ensures { IfOk result (λ v. AreReached tables.now.model.now roots.now v.items) }
{
    let mut marks = vec![in tables.alloc; false; tables.model.vars.len()]?;
    let mut stack = Vec::new(tables.alloc);
    enter_all(&mut marks, &mut stack, roots)?;
    while let Some(var) = stack.pop() {
        enter_all(&mut marks, &mut stack, &tables.named[var as usize])?;
    }
    Ok(marks)
}

/// Puts the variables in a member that was posted, where it is one of the system or objective, behind those in
/// the list.
fn push_roots(
    model: &Model,
    whole: Whole,
    posted: Posted,
    into: &mut Vec<u32>,
) -> Result<(), NoMemory>
    ensures { OnOk result (into.new.items ≡
        into.old.items ++ vars_in (member_in model.now whole posted)) }
{
    match member_in(model, whole, posted) {
        Some(member) => push_variables(&member.term, into),
        None => Ok(()),
    }
}

/// The variables in the members of a system or objective.
pub(crate) fn roots_of<U: UserValues>(
    tables: &Tables<'_, U>,
    whole: Whole,
) -> Result<Vec<u32>, NoMemory>
    ensures { IfOk result (λ v. v.items ≡
        roots_in tables.now.model.now whole tables.now.model.now.posted.items) }
{
    let mut roots = Vec::new(tables.alloc);
    for turn in 0..tables.model.posted.len() {
        push_roots(tables.model, whole, tables.model.posted[turn], &mut roots)?;
    }
    Ok(roots)
}
