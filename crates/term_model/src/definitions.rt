//! Which definition each variable has, and which variables that names.
ghost use Rattle.std.specs.Prelude.{◌≡◌, ◌<◌, ◌++◌, ℕ, IfOk, OnOk, Option, Some, length, map, slice_get, take};
ghost use Rattle.term_model.specs.Definitions.{IsTableOf, vars_of, definition_in, definition_of, named_by, note};
ghost use Rattle.term_model.specs.Depth.{depth_of};

use crate::model::{Definition, Model, Posted};
use crate::term::Term;
use cbl_base::NoMemory;
use std::alloc::Global;

/// Puts the variables in a term, from the left, behind those in the list.
pub fn push_variables(term: &Term, into: &mut Vec<u32>) -> Result<(), NoMemory>
    ensures { OnOk result (into.new.items ≡ into.old.items ++ vars_of term.now) }
{
    match term {
        Term::Const(_) => Ok(()),
        Term::ConstSet(_) => Ok(()),
        Term::Var(v) => Ok(into.push(v.index)?),
        Term::Node {
            op: _,
            args,
            place: _,
        } => {
            for arg in args {
                push_variables(arg, into)?;
            }
            Ok(())
        }
    }
}

/// Notes what was posted, where it is a definition.
fn note(defs: &[Definition], table: &mut Vec<Option<u32>>, posted: Posted)
    ensures count { length table.new.items ≡ length table.old.items }
    ensures each { (i : ℕ) (so_far : Option ℕ) → slice_get table.old.items i ≡ Some so_far →
        slice_get table.new.items i ≡ Some (note defs.now i so_far posted) }
{
    let Posted::Define(number) = posted else {
        return;
    };
    let Some(definition) = defs.get(number as usize) else {
        return;
    };
    let var = definition.var.index as usize;
    if var < table.len() {
        table[var] = Some(number);
    }
}

/// The number of the definition of each variable.
pub fn definitions_of(alloc: Global, model: &Model) -> Result<Vec<Option<u32>>, NoMemory>
    ensures count { IfOk result (λ v. length v.items ≡ length model.now.vars.items) }
    ensures each { IfOk result (λ v. IsTableOf model.now v.items) }
{
    let mut table = vec![in alloc; None; model.vars.len()]?;
    for turn in 0..model.posted.len() {
        note(&model.defs, &mut table, model.posted[turn]);
    }
    Ok(table)
}

/// The variables that the definition with a number names.
fn variables_named(
    alloc: Global,
    defs: &[Definition],
    number: Option<u32>,
) -> Result<Vec<u32>, NoMemory>
    ensures { IfOk result (λ v. v.items ≡ named_by defs.now number) }
{
    let mut names = Vec::new(alloc);
    let Some(number) = number else {
        return Ok(names);
    };
    let Some(definition) = defs.get(number as usize) else {
        return Ok(names);
    };
    push_variables(&definition.term, &mut names)?;
    Ok(names)
}

/// For each variable those that its definition names.
pub fn dependencies_of(
    alloc: Global,
    defs: &[Definition],
    table: &[Option<u32>],
) -> Result<Vec<Vec<u32>>, NoMemory>
    ensures { IfOk result (λ v. map (λ names. names.items) v.items ≡
        map (named_by defs.now) table.now) }
{
    let mut lists = Vec::new(alloc);
    for entry in table {
        lists.push(variables_named(alloc, defs, *entry)?)?;
    }
    Ok(lists)
}
