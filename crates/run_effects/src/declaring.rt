//! What declarations of variables do with the last of their operands. Each function takes the operand's answer as it is,
//! and an end of the run passes on.
ghost use Rattle.std.specs.Prelude.{◌≡◌, ℕ, List, [], ◌∷◌, ◌++◌, IfErr, IfOk, map};
ghost use Rattle.checked_tree.specs.Actions.{variable_of};
ghost use Rattle.comet_meaning.specs.Outcome.{give};
ghost use Rattle.comet_meaning.specs.State as states;
ghost use Rattle.comet_meaning.specs.Variables as meaning;
ghost use Rattle.comet_meaning.specs.Variables.{beginning_with, declared, variable_kind};
ghost use Rattle.run_objects.specs.OfRunSolvers.Views.{beginning_seen};
ghost use Rattle.run_objects.specs.OfRunOutside.Told.{Told};
ghost use Rattle.run_objects.specs.OfRunState.Views.{state_seen};
ghost use Rattle.run_steps.specs.Does.{Does};
ghost use Rattle.run_effects.specs.Extents.{extent_seen};
ghost use Rattle.run_steps.specs.Following.{Follows};
ghost use Rattle.run_steps.specs.Operands.{added_cell, added_variable, exactly, made_variables};
ghost use Rattle.run_values.specs.Views.{bounds_seen, value_seen};
ghost use Rattle.run_values.specs.declared.stop.Stop.TheVariants.{NoMemory};

use crate::cells::{Extent, cell_name, copied_name, variables_of};
use cbl_base::{IntSet, Place, RunFault, VarId};
use checked_tree::{Kind, Slot, Variable};
use run_objects::solvers_of_runs::{Beginning, Built};
use run_objects::state_of_runs::{Outside, State};
use run_objects::variable_in;
use run_values::{Bounds, Stop, Value};
use std::alloc::Global;
use term_model::{VarDecl, VarKind};

/// How a variable of this kind begins with a number: a set variable begins with the empty set as its definition.
pub fn begins_with(alloc: Global, kind: VarKind, number: i64) -> Beginning
    ensures { beginning_seen result ≡ beginning_with kind number }
{
    match kind {
        VarKind::Number => Beginning::Free(number),
        VarKind::Set => Beginning::Defined(Built::constant_set(IntSet::new(alloc))),
    }
}

/// The same with the number's answer.
pub fn as_free(alloc: Global, kind: VarKind, number: Result<i64, Stop>) -> Result<Beginning, Stop>
    ensures did { (s : states.State) →
        Follows (λ z. z) beginning_seen number result s s (λ z. give (beginning_with kind z)) }
{
    match number {
        Err(stop) => Err(stop),
        Ok(number) => Ok(begins_with(alloc, kind, number)),
    }
}

/// A variable begins with a definition.
pub fn as_defined(term: Result<Built, Stop>) -> Result<Beginning, Stop>
    ensures did { (s : states.State) →
        Follows (λ t. t) beginning_seen term result s s (λ t. give (meaning.defined t)) }
{
    match term {
        Err(stop) => Err(stop),
        Ok(term) => Ok(Beginning::Defined(term)),
    }
}

/// What is declared by a name of this kind.
pub fn variable_kind(kind: Kind) -> VarKind
    ensures { result ≡ variable_kind kind }
{
    match kind {
        Kind::SetVariable | Kind::SetVariableArray | Kind::SetVariableGrid => VarKind::Set,
        _ => VarKind::Number,
    }
}

/// The same with its domain.
pub fn declared(kind: Kind, domain: Bounds) -> VarDecl
    ensures { result ≡ declared (variable_kind kind) (bounds_seen domain) }
{
    VarDecl {
        kind: variable_kind(kind),
        low: domain.low,
        up: domain.up,
    }
}

/// A new variable of a solver, which a name gets.
fn add_variable<O: Outside>(
    s: &mut State,
    out: &mut O,
    at: Place,
    variable: &Variable,
    domain: Bounds,
    beginning: Beginning,
) -> Result<(), Stop>
    ensures did { Does (λ _. tt) result (state_seen s.new (O.told out.new))
        (added_variable at (variable_of variable.now) (bounds_seen domain)
        (beginning_seen beginning) (state_seen s.old (O.told out.old))) }
{
    let name = copied_name(s.alloc, &variable.name)?;
    let decl = declared(variable.kind, domain);
    let made = variable_in(s, out, at, variable.solver, decl, name, beginning)?;
    s.put(variable.slot, Value::Variable(made))
}

/// A variable with its domain and how it begins.
pub fn begin_variable<O: Outside>(
    s: &mut State,
    out: &mut O,
    at: Place,
    variable: &Variable,
    domain: Bounds,
    beginning: Result<Beginning, Stop>,
) -> Result<(), Stop>
    ensures did { Follows beginning_seen (λ _.
        tt) beginning result (state_seen s.old (O.told out.old)) (state_seen s.new (O.told out.new))
        (added_variable at (variable_of variable.now) (bounds_seen domain)) }
{
    match beginning {
        Err(stop) => Err(stop),
        Ok(beginning) => add_variable(s, out, at, variable, domain, beginning),
    }
}

/// The variables with one more. `NoMemory` where there is none for them; there is no other stop.
fn pushed(variables: Vec<VarId>, variable: VarId) -> Result<Vec<VarId>, Stop>
    ensures more { IfOk result (λ more. more.items ≡ variables.items ++ variable ∷ []) }
    ensures memory { IfErr result (λ stop. stop ≡ NoMemory) }
{
    let mut variables = variables;
    variables.push(variable)?;
    Ok(variables)
}

/// One more cell of an array of variables: its variable, with its name.
fn add_cell<O: Outside>(
    s: &mut State,
    out: &mut O,
    at: Place,
    variable: &Variable,
    decl: VarDecl,
    indices: &[i64],
    cells: Vec<VarId>,
    beginning: Beginning,
) -> Result<Vec<VarId>, Stop>
    ensures did { Does (λ cells. cells.items) result (state_seen s.new (O.told out.new))
        (added_cell at (variable_of variable.now) decl indices.now cells.items
        (beginning_seen beginning) (state_seen s.old (O.told out.old))) }
{
    let name = cell_name(s.alloc, &variable.name, indices)?;
    let made = variable_in(s, out, at, variable.solver, decl, name, beginning)?;
    pushed(cells, made)
}

/// The same with the answer of how it begins.
pub fn push_variable<O: Outside>(
    s: &mut State,
    out: &mut O,
    at: Place,
    variable: &Variable,
    decl: VarDecl,
    indices: &[i64],
    cells: Vec<VarId>,
    beginning: Result<Beginning, Stop>,
) -> Result<Vec<VarId>, Stop>
    ensures did { Follows beginning_seen (λ cells.
        cells.items) beginning result (state_seen s.old (O.told out.old))
        (state_seen s.new (O.told out.new))
        (added_cell at (variable_of variable.now) decl indices.now cells.items) }
{
    match beginning {
        Err(stop) => Err(stop),
        Ok(beginning) => add_cell(s, out, at, variable, decl, indices, cells, beginning),
    }
}

/// The numbers of a list of exactly so many, which stands at the second place.
fn numbers_of_list<O: Outside>(
    s: &State,
    out: &O,
    at: Place,
    place: Place,
    count: u128,
    list: &Value,
) -> Result<Vec<i64>, Stop>
    ensures did { Does (λ numbers. numbers.items) result (state_seen s.now (O.told out.now))
        (exactly at place count (value_seen list.now) (state_seen s.now (O.told out.now))) }
{
    let numbers = s.read_numbers(out, place, list)?;
    let cells = numbers.len();
    if cells as u128 != count {
        return Err(Stop::Fault(at, RunFault::OutOfRange));
    }
    Ok(numbers)
}

/// The same with the list's answer.
pub fn take_numbers<O: Outside>(
    s: &State,
    out: &O,
    at: Place,
    place: Place,
    count: u128,
    list: Result<Value, Stop>,
) -> Result<Vec<i64>, Stop>
    ensures did { Follows value_seen (λ numbers.
        numbers.items) list result (state_seen s.now (O.told out.now))
        (state_seen s.now (O.told out.now)) (exactly at place count) }
{
    match list {
        Err(stop) => Err(stop),
        Ok(list) => numbers_of_list(s, out, at, place, count, &list),
    }
}

/// A new array of these variables, which a name gets.
fn put_variables(
    s: &mut State,
    slot: Slot,
    extents: &[Extent],
    variables: Vec<VarId>,
) -> Result<(), Stop>
    ensures did { (told : Told) → Does (λ _.
        tt) result (state_seen s.new told)
        (made_variables slot (map extent_seen extents.now) variables.items
        (state_seen s.old told)) }
{
    let array = s.new_variables(variables_of(extents, variables))?;
    s.put(slot, array)
}

/// The same with the answer that the variables are.
pub fn make_variables(
    s: &mut State,
    slot: Slot,
    extents: &[Extent],
    variables: Result<Vec<VarId>, Stop>,
) -> Result<(), Stop>
    ensures did { (told : Told) → Follows (λ variables. variables.items) (λ _.
        tt) variables result (state_seen s.old told) (state_seen s.new told)
        (made_variables slot (map extent_seen extents.now)) }
{
    match variables {
        Err(stop) => Err(stop),
        Ok(variables) => put_variables(s, slot, extents, variables),
    }
}
