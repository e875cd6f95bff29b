//! Values and deltas of systems and objectives, from scratch.
ghost use Rattle.std.specs.Prelude.{◌≡◌, ◌<◌, IfOk, Ok, Err, Some, IsTrue, is_some, length, map, slice_get, slice_set, pos, slice_index_or};
ghost use Rattle.model_values.specs.Asked.{IsAnswer, answer_of, stop_at};
ghost use Rattle.term_model.specs.Definitions.{IsAcyclic, definition_of};
ghost use Rattle.model_values.specs.Delta.{AreOwn, moves_defined, moved, difference, value_of, delta_of};
ghost use Rattle.term_model.specs.Users.{user_rules};
ghost use Rattle.model_values.specs.Outcomes.{HasKinds, env_of};
ghost use Rattle.model_values.specs.Settling.{AreTables};
ghost use Rattle.model_values.specs.VarOutcomes.{outcome_of_var};
ghost use Rattle.term_model.specs.Kinds.{kinds_in};
ghost use Rattle.term_model.specs.Wellformed.{IsWellFormed, HasDefinedSets};
ghost use Rattle.model_values.specs.Wholes.{outcome_of_whole, place_of, IsOf};

use crate::asked::AskStop;
use crate::evaluation::Setting;
use crate::least_failure::least_failure_below;
use crate::settling::{Tables, outcomes_of, tables_of};
use crate::wholes::{Sum, Whole, place_of, sum_in};
use cbl_base::{NoMemory, Place, RunFault, sub};
use operation_values::UserValues;
use std::alloc::Global;
use term_model::{Model, definitions_of};

/// An assignment of a number to a variable, or a swap of two variables' numbers.
#[derive(Clone, Copy, PartialEq, Eq, Debug)]
pub enum Move {
    Assign { var: u32, value: i64 },
    Swap { left: u32, right: u32 },
}

/// What a system or an objective comes to that was declared at this place, where it is known what the variables
/// come to.
#[tactic(auto, using(crate::proofs::PartLaws::whole_some, crate::proofs::PartLaws::whole_none))]
pub fn whole_outcome<U: UserValues>(
    tables: &Tables<'_, U>,
    setting: &Setting<'_, U>,
    whole: Whole,
    place: Place,
) -> Result<Sum, NoMemory>
    requires same { tables.now.model.now ≡ setting.now.model.now }
    requires well_formed { IsWellFormed setting.now.model.now }
    requires acyclic { IsAcyclic setting.now.model.now }
    requires tables { AreTables tables.now.model.now tables.now.definitions.items
        (map (λ names. names.items) tables.now.named.items) }
    requires kinds { HasKinds (kinds_in setting.now.model.now.vars.items)
        (env_of setting.now.cells.now) }
    ensures { IfOk result (λ o. o ≡ outcome_of_whole
        (user_rules (U.viol_of setting.now.users.now)
        (U.viol_at setting.now.users.now)) setting.now.model.now
        (env_of setting.now.cells.now) whole place) }
{
    match sum_in(setting, whole, place)? {
        Some(sum) => Ok(sum),
        None => {
            let failure = least_failure_below(tables, setting, whole)?;
            Ok(Err(failure))
        }
    }
}

/// The same under an assignment.
pub fn outcome_in<U: UserValues>(
    alloc: Global,
    model: &Model,
    assignment: &[i64],
    users: &U,
    whole: Whole,
    place: Place,
) -> Result<Sum, NoMemory>
    requires well_formed { IsWellFormed model.now }
    requires sets { HasDefinedSets model.now }
    requires acyclic { IsAcyclic model.now }
    requires assigned { length assignment.now ≡ length model.now.vars.items }
    ensures { IfOk result (λ o. o ≡ outcome_of_whole
        (user_rules (U.viol_of users.now) (U.viol_at users.now)) model.now
        (outcome_of_var (user_rules (U.viol_of users.now)
        (U.viol_at users.now)) model.now assignment.now) whole place) }
{
    let tables = tables_of(alloc, users, model, assignment)?;
    let cells = outcomes_of(&tables)?;
    let setting = Setting {
        alloc,
        users,
        model,
        cells: &cells,
    };
    whole_outcome(&tables, &setting, whole, place)
}

/// Whether a variable has a definition.
fn is_defined(alloc: Global, model: &Model, var: u32) -> Result<bool, NoMemory>
    requires { var < length model.now.vars.items }
    ensures { IfOk result (λ b. b ≡ is_some (definition_of model.now var)) }
{
    let definitions = definitions_of(alloc, model)?;
    Ok(definitions[var as usize].is_some())
}

/// Whether a moved variable has a definition.
fn moves_defined(alloc: Global, model: &Model, change: Move) -> Result<bool, NoMemory>
    requires { AreOwn model.now change }
    ensures { IfOk result (λ b. b ≡ moves_defined model.now change) }
{
    match change {
        Move::Assign { var, value: _ } => is_defined(alloc, model, var),
        Move::Swap { left, right } => {
            let is_left = is_defined(alloc, model, left)?;
            let is_right = is_defined(alloc, model, right)?;
            Ok(is_left || is_right)
        }
    }
}

/// The assignment after a move.
fn moved(
    alloc: Global,
    model: &Model,
    assignment: &[i64],
    change: Move,
) -> Result<Vec<i64>, NoMemory>
    requires own { AreOwn model.now change }
    requires assigned { length assignment.now ≡ length model.now.vars.items }
    ensures moved { IfOk result (λ v. v.items ≡ moved assignment.now change) }
    ensures count { IfOk result (λ v. length v.items ≡ length model.now.vars.items) }
{
    let mut numbers = Vec::from_slice(alloc, assignment)?;
    match change {
        Move::Assign { var, value } => numbers[var as usize] = value,
        Move::Swap { left, right } => {
            numbers[left as usize] = assignment[right as usize];
            numbers[right as usize] = assignment[left as usize];
        }
    }
    Ok(numbers)
}

/// The difference of two values, or why there is none.
fn difference(after: Sum, now: Sum) -> Result<i64, AskStop>
    ensures { IsAnswer (difference after now) result }
{
    let after = match after {
        Ok(after) => after,
        Err(failure) => return Err(AskStop::Fault(failure.place, failure.fault)),
    };
    let now = match now {
        Ok(now) => now,
        Err(failure) => return Err(AskStop::Fault(failure.place, failure.fault)),
    };
    match sub(after, now) {
        Ok(delta) => Ok(delta),
        Err(fault) => Err(AskStop::Run(fault)),
    }
}

/// The delta of a system or an objective: its value after the move less its
/// value now.
///
/// `Run(DefinedVariable)` comes exactly where a moved variable has a definition; else `Fault` exactly where
/// the system or objective has one after the move or now, that after the move first; else `Run(Overflow)`
/// exactly where the difference doesn't fit 64 bits. Each yields only to `NoMemory`.
pub fn delta<U: UserValues>(
    alloc: Global,
    model: &Model,
    assignment: &[i64],
    users: &U,
    whole: Whole,
    change: Move,
) -> Result<i64, AskStop>
    requires well_formed { IsWellFormed model.now }
    requires sets { HasDefinedSets model.now }
    requires acyclic { IsAcyclic model.now }
    requires assigned { length assignment.now ≡ length model.now.vars.items }
    requires whole { IsOf model.now whole }
    requires own { AreOwn model.now change }
    ensures { IsAnswer (delta_of (user_rules (U.viol_of users.now)
        (U.viol_at users.now)) model.now assignment.now whole change) result }
{
    if moves_defined(alloc, model, change)? {
        return Err(AskStop::Run(RunFault::DefinedVariable));
    }
    let place = place_of(model, whole);
    let numbers = moved(alloc, model, assignment, change)?;
    let after = outcome_in(alloc, model, numbers.as_slice(), users, whole, place)?;
    let now = outcome_in(alloc, model, assignment, users, whole, place)?;
    difference(after, now)
}
