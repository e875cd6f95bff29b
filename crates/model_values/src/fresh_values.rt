//! What a model comes to under an assignment.
ghost use Rattle.std.specs.Prelude.{◌≡◌, ◌<◌, IfOk, Some, length, map, slice_index_or};
ghost use Rattle.model_values.specs.Fresh.{IsFresh, all_joined, fresh_in, fresh_of, listed_sums, seen_all, seen_fresh};
ghost use Rattle.model_values.specs.Outcomes.{HasKinds, env_of, gathered, known, listed};
ghost use Rattle.term_model.specs.Definitions.{IsAcyclic};
ghost use Rattle.term_model.specs.Kinds.{kinds_in};
ghost use Rattle.term_model.specs.Users.{no_users, user_rules};
ghost use Rattle.term_model.specs.Wellformed.{HasDefinedSets, IsWellFormed};

use crate::all_parts::{Sums, sums_in};
use crate::evaluation::{Gathered, Outcome, Setting, copied_outcome, gather};
use crate::failure::Failure;
use crate::least_failure::least_failure;
use crate::settling::{outcomes_of, tables_of};
use crate::values::{ModelStop, Values};
use cbl_base::{Input, NoMemory};
use operation_values::{NoUsers, UserValues};
use std::alloc::Global;
use term_model::{Model, Side};

/// The values of the variables, where all have one.
fn values_of(alloc: Global, cells: &[Option<Outcome>]) -> Result<Gathered, NoMemory>
    ensures { IfOk result (λ r. listed r ≡ gathered (map (λ c. known (Some c)) cells.now)) }
{
    let mut so_far = Some(Vec::new(alloc));
    for cell in cells {
        let outcome = copied_outcome(cell)?;
        so_far = gather(so_far, outcome)?;
    }
    Ok(so_far)
}

/// The values of all, or the first total that doesn't fit.
fn totals_joined(
    vars: Vec<Input>,
    systems: Result<Vec<i64>, Failure>,
    objectives: Result<Vec<i64>, Failure>,
) -> Result<Values, Failure>
    ensures { Some (seen_fresh result) ≡
        all_joined (Some vars.items) (listed_sums (Some systems)) (listed_sums (Some objectives)) }
{
    match (systems, objectives) {
        (Ok(systems), Ok(objectives)) => Ok(Values {
            vars,
            systems,
            objectives,
        }),
        (Ok(_), Err(failure)) => Err(failure),
        (Err(failure), _) => Err(failure),
    }
}

/// The same, where all terms have values.
fn all_joined(vars: Gathered, systems: Sums, objectives: Sums) -> Option<Result<Values, Failure>>
    ensures { seen_all result ≡ all_joined (listed vars) (listed_sums systems)
        (listed_sums objectives) }
{
    match (vars, systems, objectives) {
        (Some(vars), Some(systems), Some(objectives)) => {
            Some(totals_joined(vars, systems, objectives))
        }
        (Some(_), Some(_), None) => None,
        (Some(_), None, _) => None,
        (None, _, _) => None,
    }
}

/// The values, or the stop at a failure.
fn stopped(fresh: Result<Values, Failure>) -> Result<Values, ModelStop>
    ensures { IsFresh (seen_fresh fresh) result }
{
    match fresh {
        Ok(values) => Ok(values),
        Err(failure) => Err(ModelStop::Fault(failure.place, failure.fault)),
    }
}

/// What a model comes to, where it is known what its variables come to.
#[tactic(auto, using(crate::proofs::FreshLaws::fresh_from, crate::proofs::FreshLaws::fresh_failing))]
fn fresh_in<U: UserValues>(setting: &Setting<'_, U>) -> Result<Values, ModelStop>
    requires well_formed { IsWellFormed setting.now.model.now }
    requires kinds { HasKinds (kinds_in setting.now.model.now.vars.items)
        (env_of setting.now.cells.now) }
    requires count { length setting.now.cells.now ≡ length setting.now.model.now.vars.items }
    ensures { IsFresh (fresh_in (user_rules (U.viol_of setting.now.users.now)
        (U.viol_at setting.now.users.now)) setting.now.model.now
        (env_of setting.now.cells.now)) result }
{
    let vars = values_of(setting.alloc, setting.cells)?;
    let systems = sums_in(setting, Side::Systems)?;
    let objectives = sums_in(setting, Side::Objectives)?;
    match all_joined(vars, systems, objectives) {
        Some(fresh) => stopped(fresh),
        None => {
            let failure = least_failure(setting)?;
            stopped(Err(failure))
        }
    }
}

/// The values of a model whose users' constraints are computed by `users`, under an assignment with a number
/// for each variable; those of defined and set variables aren't looked at.
///
/// `Fault` is that of the least numbered subterm whose arguments all have values and whose own operation
/// fails, with its place. Subterms are numbered in the order of posting, those of one term in post-order, and
/// equal ones once; then come each system's and each objective's total. It yields only to `NoMemory`.
pub fn fresh_with<U: UserValues>(
    alloc: Global,
    model: &Model,
    assignment: &[i64],
    users: &U,
) -> Result<Values, ModelStop>
    requires well_formed { IsWellFormed model.now }
    requires sets { HasDefinedSets model.now }
    requires acyclic { IsAcyclic model.now }
    requires assigned { length assignment.now ≡ length model.now.vars.items }
    ensures { IsFresh (fresh_of (user_rules (U.viol_of users.now)
        (U.viol_at users.now)) model.now assignment.now) result }
{
    let tables = tables_of(alloc, users, model, assignment)?;
    let cells = outcomes_of(&tables)?;
    let setting = Setting {
        alloc,
        users,
        model,
        cells: &cells,
    };
    fresh_in(&setting)
}

/// The values of a model under an assignment, where a user's constraint has no violations: meant for models
/// without any. All else is as in `fresh_with`.
pub fn fresh(alloc: Global, model: &Model, assignment: &[i64]) -> Result<Values, ModelStop>
    requires well_formed { IsWellFormed model.now }
    requires sets { HasDefinedSets model.now }
    requires acyclic { IsAcyclic model.now }
    requires assigned { length assignment.now ≡ length model.now.vars.items }
    ensures { IsFresh (fresh_of no_users model.now assignment.now) result }
{
    fresh_with(alloc, model, assignment, &NoUsers)
}
