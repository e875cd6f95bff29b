//! The violations of a variable in a system.
ghost use Rattle.std.specs.Prelude.{◌≡◌, ◌<◌, ◌++◌, [], ◌∷◌, IfOk, Ok, Err, length, map};
ghost use Rattle.model_values.specs.Asked.{IsAnswer, answer_of, stop_at};
ghost use Rattle.term_model.specs.Definitions.{IsAcyclic};
ghost use Rattle.model_values.specs.Dependence.{marked};
ghost use Rattle.term_model.specs.Kinds.{kinds_in};
ghost use Rattle.model_values.specs.Outcomes.{HasKinds, env_of};
ghost use Rattle.model_values.specs.Settling.{AreTables};
ghost use Rattle.term_model.specs.Users.{user_rules};
ghost use Rattle.violation_shares.specs.VariableViolations.{HasWeightsOf, answered, listed_violations, none_weighed, seen_weighed, variable_violations_of, violation_in_system, weigh_posted, weighed_in, weighted_violation, with_weighed};
ghost use Rattle.term_model.specs.Wellformed.{IsWellFormed, HasDefinedSets};

use crate::dependence::marks_of;
use crate::shares::{gather_violation, term_share};
use cbl_base::{NoMemory, RunFault};
use cbl_violations::weighted_total_value;
use model_values::asked::AskStop;
use model_values::computing::UserValues;
use model_values::deltas::whole_outcome;
use model_values::evaluation::Setting;
use model_values::settling::{Tables, outcomes_of, tables_of};
use model_values::wholes::{Sum, Whole, member_in, place_of};
use std::alloc::Global;
use term_model::{Member, Model, Posted};

/// The variable's violations in the members of a system, so far, and their weights; or why one doesn't fit
/// in place of the violations.
#[derive(Drop)]
pub(crate) struct WeighedHeld {
    pub(crate) violations: Result<Vec<i64>, RunFault>,
    pub(crate) weights: Vec<i64>,
}

/// The members so far and one more, in which the variable has these violations.
#[tactic(auto, using(crate::proofs::ShareLaws::weights_more))]
fn with_member(
    weighed: WeighedHeld,
    member: &Member,
    violation: Result<i64, RunFault>,
) -> Result<WeighedHeld, NoMemory>
    requires weighed { HasWeightsOf (listed_violations weighed.violations) weighed.weights.items }
    ensures more { IfOk result (λ w. seen_weighed w ≡
        with_weighed (seen_weighed weighed) violation member.now.weight) }
    ensures weighed { IfOk result (λ w.
        HasWeightsOf (listed_violations w.violations) w.weights.items) }
{
    let violations = gather_violation(weighed.violations, violation)?;
    let mut weights = weighed.weights;
    weights.push(member.weight)?;
    Ok(WeighedHeld {
        violations,
        weights,
    })
}

#[tactic(auto, using(model_values::proofs::PartLaws::member_kinded, crate::proofs::ShareLaws::member_weighed))]
/// The members so far and what was posted, where it is one of them.
fn weigh_posted<U: UserValues>(
    setting: &Setting<'_, U>,
    marks: &[bool],
    system: usize,
    weighed: WeighedHeld,
    posted: Posted,
) -> Result<WeighedHeld, NoMemory>
    requires well_formed { IsWellFormed setting.now.model.now }
    requires kinds { HasKinds (kinds_in setting.now.model.now.vars.items)
        (env_of setting.now.cells.now) }
    requires weighed { HasWeightsOf (listed_violations weighed.violations) weighed.weights.items }
    ensures parts { IfOk result (λ w. seen_weighed w ≡
        weigh_posted (user_rules (U.viol_of setting.now.users.now)
        (U.viol_at setting.now.users.now)) (env_of setting.now.cells.now)
        (marked marks.now) setting.now.model.now system (seen_weighed weighed) posted) }
    ensures weighed { IfOk result (λ w.
        HasWeightsOf (listed_violations w.violations) w.weights.items) }
{
    let Some(member) = member_in(setting.model, Whole::System(system), posted) else {
        return Ok(weighed);
    };
    let share = term_share(setting, marks, &member.term)?;
    with_member(weighed, member, share.violation)
}

/// The members of a system, in order of posting.
#[tactic(auto, using(crate::proofs::ShareLaws::weighed_more, crate::proofs::ShareLaws::weighed_all))]
fn weighed_in<U: UserValues>(
    setting: &Setting<'_, U>,
    marks: &[bool],
    system: usize,
) -> Result<WeighedHeld, NoMemory>
    requires well_formed { IsWellFormed setting.now.model.now }
    requires kinds { HasKinds (kinds_in setting.now.model.now.vars.items)
        (env_of setting.now.cells.now) }
    ensures parts { IfOk result (λ w. seen_weighed w ≡ weighed_in (user_rules (U.viol_of setting.now.users.now) (U.viol_at setting.now.users.now)) (env_of setting.now.cells.now) (marked marks.now) setting.now.model.now system setting.now.model.now.posted.items) }
    ensures weighed { IfOk result (λ w.
        HasWeightsOf (listed_violations w.violations) w.weights.items) }
{
    let mut weighed = WeighedHeld {
        violations: Ok(Vec::new(setting.alloc)),
        weights: Vec::new(setting.alloc),
    };
    for turn in 0..setting.model.posted.len() {
        weighed = weigh_posted(setting, marks, system, weighed, setting.model.posted[turn])?;
    }
    Ok(weighed)
}

/// The total of violations, each times its weight.
fn weighted_violation(
    violations: Vec<i64>,
    weights: &[i64],
) -> Result<Result<i64, RunFault>, NoMemory>
    requires { length violations.items ≡ length weights.now }
    ensures { IfOk result (λ v. v ≡ weighted_violation (Ok violations.items) weights.now) }
{
    let mut inputs = violations;
    inputs.extend_from_slice(weights)?;
    Ok(weighted_total_value(&inputs, weights.len()))
}

#[tactic(auto, using(crate::proofs::ShareLaws::system_from))]
/// The variable's violations in a system that has a value.
fn violation_in_system<U: UserValues>(
    setting: &Setting<'_, U>,
    marks: &[bool],
    system: usize,
) -> Result<Result<i64, RunFault>, NoMemory>
    requires well_formed { IsWellFormed setting.now.model.now }
    requires kinds { HasKinds (kinds_in setting.now.model.now.vars.items)
        (env_of setting.now.cells.now) }
    ensures { IfOk result (λ v. v ≡ violation_in_system
        (user_rules (U.viol_of setting.now.users.now)
        (U.viol_at setting.now.users.now)) setting.now.model.now (env_of setting.now.cells.now)
        (marked marks.now) system) }
{
    let WeighedHeld {
        violations,
        weights,
    } = weighed_in(setting, marks, system)?;
    match violations {
        Ok(violations) => weighted_violation(violations, &weights),
        Err(fault) => Ok(Err(fault)),
    }
}

/// The answer from what the system comes to, and the variable's violations in it.
fn answered(whole: Sum, violation: Result<i64, RunFault>) -> Result<i64, AskStop>
    ensures { IsAnswer (answered whole violation) result }
{
    if let Err(failure) = whole {
        return Err(AskStop::Fault(failure.place, failure.fault));
    }
    match violation {
        Ok(violation) => Ok(violation),
        Err(fault) => Err(AskStop::Run(fault)),
    }
}

/// The violations of a variable in a system, from the tables of its model and an assignment.
#[tactic(auto, using(crate::proofs::ShareLaws::variable_from))]
fn violations_by<U: UserValues>(
    tables: &Tables<'_, U>,
    system: u32,
    var: u32,
) -> Result<i64, AskStop>
    requires well_formed { IsWellFormed tables.now.model.now }
    requires sets { HasDefinedSets tables.now.model.now }
    requires acyclic { IsAcyclic tables.now.model.now }
    requires assigned { length tables.now.assignment.now ≡ length tables.now.model.now.vars.items }
    requires tables { AreTables tables.now.model.now tables.now.definitions.items
        (map (λ names. names.items) tables.now.named.items) }
    requires system { system < length tables.now.model.now.systems.items }
    ensures { IsAnswer (variable_violations_of
        (user_rules (U.viol_of tables.now.users.now)
        (U.viol_at tables.now.users.now)) tables.now.model.now tables.now.assignment.now system var)
        result }
{
    let cells = outcomes_of(tables)?;
    let marks = marks_of(tables, var)?;
    let setting = Setting {
        alloc: tables.alloc,
        users: tables.users,
        model: tables.model,
        cells: &cells,
    };
    let whole = Whole::System(system as usize);
    let outcome = whole_outcome(tables, &setting, whole, place_of(tables.model, whole))?;
    let violation = violation_in_system(&setting, &marks, system as usize)?;
    answered(outcome, violation)
}

/// The violations of a variable in a system: in a constraint the greatest of the violations at the places
/// whose term depends on it, also through definitions, and 0 where there is none; in a combination of
/// constraints by that of its members, and in the system their total, each times its weight. The system
/// and the variable are named by their numbers, from 0.
///
/// `Fault` comes exactly where the system has one; else `Run(Overflow)` exactly where a total doesn't fit 64
/// bits. Each yields only to `NoMemory`.
pub fn variable_violations<U: UserValues>(
    alloc: Global,
    model: &Model,
    assignment: &[i64],
    users: &U,
    system: u32,
    var: u32,
) -> Result<i64, AskStop>
    requires well_formed { IsWellFormed model.now }
    requires sets { HasDefinedSets model.now }
    requires acyclic { IsAcyclic model.now }
    requires assigned { length assignment.now ≡ length model.now.vars.items }
    requires system { system < length model.now.systems.items }
    requires var { var < length model.now.vars.items }
    ensures { IsAnswer (variable_violations_of
        (user_rules (U.viol_of users.now)
        (U.viol_at users.now)) model.now assignment.now system var) result }
{
    let tables = tables_of(alloc, users, model, assignment)?;
    violations_by(&tables, system, var)
}
