//! What all systems, or all objectives, come to: what was posted is looked at once, and each member goes to
//! its own.
ghost use Rattle.std.specs.Prelude.{◌≡◌, ◌<◌, ◌++◌, [], ◌∷◌, ℕ, IfOk, OnOk, Ok, Some, List, length, replicate};
ghost use Rattle.std.specs.List.{All, enumerate_from};
ghost use Rattle.model_values.specs.AllParts.{AreParts, AreWeighed, IsWeighed, all_seen};
ghost use Rattle.model_values.specs.Fresh.{add_sum, first_of, fresh_sums, gather_sum, listed_sums, whole_by};
ghost use Rattle.term_model.specs.Posting.{totals_by};
ghost use Rattle.term_model.specs.Kinds.{kinds_in};
ghost use Rattle.model_values.specs.Outcomes.{HasKinds, env_of};
ghost use Rattle.term_model.specs.Users.{user_rules};
ghost use Rattle.term_model.specs.Wellformed.{IsWellFormed};
ghost use Rattle.model_values.specs.Wholes.{listed_numbers, no_parts, seen};
ghost use Rattle.term_model.specs.declared.model.Posted.{Posted};

use crate::evaluation::Setting;
use crate::failure::Failure;
use crate::wholes::{PartsHeld, Sum, Whole, add_posted, no_parts, sum_of};
use cbl_base::NoMemory;
use operation_values::UserValues;
use std::alloc::Global;
use std::mem;
use term_model::{Posted, Side, Total, posting_of, totals_by};

/// The system or the objective with a number.
fn whole_by(side: Side, number: usize) -> Whole
    ensures { result ≡ whole_by side number }
{
    match side {
        Side::Systems => Whole::System(number),
        Side::Objectives => Whole::Objective(number),
    }
}

/// The parts so far, and what was posted with those of its own system or objective.
fn add_to_parts<U: UserValues>(
    setting: &Setting<'_, U>,
    side: Side,
    parts: &mut Vec<PartsHeld>,
    posted: Posted,
) -> Result<(), NoMemory>
    requires well_formed { IsWellFormed setting.now.model.now }
    requires kinds { HasKinds (kinds_in setting.now.model.now.vars.items)
        (env_of setting.now.cells.now) }
    requires weighed { AreWeighed parts.old.items }
    ensures parts { OnOk result ((so_far : List Posted) →
        AreParts (user_rules (U.viol_of setting.now.users.now) (U.viol_at setting.now.users.now)) (env_of setting.now.cells.now) setting.now.model.now side so_far (all_seen parts.old.items) →
        AreParts (user_rules (U.viol_of setting.now.users.now) (U.viol_at setting.now.users.now)) (env_of setting.now.cells.now) setting.now.model.now side (so_far ++ posted ∷ []) (all_seen parts.new.items)) }
    ensures weighed { OnOk result (AreWeighed parts.new.items) }
{
    let Some(posting) = posting_of(side, posted) else {
        return Ok(());
    };
    let number = posting.total as usize;
    if number >= parts.len() {
        return Ok(());
    }
    let held = mem::replace(&mut parts[number], no_parts(setting.alloc));
    let whole = whole_by(side, number);
    parts[number] = add_posted(setting, whole, held, posted)?;
    Ok(())
}

/// No parts of each.
fn none_held(alloc: Global, count: usize) -> Result<Vec<PartsHeld>, NoMemory>
    ensures parts { IfOk result (λ v. all_seen v.items ≡ replicate count no_parts) }
    ensures weighed { IfOk result (λ v. AreWeighed v.items) }
{
    let mut parts = Vec::new(alloc);
    for _number in 0..count {
        parts.push(no_parts(alloc))?;
    }
    Ok(parts)
}

/// The parts of all systems, or of all objectives, each in order of posting.
#[tactic(auto, using(crate::proofs::AllPartsLaws::parts_start))]
fn all_parts<U: UserValues>(
    setting: &Setting<'_, U>,
    side: Side,
) -> Result<Vec<PartsHeld>, NoMemory>
    requires well_formed { IsWellFormed setting.now.model.now }
    requires kinds { HasKinds (kinds_in setting.now.model.now.vars.items)
        (env_of setting.now.cells.now) }
    ensures parts { IfOk result (λ v. AreParts
        (user_rules (U.viol_of setting.now.users.now) (U.viol_at setting.now.users.now))
        (env_of setting.now.cells.now) setting.now.model.now side setting.now.model.now.posted.items
        (all_seen v.items)) }
    ensures weighed { IfOk result (λ v. AreWeighed v.items) }
{
    let mut parts = none_held(setting.alloc, totals_by(setting.model, side).len())?;
    for turn in 0..setting.model.posted.len() {
        add_to_parts(setting, side, &mut parts, setting.model.posted[turn])?;
    }
    Ok(parts)
}

/// The totals so far, or the first that doesn't fit; none where a member has no value.
pub(crate) type Sums = Option<Result<Vec<i64>, Failure>>;

/// The totals so far and one more, or the first that doesn't fit.
fn first_of(
    sums: Result<Vec<i64>, Failure>,
    sum: Sum,
) -> Result<Result<Vec<i64>, Failure>, NoMemory>
    ensures { IfOk result (λ r. listed_sums (Some r) ≡
        gather_sum (listed_sums (Some sums)) (Some sum)) }
{
    match (sums, sum) {
        (Ok(mut sums), Ok(sum)) => {
            sums.push(sum)?;
            Ok(Ok(sums))
        }
        (Ok(_), Err(failure)) => Ok(Err(failure)),
        (Err(failure), _) => Ok(Err(failure)),
    }
}

/// The same, where all members have values.
fn gather_sum(so_far: Sums, sum: Option<Sum>) -> Result<Sums, NoMemory>
    ensures { IfOk result (λ r. listed_sums r ≡ gather_sum (listed_sums so_far) sum) }
{
    match (so_far, sum) {
        (Some(sums), Some(sum)) => Ok(Some(first_of(sums, sum)?)),
        (Some(_), None) => Ok(None),
        (None, _) => Ok(None),
    }
}

/// The totals so far and that of one more system or objective.
#[tactic(auto, using(crate::proofs::AllPartsLaws::part_there, crate::proofs::PartLaws::sum_from))]
fn add_sum<U: UserValues>(
    setting: &Setting<'_, U>,
    side: Side,
    parts: &[PartsHeld],
    so_far: Sums,
    number: usize,
    total: &Total,
) -> Result<Sums, NoMemory>
    requires parts { AreParts (user_rules (U.viol_of setting.now.users.now)
        (U.viol_at setting.now.users.now))
        (env_of setting.now.cells.now) setting.now.model.now side setting.now.model.now.posted.items
        (all_seen parts.now) }
    requires weighed { AreWeighed parts.now }
    requires within { number < length parts.now }
    ensures { IfOk result (λ r. listed_sums r ≡
        add_sum (user_rules (U.viol_of setting.now.users.now)
        (U.viol_at setting.now.users.now)) setting.now.model.now (env_of setting.now.cells.now) side
        (listed_sums so_far) (number, total.now)) }
{
    let sum = sum_of(setting.alloc, total.place, &parts[number])?;
    gather_sum(so_far, sum)
}

/// The totals of all systems or of all objectives, or the first that doesn't fit; none where a member has no
/// value.
#[tactic(auto, using(crate::proofs::TotalSteps::sums_all))]
pub(crate) fn sums_in<U: UserValues>(setting: &Setting<'_, U>, side: Side) -> Result<Sums, NoMemory>
    requires well_formed { IsWellFormed setting.now.model.now }
    requires kinds { HasKinds (kinds_in setting.now.model.now.vars.items)
        (env_of setting.now.cells.now) }
    ensures { IfOk result (λ r. listed_sums r ≡
        fresh_sums (user_rules (U.viol_of setting.now.users.now)
        (U.viol_at setting.now.users.now)) setting.now.model.now
        (env_of setting.now.cells.now) side) }
{
    let totals = totals_by(setting.model, side);
    let parts = all_parts(setting, side)?;
    let mut so_far = Some(Ok(Vec::new(setting.alloc)));
    for number in 0..totals.len() {
        so_far = add_sum(setting, side, &parts, so_far, number, &totals[number])?;
    }
    Ok(so_far)
}
