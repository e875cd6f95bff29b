//! What systems and objectives come to, where it is known what the variables come to.
ghost use Rattle.std.specs.Prelude.{◌≡◌, ◌<◌, IfOk, Ok, Option, Some, length};
ghost use Rattle.std.specs.Option.{option_map};
ghost use Rattle.model_values.specs.Outcomes.{HasKinds, env_of};
ghost use Rattle.model_values.specs.Support.{member_in};
ghost use Rattle.model_values.specs.Wholes.{HasWeights, IsOf, add_posted, gather_number, listed_numbers, no_parts, parts_in, place_of, seen, sum_in, sum_of};
ghost use Rattle.term_model.specs.Kinds.{kinds_in};
ghost use Rattle.term_model.specs.Users.{user_rules};
ghost use Rattle.term_model.specs.Wellformed.{IsWellFormed};

use crate::evaluation::{Outcome, Setting, term_outcome};
use crate::failure::Failure;
use cbl_base::{NoMemory, Place};
use operation_values::violating::weighted_total_value;
use operation_values::{UserValues, number_of};
use std::alloc::Global;
use term_model::{Member, Model, Posted};

/// A system or an objective, by its number from 0.
#[derive(Clone, Copy, PartialEq, Eq, Debug)]
pub enum Whole {
    System(usize),
    Objective(usize),
}

/// Where a system or an objective was declared.
pub fn place_of(model: &Model, whole: Whole) -> Place
    requires { IsOf model.now whole }
    ensures { result ≡ place_of model.now whole }
{
    match whole {
        Whole::System(s) => model.systems[s].place,
        Whole::Objective(o) => model.objectives[o].place,
    }
}

/// The member that was posted, where it is one of the system or objective.
pub fn member_in(model: &Model, whole: Whole, posted: Posted) -> Option<&Member>
    ensures { option_map (λ m. m.now) result ≡ member_in model.now whole posted }
{
    let (totals, number, member) = match (whole, posted) {
        (Whole::System(s), Posted::Constrain { system, member }) if system as usize == s => {
            (&model.systems, s, member)
        }
        (Whole::Objective(o), Posted::Part { objective, member }) if objective as usize == o => {
            (&model.objectives, o, member)
        }
        _ => return None,
    };
    totals.get(number)?.members.get(member as usize)
}

/// The numbers of members so far, where all have one, and their weights.
#[derive(Drop)]
pub struct PartsHeld {
    pub numbers: Option<Vec<i64>>,
    pub weights: Vec<i64>,
}

/// No parts.
pub fn no_parts(alloc: Global) -> PartsHeld
    ensures parts { seen result ≡ no_parts }
    ensures weighed { HasWeights (listed_numbers result.numbers) result.weights.items }
{
    PartsHeld {
        numbers: Some(Vec::new(alloc)),
        weights: Vec::new(alloc),
    }
}

/// The numbers so far and one more, where all have one.
fn gather_number(so_far: Option<Vec<i64>>, outcome: Outcome) -> Result<Option<Vec<i64>>, NoMemory>
    ensures { IfOk result (λ r. listed_numbers r ≡ gather_number (listed_numbers so_far) outcome) }
{
    match (so_far, outcome) {
        (Some(mut numbers), Some(value)) => {
            numbers.push(number_of(&value))?;
            Ok(Some(numbers))
        }
        (Some(_), None) => Ok(None),
        (None, _) => Ok(None),
    }
}

/// The parts so far and what was posted, where it is one of them.
#[tactic(auto, using(crate::proofs::PartLaws::member_kinded, crate::proofs::PartLaws::part_added, crate::proofs::PartLaws::part_weighed))]
pub fn add_posted<U: UserValues>(
    setting: &Setting<'_, U>,
    whole: Whole,
    parts: PartsHeld,
    posted: Posted,
) -> Result<PartsHeld, NoMemory>
    requires well_formed { IsWellFormed setting.now.model.now }
    requires kinds { HasKinds (kinds_in setting.now.model.now.vars.items)
        (env_of setting.now.cells.now) }
    requires weighed { HasWeights (listed_numbers parts.numbers) parts.weights.items }
    ensures parts { IfOk result (λ p. seen p ≡
        add_posted (user_rules (U.viol_of setting.now.users.now) (U.viol_at setting.now.users.now))
        (env_of setting.now.cells.now) setting.now.model.now whole (seen parts) posted) }
    ensures weighed { IfOk result (λ p. HasWeights (listed_numbers p.numbers) p.weights.items) }
{
    let Some(member) = member_in(setting.model, whole, posted) else {
        return Ok(parts);
    };
    let outcome = term_outcome(setting, &member.term)?;
    let numbers = gather_number(parts.numbers, outcome)?;
    let mut weights = parts.weights;
    weights.push(member.weight)?;
    Ok(PartsHeld { numbers, weights })
}

/// The parts of a system or an objective, in order of posting.
fn parts_of<U: UserValues>(setting: &Setting<'_, U>, whole: Whole) -> Result<PartsHeld, NoMemory>
    requires well_formed { IsWellFormed setting.now.model.now }
    requires kinds { HasKinds (kinds_in setting.now.model.now.vars.items)
        (env_of setting.now.cells.now) }
    ensures parts { IfOk result (λ p. seen p ≡ parts_in (user_rules (U.viol_of setting.now.users.now) (U.viol_at setting.now.users.now)) (env_of setting.now.cells.now) setting.now.model.now whole setting.now.model.now.posted.items) }
    ensures weighed { IfOk result (λ p. HasWeights (listed_numbers p.numbers) p.weights.items) }
{
    let mut parts = no_parts(setting.alloc);
    for turn in 0..setting.model.posted.len() {
        parts = add_posted(setting, whole, parts, setting.model.posted[turn])?;
    }
    Ok(parts)
}

/// A total, or its failure at the place where it was declared.
pub type Sum = Result<i64, Failure>;

/// The total of the parts of a system or an objective that was declared at this place, where all have a number.
pub fn sum_of(alloc: Global, place: Place, parts: &PartsHeld) -> Result<Option<Sum>, NoMemory>
    requires { HasWeights (listed_numbers parts.now.numbers) parts.now.weights.items }
    ensures { IfOk result (λ o. o ≡ sum_of place
        (listed_numbers parts.now.numbers) parts.now.weights.items) }
{
    let Some(numbers) = &parts.numbers else {
        return Ok(None);
    };
    let mut inputs = Vec::from_slice(alloc, numbers)?;
    inputs.extend_from_slice(&parts.weights)?;
    match weighted_total_value(&inputs, parts.weights.len()) {
        Ok(total) => Ok(Some(Ok(total))),
        Err(fault) => Ok(Some(Err(Failure { place, fault }))),
    }
}

/// The total of a system or an objective that was declared at this place, where its members have values.
#[tactic(auto, using(crate::proofs::PartLaws::sum_from))]
pub fn sum_in<U: UserValues>(
    setting: &Setting<'_, U>,
    whole: Whole,
    place: Place,
) -> Result<Option<Sum>, NoMemory>
    requires well_formed { IsWellFormed setting.now.model.now }
    requires kinds { HasKinds (kinds_in setting.now.model.now.vars.items)
        (env_of setting.now.cells.now) }
    ensures { IfOk result (λ o. o ≡ sum_in
        (user_rules (U.viol_of setting.now.users.now)
        (U.viol_at setting.now.users.now)) setting.now.model.now
        (env_of setting.now.cells.now) whole place) }
{
    let parts = parts_of(setting, whole)?;
    sum_of(setting.alloc, place, &parts)
}
