//! The failure of the least numbered subterm on which a model, a system or an objective stands.
ghost use Rattle.std.specs.Prelude.{◌≡◌, ◌++◌, [], ◌∷◌, ℕ, List, IfOk, OnOk, filter, map, slice_get, unwrap_or};
ghost use Rattle.std.specs.List.{find, list_any};
ghost use Rattle.std.specs.Option.{option_and_then, option_map};
ghost use Rattle.cbl_base.specs.NumberRule.{NumberRule};
ghost use Rattle.model_values.specs.Failing.{AreFailing};
ghost use Rattle.model_values.specs.Failures.{failure_of, fails, first_failure, no_failure};
ghost use Rattle.model_values.specs.Outcomes.{HasKinds, Outcome, env_of};
ghost use Rattle.model_values.specs.Settling.{AreTables};
ghost use Rattle.model_values.specs.Support.{AreReached, failure_below, roots_in, supports};
ghost use Rattle.term_model.specs.Definitions.{IsAcyclic};
ghost use Rattle.term_model.specs.Kinds.{kinds_in};
ghost use Rattle.term_model.specs.Posting.{term_posted};
ghost use Rattle.term_model.specs.SameTerms.{same_term};
ghost use Rattle.term_model.specs.Subterms.{distinct_subterms, subterms_posted, subterms_where};
ghost use Rattle.term_model.specs.Users.{user_rules};
ghost use Rattle.term_model.specs.Wellformed.{IsWellFormed};
ghost use Rattle.term_model.specs.declared.term.Term.{Term};

use crate::dependence::is_marked;
use crate::evaluation::{Failing, Setting, evaluate};
use crate::failure::Failure;
use crate::reach::{reached, roots_of};
use crate::settling::Tables;
use crate::wholes::{Whole, member_in};
use cbl_base::NoMemory;
use operation_values::UserValues;
use term_model::{Definition, Model, Posted, Term, same_term, term_posted};

/// Puts the subterms that fail in what was posted behind those in the list.
#[tactic(auto, using(crate::proofs::FailureLaws::posted_kinded, crate::proofs::FailureLaws::none_posted, crate::proofs::FailureLaws::some_posted))]
fn push_failing<'a, U: UserValues>(
    setting: &Setting<'a, U>,
    posted: Posted,
    into: &mut Vec<Failing<'a>>,
) -> Result<(), NoMemory>
    requires well_formed { IsWellFormed setting.now.model.now }
    requires kinds { HasKinds (kinds_in setting.now.model.now.vars.items)
        (env_of setting.now.cells.now) }
    ensures { OnOk result ((before : List Term) → AreFailing (user_rules (U.viol_of setting.now.users.now) (U.viol_at setting.now.users.now)) (env_of setting.now.cells.now) into.old.items before →
        AreFailing (user_rules (U.viol_of setting.now.users.now) (U.viol_at setting.now.users.now)) (env_of setting.now.cells.now) into.new.items (before ++ filter (fails (user_rules (U.viol_of setting.now.users.now) (U.viol_at setting.now.users.now)) (env_of setting.now.cells.now)) (subterms_where (term_posted setting.now.model.now posted)))) }
{
    let Some(term) = term_posted(setting.model, posted) else {
        return Ok(());
    };
    evaluate(setting, term, into)?;
    Ok(())
}

/// The subterms of a model that fail, in order of posting and each term's in post-order.
fn all_failing<'a, U: UserValues>(setting: &Setting<'a, U>) -> Result<Vec<Failing<'a>>, NoMemory>
    requires well_formed { IsWellFormed setting.now.model.now }
    requires kinds { HasKinds (kinds_in setting.now.model.now.vars.items)
        (env_of setting.now.cells.now) }
    ensures { IfOk result (λ v. AreFailing
        (user_rules (U.viol_of setting.now.users.now) (U.viol_at setting.now.users.now))
        (env_of setting.now.cells.now) v.items
        (filter (fails (user_rules (U.viol_of setting.now.users.now)
        (U.viol_at setting.now.users.now)) (env_of setting.now.cells.now))
        (subterms_posted setting.now.model.now setting.now.model.now.posted.items))) }
{
    let mut failing = Vec::new(setting.alloc);
    for turn in 0..setting.model.posted.len() {
        push_failing(setting, setting.model.posted[turn], &mut failing)?;
    }
    Ok(failing)
}

/// The variable of a definition, where there is one with this number.
fn variable_defined(defs: &[Definition], number: u32) -> Option<u32>
    ensures { result ≡ option_map (λ d. d.var.index) (slice_get defs.now number) }
{
    match defs.get(number as usize) {
        Some(definition) => Some(definition.var.index),
        None => None,
    }
}

/// Whether a system or an objective stands on what was posted, where the marks are on the variables on which its
/// members depend.
fn supports(model: &Model, whole: Whole, marks: &[bool], posted: Posted) -> bool
    requires well_formed { IsWellFormed model.now }
    requires marks { AreReached model.now
        (roots_in model.now whole model.now.posted.items) marks.now }
    ensures { result ≡ supports model.now whole posted }
{
    match posted {
        Posted::Define(number) => match variable_defined(&model.defs, number) {
            Some(var) => is_marked(marks, var as usize),
            None => false,
        },
        Posted::Constrain {
            system: _,
            member: _,
        } => member_in(model, whole, posted).is_some(),
        Posted::Part {
            objective: _,
            member: _,
        } => member_in(model, whole, posted).is_some(),
    }
}

/// Puts the subterms that fail in what was posted behind those in the list, where the system or objective stands
/// on it.
#[tactic(auto, using(crate::proofs::FailureLaws::one_supports, crate::proofs::FailureLaws::none_supports))]
fn push_supporting<'a, U: UserValues>(
    setting: &Setting<'a, U>,
    whole: Whole,
    marks: &[bool],
    posted: Posted,
    into: &mut Vec<Failing<'a>>,
) -> Result<(), NoMemory>
    requires well_formed { IsWellFormed setting.now.model.now }
    requires kinds { HasKinds (kinds_in setting.now.model.now.vars.items)
        (env_of setting.now.cells.now) }
    requires marks { AreReached setting.now.model.now
        (roots_in setting.now.model.now whole setting.now.model.now.posted.items) marks.now }
    ensures { OnOk result ((before : List Term) → AreFailing (user_rules (U.viol_of setting.now.users.now) (U.viol_at setting.now.users.now)) (env_of setting.now.cells.now) into.old.items before →
        AreFailing (user_rules (U.viol_of setting.now.users.now) (U.viol_at setting.now.users.now)) (env_of setting.now.cells.now) into.new.items (before ++ filter (fails (user_rules (U.viol_of setting.now.users.now) (U.viol_at setting.now.users.now)) (env_of setting.now.cells.now)) (subterms_posted setting.now.model.now (filter (supports setting.now.model.now whole) (posted ∷ []))))) }
{
    if supports(setting.model, whole, marks, posted) {
        push_failing(setting, posted, into)
    } else {
        Ok(())
    }
}

/// The subterms that fail of all on which a system or an objective stands.
fn supporting_failing<'a, U: UserValues>(
    setting: &Setting<'a, U>,
    whole: Whole,
    marks: &[bool],
) -> Result<Vec<Failing<'a>>, NoMemory>
    requires well_formed { IsWellFormed setting.now.model.now }
    requires kinds { HasKinds (kinds_in setting.now.model.now.vars.items)
        (env_of setting.now.cells.now) }
    requires marks { AreReached setting.now.model.now
        (roots_in setting.now.model.now whole setting.now.model.now.posted.items) marks.now }
    ensures { IfOk result (λ v. AreFailing (user_rules (U.viol_of setting.now.users.now) (U.viol_at setting.now.users.now)) (env_of setting.now.cells.now) v.items (filter (fails (user_rules (U.viol_of setting.now.users.now) (U.viol_at setting.now.users.now)) (env_of setting.now.cells.now)) (subterms_posted setting.now.model.now (filter (supports setting.now.model.now whole) setting.now.model.now.posted.items)))) }
{
    let mut failing = Vec::new(setting.alloc);
    for turn in 0..setting.model.posted.len() {
        push_supporting(
            setting,
            whole,
            marks,
            setting.model.posted[turn],
            &mut failing,
        )?;
    }
    Ok(failing)
}

/// Whether a term is equal to one of the others.
fn is_among(term: &Term, others: &[Failing<'_>]) -> bool
    ensures { result ≡ list_any (same_term term.now) (map (λ f. f.term.now) others.now) }
{
    for other in others {
        if same_term(term, other.term) {
            return true;
        }
    }
    false
}

/// The failure of the first of some subterms that is equal to one of the others.
fn first_among(failing: &[Failing<'_>], others: &[Failing<'_>]) -> Option<Failure>
    ensures { (users : ℕ → NumberRule) (env : ℕ → Outcome) (ts us : List Term) → AreFailing users env failing.now ts → AreFailing users env others.now us →
        option_and_then (failure_of users env) (find (λ t. list_any (same_term t) us) ts) ≡ result }
{
    for found in failing {
        if is_among(found.term, others) {
            return Some(found.failure);
        }
    }
    None
}

/// The failure of the first of some subterms.
fn first_of(failing: &[Failing<'_>]) -> Option<Failure>
    ensures { (users : ℕ → NumberRule) (env : ℕ → Outcome) (ts : List Term) → AreFailing users env failing.now ts →
        option_and_then (failure_of users env) (slice_get ts 0) ≡ result }
{
    match failing.get(0) {
        Some(found) => Some(found.failure),
        None => None,
    }
}

/// The failure of the least numbered subterm that fails, where one does.
#[tactic(auto, using(crate::proofs::FailureLaws::first_failing))]
pub(crate) fn least_failure<U: UserValues>(setting: &Setting<'_, U>) -> Result<Failure, NoMemory>
    requires well_formed { IsWellFormed setting.now.model.now }
    requires kinds { HasKinds (kinds_in setting.now.model.now.vars.items)
        (env_of setting.now.cells.now) }
    ensures { IfOk result (λ f. f ≡ unwrap_or
        (first_failure (user_rules (U.viol_of setting.now.users.now)
        (U.viol_at setting.now.users.now)) (env_of setting.now.cells.now)
        (distinct_subterms setting.now.model.now)) no_failure) }
{
    let failing = all_failing(setting)?;
    Ok(first_of(&failing).unwrap_or(Failure::none()))
}

/// The failure of the least numbered subterm that fails of those on which a system or an objective stands.
#[tactic(auto, using(crate::proofs::FailureLaws::first_below, crate::proofs::ReachLaws::roots_within))]
pub(crate) fn least_failure_below<U: UserValues>(
    tables: &Tables<'_, U>,
    setting: &Setting<'_, U>,
    whole: Whole,
) -> Result<Failure, NoMemory>
    requires same { tables.now.model.now ≡ setting.now.model.now }
    requires well_formed { IsWellFormed setting.now.model.now }
    requires acyclic { IsAcyclic setting.now.model.now }
    requires tables { AreTables tables.now.model.now tables.now.definitions.items
        (map (λ names. names.items) tables.now.named.items) }
    requires kinds { HasKinds (kinds_in setting.now.model.now.vars.items)
        (env_of setting.now.cells.now) }
    ensures { IfOk result (λ f. f ≡ unwrap_or
        (failure_below (user_rules (U.viol_of setting.now.users.now)
        (U.viol_at setting.now.users.now)) setting.now.model.now
        (env_of setting.now.cells.now) whole) no_failure) }
{
    let roots = roots_of(tables, whole)?;
    let marks = reached(tables, &roots)?;
    let supporting = supporting_failing(setting, whole, &marks)?;
    let failing = all_failing(setting)?;
    Ok(first_among(&failing, &supporting).unwrap_or(Failure::none()))
}
