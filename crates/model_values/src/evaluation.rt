//! What terms come to, where it is known what the variables come to; and which subterms fail.
ghost use Rattle.std.specs.Prelude.{◌≡◌, ◌++◌, List, Some, IsSome, IfOk, IfSome, filter};
ghost use Rattle.cbl_base.specs.Inputs.{kind_of};
ghost use Rattle.cbl_base.specs.declared.input.Input.TheVariants.{Set};
ghost use Rattle.model_values.specs.Failing.{AreFailing};
ghost use Rattle.model_values.specs.Failures.{fails};
ghost use Rattle.model_values.specs.Outcomes.{HasKinds, env_of, gather, known, listed, outcome_of};
ghost use Rattle.term_model.specs.Kinds.{kind_of_term, kinds_in};
ghost use Rattle.term_model.specs.Subterms.{subterms};
ghost use Rattle.term_model.specs.Users.{user_rules};
ghost use Rattle.term_model.specs.declared.term.Term.{Term};

use crate::failure::Failure;
use cbl_base::{Input, IntSet, NoMemory};
use operation_values::{UserValues, value_of};
use std::alloc::Global;
use term_model::{Model, Term};

/// What a term comes to: its value, or none.
pub type Outcome = Option<Input>;

/// What a term is evaluated in: what computes the users' constraints, the model, and what its variables come to
/// as far as that is known.
#[derive(Drop)]
pub struct Setting<'a, U> {
    pub alloc: Global,
    pub users: &'a U,
    pub model: &'a Model,
    pub cells: &'a [Option<Outcome>],
}

/// A subterm that fails, and its failure.
#[derive(Clone, Copy)]
pub struct Failing<'a> {
    pub term: &'a Term,
    pub failure: Failure,
}

/// The values of several terms, where all have one.
pub type Gathered = Option<Vec<Input>>;

/// The values so far and one more, where all have one.
pub fn gather(so_far: Gathered, outcome: Outcome) -> Result<Gathered, NoMemory>
    ensures { IfOk result (λ r. listed r ≡ gather (listed so_far) outcome) }
{
    match (so_far, outcome) {
        (Some(mut values), Some(value)) => {
            values.push(value)?;
            Ok(Some(values))
        }
        (Some(_), None) => Ok(None),
        (None, _) => Ok(None),
    }
}

/// A set as a value.
pub fn set_value(set: &IntSet) -> Result<Input, NoMemory>
    ensures { IfOk result (λ x. x ≡ Set set.now) }
{
    Ok(Input::Set(set.clone()?))
}

/// The value in a cell again, where one is known.
pub fn copied_outcome(cell: &Option<Outcome>) -> Result<Outcome, NoMemory>
    ensures { IfOk result (λ o. o ≡ known (Some cell.now)) }
{
    match cell {
        Some(outcome) => Ok(outcome.clone()?),
        None => Ok(None),
    }
}

/// What a variable comes to, where it is known.
pub fn outcome_at(cells: &[Option<Outcome>], index: u32) -> Result<Outcome, NoMemory>
    ensures { IfOk result (λ o. o ≡ env_of cells.now index) }
{
    match cells.get(index as usize) {
        Some(cell) => copied_outcome(cell),
        None => Ok(None),
    }
}

/// What a term comes to. Its subterms that fail are put behind those in the list, in post-order.
#[tactic(auto, using(crate::proofs::Layers::inputs_of_term, crate::proofs::Layers::kind_of_outcome, crate::proofs::Kinded::kinds_gather))]
pub fn evaluate<'a, U: UserValues>(
    setting: &Setting<'_, U>,
    term: &'a Term,
    failing: &mut Vec<Failing<'a>>,
) -> Result<Outcome, NoMemory>
    requires kinds { HasKinds (kinds_in setting.now.model.now.vars.items)
        (env_of setting.now.cells.now) }
    requires well_kinded { IsSome (kind_of_term
        (kinds_in setting.now.model.now.vars.items) term.now) }
    ensures outcome { IfOk result (λ o.
        o ≡ outcome_of (user_rules (U.viol_of setting.now.users.now)
        (U.viol_at setting.now.users.now)) (env_of setting.now.cells.now) term.now) }
    ensures kind { IfOk result (λ o. IfSome o (λ x.
        kind_of_term (kinds_in setting.now.model.now.vars.items) term.now ≡ Some (kind_of x))) }
    ensures failing { IfOk result (λ _. (before : List Term) → AreFailing (user_rules (U.viol_of setting.now.users.now) (U.viol_at setting.now.users.now)) (env_of setting.now.cells.now) failing.old.items before →
        AreFailing (user_rules (U.viol_of setting.now.users.now) (U.viol_at setting.now.users.now)) (env_of setting.now.cells.now) failing.new.items (before ++ filter (fails (user_rules (U.viol_of setting.now.users.now) (U.viol_at setting.now.users.now)) (env_of setting.now.cells.now)) (subterms term.now))) }
{
    match term {
        Term::Const(x) => Ok(Some(Input::Int(*x))),
        Term::ConstSet(set) => Ok(Some(set_value(set)?)),
        Term::Var(v) => outcome_at(setting.cells, v.index),
        Term::Node { op, args, place } => {
            let mut so_far = Some(Vec::new(setting.alloc));
            for arg in args {
                let outcome = evaluate(setting, arg, failing)?;
                so_far = gather(so_far, outcome)?;
            }
            match so_far {
                Some(inputs) => match value_of(setting.alloc, setting.users, op, &inputs)? {
                    Ok(value) => Ok(Some(value)),
                    Err(fault) => {
                        let place = *place;
                        let failure = Failure { place, fault };
                        failing.push(Failing { term, failure })?;
                        Ok(None)
                    }
                },
                None => Ok(None),
            }
        }
    }
}

/// What a term comes to.
pub fn term_outcome<U: UserValues>(
    setting: &Setting<'_, U>,
    term: &Term,
) -> Result<Outcome, NoMemory>
    requires kinds { HasKinds (kinds_in setting.now.model.now.vars.items)
        (env_of setting.now.cells.now) }
    requires well_kinded { IsSome (kind_of_term
        (kinds_in setting.now.model.now.vars.items) term.now) }
    ensures outcome { IfOk result (λ o.
        o ≡ outcome_of (user_rules (U.viol_of setting.now.users.now)
        (U.viol_at setting.now.users.now)) (env_of setting.now.cells.now) term.now) }
    ensures kind { IfOk result (λ o. IfSome o (λ x.
        kind_of_term (kinds_in setting.now.model.now.vars.items) term.now ≡ Some (kind_of x))) }
{
    let mut failing = Vec::new(setting.alloc);
    let outcome = evaluate(setting, term, &mut failing)?;
    Ok(outcome)
}
