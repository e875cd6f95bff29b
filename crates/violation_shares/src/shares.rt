//! What each term gives to the violations of a variable in a system.
ghost use Rattle.std.specs.Prelude.{◌≡◌, ◌++◌, [], ◌∷◌, ℕ, ℤ, Option, Some, None, IsSome, IsTrue, IfOk, IfSome, IsOk, Ok, Err, length, map, filter, pos, true};
ghost use Rattle.std.specs.List.{list_any, range_with_len};
ghost use Rattle.cbl_base.specs.Inputs.{kind_of, kinds_of, number_of};
ghost use Rattle.cbl_operations.specs.Operations.Greatest.{greatest_of};
ghost use Rattle.cbl_operations.specs.RuleOf.{rule_of};
ghost use Rattle.model_values.specs.Dependence.{marked};
ghost use Rattle.term_model.specs.Kinds.{kinds_in, kind_of_term};
ghost use Rattle.model_values.specs.Outcomes.{HasKinds, env_of};
ghost use Rattle.term_model.specs.Users.{user_rules};
ghost use Rattle.violation_shares.specs.VariableViolations.{combination_of, gather_violation, fewer, number_if, with_argument, no_arguments, seen_arguments, listed_violations, violations_where, total_violation, violation_of_fewest, one_depends, violation_by, node_share, leaf_share, share_of};

use cbl_base::{Input, NoMemory, RunFault};
use cbl_operations::{NaryOp, Op};
use cbl_violations::{Constraint, all_of_violations};
use model_values::computing::{UserValues, number_of, value_of, violation_at};
use model_values::dependence::is_marked;
use model_values::evaluation::{Outcome, Setting, gather, outcome_at, set_value};
use std::alloc::Global;
use term_model::Term;

/// What a term comes to, whether it depends on the variable, and the variable's violations in it, or why
/// these don't fit.
#[derive(Drop)]
pub(crate) struct Share {
    pub(crate) outcome: Outcome,
    pub(crate) depends: bool,
    pub(crate) violation: Result<i64, RunFault>,
}

/// A member's own violations, and the variable's violations in it.
#[derive(Clone, Copy)]
pub(crate) struct Fewest {
    pub(crate) number: i64,
    pub(crate) violation: Result<i64, RunFault>,
}

/// How a constraint is made of others: all are to hold, or one, or the only one isn't to hold; or it is plain.
#[derive(Clone, Copy)]
pub(crate) enum Combination {
    Every,
    One,
    Negation,
    Plain,
}

/// What the arguments of a node give, so far: which depend on the variable, its violations in each, and
/// the first member with the least violations.
#[derive(Drop)]
pub(crate) struct ArgumentsHeld {
    pub(crate) depends: Vec<bool>,
    pub(crate) violations: Result<Vec<i64>, RunFault>,
    pub(crate) fewest: Option<Fewest>,
}

/// How a constraint is made of others.
fn combination_of(op: &Op) -> Combination
    ensures { result ≡ combination_of op.now }
{
    match op {
        Op::Constraint(Constraint::AllOf) => Combination::Every,
        Op::Constraint(Constraint::AnyOf) => Combination::One,
        Op::Constraint(Constraint::NotHeld) => Combination::Negation,
        _ => Combination::Plain,
    }
}

/// The violations so far and one more, where all fit.
pub(crate) fn gather_violation(
    so_far: Result<Vec<i64>, RunFault>,
    violation: Result<i64, RunFault>,
) -> Result<Result<Vec<i64>, RunFault>, NoMemory>
    ensures { IfOk result (λ r. listed_violations r ≡
        gather_violation (listed_violations so_far) violation) }
{
    match (so_far, violation) {
        (Ok(mut violations), Ok(violation)) => {
            violations.push(violation)?;
            Ok(Ok(violations))
        }
        (Ok(_), Err(fault)) => Ok(Err(fault)),
        (Err(fault), _) => Ok(Err(fault)),
    }
}

/// Of two members the one with fewer violations, the first where they have as many.
fn fewer(first: Option<Fewest>, member: Fewest) -> Fewest
    ensures { result ≡ fewer first member }
{
    match first {
        Some(first) => {
            if member.number < first.number {
                member
            } else {
                first
            }
        }
        None => member,
    }
}

/// The number that a term comes to, 0 for a set or where it has no value.
fn number_if(outcome: &Outcome) -> i64
    ensures { result ≡ number_if outcome.now }
{
    match outcome {
        Some(value) => number_of(value),
        None => 0,
    }
}

/// No arguments.
fn no_arguments(alloc: Global) -> ArgumentsHeld
    ensures { seen_arguments result ≡ no_arguments }
{
    ArgumentsHeld {
        depends: Vec::new(alloc),
        violations: Ok(Vec::new(alloc)),
        fewest: None,
    }
}

/// What the arguments give so far, and one more.
fn with_argument(args: ArgumentsHeld, share: &Share) -> Result<ArgumentsHeld, NoMemory>
    ensures { IfOk result (λ a. seen_arguments a ≡ with_argument (seen_arguments args) share.now) }
{
    let member = Fewest {
        number: number_if(&share.outcome),
        violation: share.violation,
    };
    let violations = gather_violation(args.violations, share.violation)?;
    let mut depends = args.depends;
    depends.push(share.depends)?;
    Ok(ArgumentsHeld {
        depends,
        violations,
        fewest: Some(fewer(args.fewest, member)),
    })
}

#[tactic(auto, using(crate::proofs::ShareLaws::place_found, crate::proofs::ShareLaws::place_skipped))]
/// The violations at the places whose argument depends on the variable.
fn violations_where<U: UserValues>(
    alloc: Global,
    users: &U,
    op: &Op,
    inputs: &[Input],
    depends: &[bool],
) -> Result<Vec<i64>, NoMemory>
    requires takes { IsTrue ((rule_of (user_rules (U.viol_of users.now)
        (U.viol_at users.now)) op.now).takes (kinds_of inputs.now)) }
    requires valued { IsOk ((rule_of (user_rules (U.viol_of users.now)
        (U.viol_at users.now)) op.now).value inputs.now) }
    ensures { IfOk result (λ v. v.items ≡
        violations_where depends.now ((rule_of
        (user_rules (U.viol_of users.now) (U.viol_at users.now)) op.now).violation_at inputs.now)
        (length inputs.now)) }
{
    let mut found = Vec::new(alloc);
    for place in 0..inputs.len() {
        if is_marked(depends, place) {
            let violation = violation_at(alloc, users, op, inputs, place)?;
            found.push(violation)?;
        }
    }
    Ok(found)
}

/// The greatest of the numbers, 0 for none.
fn greatest_of(numbers: &[i64]) -> i64
    ensures { result ≡ greatest_of numbers.now }
{
    if numbers.is_empty() {
        return 0;
    }
    NaryOp::Greatest.value(numbers).unwrap_or(0)
}

/// Whether one of the arguments depends on the variable.
fn one_depends(depends: &[bool]) -> bool
    ensures { result ≡ one_depends depends.now }
{
    depends.iter().any(|depends| *depends)
}

/// The sum of the violations, where it fits.
fn total_violation(violations: &Result<Vec<i64>, RunFault>) -> Result<i64, RunFault>
    ensures { result ≡ total_violation (listed_violations violations.now) }
{
    match violations {
        Ok(violations) => all_of_violations(violations),
        Err(fault) => Err(*fault),
    }
}

/// The variable's violations in the first member with the least violations.
fn violation_of_fewest(fewest: Option<Fewest>) -> Result<i64, RunFault>
    ensures { result ≡ violation_of_fewest fewest }
{
    match fewest {
        Some(member) => member.violation,
        None => Ok(0),
    }
}

/// The variable's violations in a node that has a value.
fn violation_by<U: UserValues>(
    setting: &Setting<'_, U>,
    op: &Op,
    inputs: &[Input],
    args: &ArgumentsHeld,
    value: &Input,
) -> Result<Result<i64, RunFault>, NoMemory>
    requires takes { IsTrue ((rule_of (user_rules (U.viol_of setting.now.users.now)
        (U.viol_at setting.now.users.now)) op.now).takes (kinds_of inputs.now)) }
    requires valued { IsOk ((rule_of (user_rules (U.viol_of setting.now.users.now)
        (U.viol_at setting.now.users.now)) op.now).value inputs.now) }
    ensures { IfOk result (λ v. v ≡ violation_by
        (user_rules (U.viol_of setting.now.users.now) (U.viol_at setting.now.users.now)) op.now
        (combination_of op.now) (seen_arguments args.now) inputs.now value.now) }
{
    match combination_of(op) {
        Combination::Every => Ok(total_violation(&args.violations)),
        Combination::One => Ok(violation_of_fewest(args.fewest)),
        Combination::Negation => {
            let is_in = one_depends(&args.depends);
            Ok(Ok(if is_in { number_of(value) } else { 0 }))
        }
        Combination::Plain => {
            let found = violations_where(setting.alloc, setting.users, op, inputs, &args.depends)?;
            Ok(Ok(greatest_of(&found)))
        }
    }
}

/// The share of a node whose arguments have these values.
fn node_share<U: UserValues>(
    setting: &Setting<'_, U>,
    op: &Op,
    inputs: &[Input],
    args: &ArgumentsHeld,
) -> Result<Share, NoMemory>
    requires takes { IsTrue ((rule_of (user_rules (U.viol_of setting.now.users.now)
        (U.viol_at setting.now.users.now)) op.now).takes (kinds_of inputs.now)) }
    ensures { IfOk result (λ s. s ≡ node_share
        (user_rules (U.viol_of setting.now.users.now) (U.viol_at setting.now.users.now)) op.now
        (Some inputs.now) (seen_arguments args.now)) }
{
    let depends = one_depends(&args.depends);
    match value_of(setting.alloc, setting.users, op, inputs)? {
        Ok(value) => {
            let violation = violation_by(setting, op, inputs, args, &value)?;
            Ok(Share {
                outcome: Some(value),
                depends,
                violation,
            })
        }
        Err(_) => Ok(leaf_share(None, depends)),
    }
}

/// The share of what isn't a node.
fn leaf_share(outcome: Outcome, depends: bool) -> Share
    ensures { result ≡ leaf_share outcome depends }
{
    Share {
        outcome,
        depends,
        violation: Ok(0),
    }
}

/// The share of a term, where the marked variables depend on the variable.
#[tactic(auto, using(model_values::proofs::Layers::kind_of_outcome, model_values::proofs::Kinded::kinds_gather, crate::proofs::ShareLaws::share_of_layer))]
pub(crate) fn term_share<U: UserValues>(
    setting: &Setting<'_, U>,
    marks: &[bool],
    term: &Term,
) -> Result<Share, NoMemory>
    requires kinds { HasKinds (kinds_in setting.now.model.now.vars.items)
        (env_of setting.now.cells.now) }
    requires well_kinded { IsSome (kind_of_term
        (kinds_in setting.now.model.now.vars.items) term.now) }
    ensures share { IfOk result (λ s. s ≡
        share_of (user_rules (U.viol_of setting.now.users.now) (U.viol_at setting.now.users.now))
        (env_of setting.now.cells.now) (marked marks.now) term.now) }
    ensures kind { IfOk result (λ s. IfSome s.outcome (λ x.
        kind_of_term (kinds_in setting.now.model.now.vars.items) term.now ≡ Some (kind_of x))) }
{
    match term {
        Term::Const(x) => Ok(leaf_share(Some(Input::Int(*x)), false)),
        Term::ConstSet(set) => { Ok(leaf_share(Some(set_value(set)?), false)) }
        Term::Var(v) => {
            let outcome = outcome_at(setting.cells, v.index)?;
            Ok(leaf_share(outcome, is_marked(marks, v.index as usize)))
        }
        Term::Node { op, args, place: _ } => {
            let mut so_far = Some(Vec::new(setting.alloc));
            let mut held = no_arguments(setting.alloc);
            for arg in args {
                let share = term_share(setting, marks, arg)?;
                held = with_argument(held, &share)?;
                so_far = gather(so_far, share.outcome)?;
            }
            match so_far {
                Some(inputs) => node_share(setting, op, &inputs, &held),
                None => Ok(leaf_share(None, one_depends(&held.depends))),
            }
        }
    }
}
