//! Which kind a term is of.
ghost use Rattle.std.specs.Prelude.{◌≡◌, ◌≤◌, ◌&&◌, ◌==◌, IfOk, Some, length, map};
ghost use Rattle.std.specs.List.{list_all};
ghost use Rattle.std.specs.Option.{option_map};
ghost use Rattle.cbl_base.specs.Inputs.{all_numbers};
ghost use Rattle.cbl_base.specs.declared.limits.TheConstants.{MAX_TERM_DEPTH};
ghost use Rattle.cbl_operations.specs.Operations.Card.{is_one_set};
ghost use Rattle.cbl_operations.specs.Operations.Member.{are_number_and_set};
ghost use Rattle.cbl_operations.specs.RuleOf.{rule_of, value_kind};
ghost use Rattle.cbl_operations.specs.SetForms.{are_two_sets};
ghost use Rattle.term_model.specs.Checks.{IsKindWithin, is_number_var};
ghost use Rattle.term_model.specs.Depth.{depth_of};
ghost use Rattle.term_model.specs.Kinds.{kind_of_term, kind_of_var, kinds_in, has_fields, node_kind};
ghost use Rattle.term_model.specs.Users.{no_users};

use crate::model::{VarDecl, VarKind};
use crate::term::Term;
use cbl_base::NoMemory;
use cbl_base::limits::MAX_TERM_DEPTH;
use cbl_operations::Op;
use std::alloc::Global;

/// Whether a kind is that of numbers.
fn is_number(kind: &VarKind) -> bool
    ensures { result ≡ is_number_var kind.now }
{
    matches!(kind, VarKind::Number)
}

/// Whether all kinds are those of numbers.
fn are_all_numbers(kinds: &[VarKind]) -> bool
    ensures { result ≡ list_all is_number_var kinds.now }
{
    kinds.iter().all(|kind| is_number(kind))
}

/// Whether an operation of any numbers takes these kinds.
#[tactic(auto, using(crate::proofs::KindSteps::all_numbers_of))]
fn are_numbers(kinds: &[VarKind]) -> bool
    ensures { result ≡ all_numbers (map kind_of_var kinds.now) }
{
    are_all_numbers(kinds)
}

/// Whether the kinds are those of so many numbers.
fn are_so_many(kinds: &[VarKind], count: usize) -> bool
    ensures { result ≡ (all_numbers (map kind_of_var kinds.now) &&
        (length (map kind_of_var kinds.now) == count)) }
{
    are_numbers(kinds) && kinds.len() == count
}

/// Whether the kinds are those of two sets.
fn are_two_sets(kinds: &[VarKind]) -> bool
    ensures { result ≡ are_two_sets (map kind_of_var kinds.now) }
{
    matches!(kinds, [VarKind::Set, VarKind::Set])
}

/// Whether the kinds are that of one set.
fn is_one_set(kinds: &[VarKind]) -> bool
    ensures { result ≡ is_one_set (map kind_of_var kinds.now) }
{
    matches!(kinds, [VarKind::Set])
}

/// Whether the kinds are those of a number and a set.
fn are_number_and_set(kinds: &[VarKind]) -> bool
    ensures { result ≡ are_number_and_set (map kind_of_var kinds.now) }
{
    matches!(kinds, [VarKind::Number, VarKind::Set])
}

/// Whether an operation takes arguments of these kinds.
fn takes(op: &Op, kinds: &[VarKind]) -> bool
    ensures { result ≡ (rule_of no_users op.now).takes (map kind_of_var kinds.now) }
{
    match op {
        Op::Unary(_) => are_so_many(kinds, 1),
        Op::Binary(_) => are_so_many(kinds, 2),
        Op::Nary(op) => are_numbers(kinds) && op.takes(kinds.len()),
        Op::Keyed { op: _, keys } => are_so_many(kinds, keys.as_slice().len()),
        Op::Element { low: _, len } => are_so_many(kinds, *len as usize + 1),
        Op::Element2 {
            low1: _,
            len1,
            low2: _,
            len2,
        } => are_so_many(kinds, *len1 as usize * *len2 as usize + 2),
        Op::TwoSets(_) => are_two_sets(kinds),
        Op::Card => is_one_set(kinds),
        Op::Member => are_number_and_set(kinds),
        Op::Constraint(constraint) => are_numbers(kinds) && constraint.takes(kinds.len()),
        Op::User { number: _ } => are_numbers(kinds),
    }
}

/// Whether the fields of an operation are as they must be.
fn has_fields(op: &Op) -> bool
    ensures { result ≡ has_fields op.now }
{
    match op {
        Op::Constraint(constraint) => constraint.is_proper(),
        _ => true,
    }
}

/// The kind of an operation's values.
fn value_kind(op: &Op) -> VarKind
    ensures { kind_of_var result ≡ value_kind op.now }
{
    match op {
        Op::Keyed { op: _, keys: _ } => VarKind::Set,
        Op::TwoSets(_) => VarKind::Set,
        _ => VarKind::Number,
    }
}

/// The kind of a node, from those of its arguments.
fn node_kind(op: &Op, kinds: &[VarKind]) -> Option<VarKind>
    ensures { option_map kind_of_var result ≡ node_kind op.now (Some (map kind_of_var kinds.now)) }
{
    let fits = takes(op, kinds) && has_fields(op);
    if fits { Some(value_kind(op)) } else { None }
}

/// The kind of a variable, where there is one.
pub fn kind_at(vars: &[VarDecl], index: u32) -> Option<VarKind>
    ensures { option_map kind_of_var result ≡ kinds_in vars.now index }
{
    match vars.get(index as usize) {
        Some(decl) => Some(decl.kind),
        None => None,
    }
}

/// The kind of a term, if it is well kinded and no deeper than the limit.
#[tactic(auto, using(crate::proofs::KindSteps::none_so_far, crate::proofs::KindSteps::one_so_far, crate::proofs::KindSteps::node_so_far, crate::proofs::KindSteps::var_within, crate::proofs::KindSteps::node_too_deep, crate::proofs::KindSteps::arg_without))]
pub fn kind_within(
    alloc: Global,
    vars: &[VarDecl],
    limit: usize,
    term: &Term,
) -> Result<Option<VarKind>, NoMemory>
    ensures { IfOk result (IsKindWithin (kinds_in vars.now) limit term.now) }
{
    match term {
        Term::Const(_) => Ok(Some(VarKind::Number)),
        Term::ConstSet(_) => Ok(Some(VarKind::Set)),
        Term::Var(v) => Ok(kind_at(vars, v.index)),
        Term::Node { op, args, place: _ } => {
            if limit == 0 {
                return Ok(None);
            }
            let mut kinds = Vec::new(alloc);
            for arg in args {
                let Some(kind) = kind_within(alloc, vars, limit - 1, arg)? else {
                    return Ok(None);
                };
                kinds.push(kind)?;
            }
            Ok(node_kind(op, &kinds))
        }
    }
}

/// The kind of a term that is no deeper than the limit, exactly where it is well kinded.
#[tactic(auto, using(crate::proofs::KindSteps::kind_found))]
pub fn term_kind(alloc: Global, vars: &[VarDecl], term: &Term) -> Result<Option<VarKind>, NoMemory>
    requires { depth_of term.now ≤ MAX_TERM_DEPTH }
    ensures { IfOk result (λ kind. option_map kind_of_var kind ≡
        kind_of_term (kinds_in vars.now) term.now) }
{
    kind_within(alloc, vars, MAX_TERM_DEPTH as usize, term)
}
