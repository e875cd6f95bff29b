//! The node of what a subterm computes.
ghost use Rattle.std.specs.Prelude.{◌≡◌, ℕ, IfOk, None, Some, map, slice_get, slice_set};
ghost use Rattle.cbl_base.specs.NumberRule.{NumberRule};
ghost use Rattle.cbl_operations.specs.RuleOf.{rule_of};
ghost use Rattle.model_nodes.specs.HeadRules.{rule_of_head};
ghost use Rattle.model_nodes.specs.Waiting.{AreWaiting, IsTakenFor, IsThere, IsThereFor, user_in};
ghost use Rattle.term_graph.specs.declared.head.Head.TheVariants.{Op as Operation};

use cbl_base::{IntSet, NoMemory, NodeRule, NodeValue};
use cbl_operations::Op;
use node_kinds::SolverNode;
use std::alloc::Global;
use term_graph::Head;

/// The nodes of users' constraints by number, each in its place until it is taken.
pub(crate) fn waiting_of<N: NodeRule>(
    alloc: Global,
    nodes: Vec<N>,
) -> Result<Vec<Option<N>>, NoMemory>
    ensures { IfOk result (λ waiting. waiting.items ≡ map (λ n. Some n) nodes.items) }
{
    let mut waiting = Vec::with_capacity(alloc, nodes.len())?;
    for node in nodes {
        waiting.push(Some(node))?;
    }
    Ok(waiting)
}

/// The number of a user's constraint.
fn user_in(op: &Op) -> Option<u32>
    ensures { result ≡ user_in op.now }
{
    match op {
        Op::User { number } => Some(*number),
        _ => None,
    }
}

/// The node of a user's constraint, which is taken out of its place.
fn take_user<N: NodeRule>(waiting: &mut Vec<Option<N>>, number: u32) -> N
    requires { IsThere waiting.old.items number }
    ensures node { slice_get waiting.old.items number ≡ Some (Some result) }
    ensures waiting { waiting.new.items ≡ slice_set waiting.old.items number None }
{
    match waiting[number as usize].take() {
        Some(node) => node,
        None => unreachable!(),
    }
}

/// The node of an operation or a constraint.
fn operation_node<N: SolverNode>(
    alloc: Global,
    op: &Op,
    waiting: &mut Vec<Option<N>>,
) -> Result<N, NoMemory>
    requires { IsThereFor waiting.old.items (Operation op.now) }
    ensures node { IfOk result (λ node. (users : ℕ → NumberRule) →
        AreWaiting N.rule users waiting.old.items → N.rule node ≡ rule_of users op.now) }
    ensures waiting { (users : ℕ → NumberRule) → AreWaiting N.rule users waiting.old.items →
        AreWaiting N.rule users waiting.new.items }
    ensures others { IsTakenFor (Operation op.now) waiting.old.items waiting.new.items }
{
    match user_in(op) {
        Some(number) => Ok(take_user(waiting, number)),
        None => N::of_operation(alloc, op),
    }
}

/// A copy of a set.
fn copy_of(set: &IntSet) -> Result<IntSet, NoMemory>
    ensures { IfOk result (λ copy. copy ≡ set.now) }
{
    Ok(set.clone()?)
}

/// The node of what a subterm computes.
pub(crate) fn head_node<N: SolverNode>(
    alloc: Global,
    head: &Head,
    waiting: &mut Vec<Option<N>>,
) -> Result<N, NoMemory>
    requires { IsThereFor waiting.old.items head.now }
    ensures node { IfOk result (λ node. (users : ℕ → NumberRule) →
        AreWaiting N.rule users waiting.old.items → N.rule node ≡ rule_of_head users head.now) }
    ensures waiting { (users : ℕ → NumberRule) → AreWaiting N.rule users waiting.old.items →
        AreWaiting N.rule users waiting.new.items }
    ensures others { IsTakenFor head.now waiting.old.items waiting.new.items }
{
    match head {
        Head::Const(number) => Ok(N::of_constant(NodeValue::Int(*number))),
        Head::ConstSet(set) => {
            let copy = copy_of(set)?;
            Ok(N::of_constant(NodeValue::Set(copy)))
        }
        Head::Op(op) => operation_node(alloc, op, waiting),
    }
}
