//! Constraints made of others, and relations, that have their operands.
ghost use Rattle.std.specs.Prelude.{◌≡◌, List, map};
ghost use Rattle.cbl_operations.specs.declared.op.Op.TheVariants as ops;
ghost use Rattle.comet_meaning.specs.ConstraintForms.{combination_op, joining_op};
ghost use Rattle.comet_meaning.specs.State as states;
ghost use Rattle.comet_meaning.specs.TermForms.{bodies_of, node_form};
ghost use Rattle.constraint_forms.specs.Steps.{negated, related};
ghost use Rattle.run_steps.specs.Does.{Does};
ghost use Rattle.run_steps.specs.Following.{Follows};
ghost use Rattle.form_parts.specs.Bodies.{body_seen};

use cbl_base::Place;
use cbl_operations::Op;
use cbl_violations::Constraint;
use comet_syntax::tree::{Aggregate, ChainOperator, Comparison};
use form_parts::bodies::{Body, terms_in};
use run_steps::solvers_of_runs::Built;
use run_values::Stop;
use std::alloc::Global;
use term_nodes::nodes::{node_of, node_of_one, node_of_two};

/// `a == b` and its like, of both terms: `>` and `>=` are `<` and `<=` of the sides exchanged.
fn relation_of(
    alloc: Global,
    at: Place,
    comparison: Comparison,
    left: Built,
    right: Built,
) -> Result<Built, Stop>
    ensures did { (s : states.State) → Does (λ t. t) result s (related at comparison left right s) }
{
    match comparison {
        Comparison::Equal => node_of_two(alloc, at, Op::Constraint(Constraint::Eq), left, right),
        Comparison::NotEqual => node_of_two(alloc, at, Op::Constraint(Constraint::Ne), left, right),
        Comparison::Less => node_of_two(alloc, at, Op::Constraint(Constraint::Lt), left, right),
        Comparison::LessEqual => node_of_two(
            alloc,
            at,
            Op::Constraint(Constraint::Le),
            left,
            right,
        ),
        Comparison::Greater => node_of_two(alloc, at, Op::Constraint(Constraint::Lt), right, left),
        Comparison::GreaterEqual => node_of_two(
            alloc,
            at,
            Op::Constraint(Constraint::Le),
            right,
            left,
        ),
    }
}

/// The same with the right one's answer.
pub(crate) fn relate_with(
    alloc: Global,
    at: Place,
    comparison: Comparison,
    left: Built,
    right: Result<Built, Stop>,
) -> Result<Built, Stop>
    ensures did { (s : states.State) →
        Follows (λ t. t) (λ t. t) right result s s (related at comparison left) }
{
    match right {
        Err(stop) => Err(stop),
        Ok(right) => relation_of(alloc, at, comparison, left, right),
    }
}

/// `!c`, of the constraint's term.
pub(crate) fn negate(alloc: Global, at: Place, operand: Result<Built, Stop>) -> Result<Built, Stop>
    ensures did { (s : states.State) → Follows (λ t. t) (λ t. t) operand result s s (negated at) }
{
    match operand {
        Err(stop) => Err(stop),
        Ok(operand) => node_of_one(alloc, at, Op::Constraint(Constraint::NotHeld), operand),
    }
}

/// The constraint that a chain of constraints is.
fn combination(operator: ChainOperator) -> Constraint
    ensures { result ≡ combination_op operator }
{
    match operator {
        ChainOperator::Or => Constraint::AnyOf,
        ChainOperator::And => Constraint::AllOf,
        ChainOperator::Add => Constraint::AllOf,
        ChainOperator::Subtract => Constraint::AllOf,
        ChainOperator::Multiply => Constraint::AllOf,
        ChainOperator::Divide => Constraint::AllOf,
        ChainOperator::Remainder => Constraint::AllOf,
    }
}

/// A chain of constraints is one operation of all members.
pub(crate) fn combine(
    at: Place,
    operator: ChainOperator,
    members: Result<Vec<Built>, Stop>,
) -> Result<Built, Stop>
    ensures did { (s : states.State) →
        Follows (λ terms. terms.items) (λ t.
        t) members result s s (node_form at (ops.Constraint (combination_op operator))) }
{
    match members {
        Err(stop) => Err(stop),
        Ok(members) => node_of(at, Op::Constraint(combination(operator)), members),
    }
}

/// The constraint that an aggregate of constraints is.
fn joining(aggregate: Aggregate) -> Constraint
    ensures { result ≡ joining_op aggregate }
{
    match aggregate {
        Aggregate::Or => Constraint::AnyOf,
        Aggregate::And => Constraint::AllOf,
        Aggregate::Sum => Constraint::AllOf,
        Aggregate::Min => Constraint::AllOf,
        Aggregate::Max => Constraint::AllOf,
        Aggregate::All => Constraint::AllOf,
        Aggregate::SetOf => Constraint::AllOf,
        Aggregate::ArgMin => Constraint::AllOf,
        Aggregate::ArgMax => Constraint::AllOf,
    }
}

/// An aggregate of constraints is one operation of the bodies.
pub(crate) fn join(
    alloc: Global,
    at: Place,
    aggregate: Aggregate,
    bodies: Vec<Body>,
) -> Result<Built, Stop>
    ensures did { (s : states.State) →
        Does (λ t. t) result s (node_form at (ops.Constraint (joining_op aggregate))
        (bodies_of (map body_seen bodies.items)) s) }
{
    let terms = terms_in(alloc, bodies)?;
    node_of(at, Op::Constraint(joining(aggregate)), terms)
}
