//! What the bodies of an aggregate's tuples give in a term.
ghost use Rattle.std.specs.Prelude.{◌≡◌, List, IfErr, IfOk, map};
ghost use Rattle.cbl_operations.specs.declared.op.Op.TheVariants.{Keyed};
ghost use Rattle.comet_meaning.specs.State.{State};
ghost use Rattle.comet_meaning.specs.TermForms as forms;
ghost use Rattle.comet_meaning.specs.TermForms.{keys_of};
ghost use Rattle.comet_syntax.specs.declared.tree.expressions.Aggregate.TheVariants.{All};
ghost use Rattle.run_steps.specs.OfRunState.InTerms.{in_term_seen};
ghost use Rattle.run_steps.specs.Does.{Does};
ghost use Rattle.run_values.specs.declared.stop.Stop.TheVariants.{NoMemory};
ghost use Rattle.form_parts.specs.Bodies.{body_seen};
ghost use Rattle.term_forms.specs.Bodies.{body_node, extreme_node};

use cbl_base::{Numbers, Place, RunFault};
use cbl_operations::{KeyedOp, NaryOp, Op};
use comet_syntax::tree::Aggregate;
use form_parts::bodies::{Body, terms_in};
use run_steps::state_of_runs::{InTerm, TermCells};
use run_values::Stop;
use std::alloc::Global;
use term_nodes::nodes::{as_in_term, node_of};

/// What the bodies give: an `all` is an array of them, and any other aggregate one operation. `EmptyRange` at the place
/// exactly where there is none of which one could be least or greatest.
pub fn aggregated(
    alloc: Global,
    at: Place,
    aggregate: Aggregate,
    bodies: Vec<Body>,
) -> Result<InTerm, Stop>
    ensures did { (s : State) → Does in_term_seen result s
        (forms.aggregated at aggregate (map body_seen bodies.items) s) }
{
    match aggregate {
        Aggregate::Sum => operation_of(alloc, at, Op::Nary(NaryOp::Sum), bodies),
        Aggregate::Min => extreme_of(alloc, at, Op::Nary(NaryOp::Least), bodies),
        Aggregate::Max => extreme_of(alloc, at, Op::Nary(NaryOp::Greatest), bodies),
        Aggregate::All => all_of(alloc, at, bodies),
        Aggregate::And => operation_of(alloc, at, Op::Nary(NaryOp::And), bodies),
        Aggregate::Or => operation_of(alloc, at, Op::Nary(NaryOp::Or), bodies),
        Aggregate::SetOf => keyed_of(alloc, at, KeyedOp::SetOf, bodies),
        Aggregate::ArgMin => keyed_of(alloc, at, KeyedOp::ArgMin, bodies),
        Aggregate::ArgMax => keyed_of(alloc, at, KeyedOp::ArgMax, bodies),
    }
}

/// The keys of bodies. `NoMemory` where there is none for them; there is no other stop.
fn keys_in(alloc: Global, bodies: &[Body]) -> Result<Numbers, Stop>
    ensures keys { IfOk result (λ keys. keys ≡ keys_of (map body_seen bodies.now)) }
    ensures memory { IfErr result (λ stop. stop ≡ NoMemory) }
{
    let mut keys = Vec::new(alloc);
    for body in bodies {
        keys.push(body.key)?;
    }
    let numbers = Numbers::from_slice(alloc, &keys)?;
    Ok(numbers)
}

/// One operation of all bodies.
fn operation_of(alloc: Global, at: Place, op: Op, bodies: Vec<Body>) -> Result<InTerm, Stop>
    ensures did { (s : State) → Does in_term_seen result s
        (body_node at op (map body_seen bodies.items) s) }
{
    let terms = terms_in(alloc, bodies)?;
    as_in_term(node_of(at, op, terms))
}

/// The same of the least or the greatest, which none is without a body.
fn extreme_of(alloc: Global, at: Place, op: Op, bodies: Vec<Body>) -> Result<InTerm, Stop>
    ensures did { (s : State) → Does in_term_seen result s
        (extreme_node at op (map body_seen bodies.items) s) }
{
    let count = bodies.len();
    if count == 0 {
        return Err(Stop::Fault(at, RunFault::EmptyRange));
    }
    operation_of(alloc, at, op, bodies)
}

/// The bodies of an `all`, as an array from 0.
fn all_of(alloc: Global, at: Place, bodies: Vec<Body>) -> Result<InTerm, Stop>
    ensures did { (s : State) → Does in_term_seen result s
        (forms.aggregated at All (map body_seen bodies.items) s) }
{
    let terms = terms_in(alloc, bodies)?;
    Ok(InTerm::Several(TermCells::row(terms)))
}

/// The set of some of the keys, by the bodies.
fn keyed_of(alloc: Global, at: Place, op: KeyedOp, bodies: Vec<Body>) -> Result<InTerm, Stop>
    ensures did { (s : State) → Does in_term_seen result s
        (body_node at (Keyed op (keys_of (map body_seen bodies.items)))
        (map body_seen bodies.items) s) }
{
    let keys = keys_in(alloc, &bodies)?;
    operation_of(alloc, at, Op::Keyed { op, keys }, bodies)
}
