//! The bodies of the tuples of an aggregate in a term.
ghost use Rattle.std.specs.Prelude.{◌≡◌, List, IfErr, IfOk, map};
ghost use Rattle.form_parts.specs.Bodies.{body_seen, body_terms};
ghost use Rattle.comet_meaning.specs.State.{State};
ghost use Rattle.comet_meaning.specs.TermForms.{with_keyed};
ghost use Rattle.comet_syntax.specs.declared.tree.expressions.Aggregate.TheVariants.{All};
ghost use Rattle.run_values.specs.Did.{Did, IsFaultOrMemory};
ghost use Rattle.run_values.specs.declared.stop.Stop.TheVariants.{NoMemory};

use cbl_base::limits::MAX_CELLS;
use cbl_base::{Limit, Place, RunFault};
use comet_syntax::tree::Aggregate;
use run_steps::solvers_of_runs::Built;
use run_values::Stop;
use std::alloc::Global;

/// A body's term, with the value of the generator.
#[derive(Drop)]
pub struct Body {
    pub key: i64,
    pub term: Built,
}

/// Adds one more body. `TooMany` cells at the place exactly where an `all` has as many as an array has cells.
pub fn push_body(
    bodies: &mut Vec<Body>,
    at: Place,
    aggregate: Aggregate,
    key: i64,
    term: Built,
) -> Result<(), Stop>
    ensures did { (s : State) → Did (λ _. map body_seen bodies.new.items) result s
        (with_keyed at aggregate key (map body_seen bodies.old.items) term s) }
    ensures stop { IfErr result IsFaultOrMemory }
{
    match aggregate {
        Aggregate::All => push_cell(bodies, at, key, term),
        _ => {
            bodies.push(Body { key, term })?;
            Ok(())
        }
    }
}

/// Adds one more body of an `all`. `TooMany` cells at the place exactly where there are as many as an array has cells.
fn push_cell(bodies: &mut Vec<Body>, at: Place, key: i64, term: Built) -> Result<(), Stop>
    ensures did { (s : State) → Did (λ _. map body_seen bodies.new.items) result s
        (with_keyed at All key (map body_seen bodies.old.items) term s) }
    ensures stop { IfErr result IsFaultOrMemory }
{
    if MAX_CELLS <= bodies.len() {
        return Err(Stop::Fault(at, RunFault::TooMany(Limit::Cells)));
    }
    bodies.push(Body { key, term })?;
    Ok(())
}

/// The terms of bodies. `NoMemory` where there is none for them; there is no other stop.
pub fn terms_in(alloc: Global, bodies: Vec<Body>) -> Result<Vec<Built>, Stop>
    ensures terms { IfOk result (λ terms. terms.items ≡ body_terms bodies.items) }
    ensures memory { IfErr result (λ stop. stop ≡ NoMemory) }
{
    let mut terms = Vec::new(alloc);
    for body in bodies {
        terms.push(body.term)?;
    }
    Ok(terms)
}
