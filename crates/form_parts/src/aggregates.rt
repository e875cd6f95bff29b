//! The tuples of an aggregate in a term: their generators run when the statement does, and each has a body.
ghost use Rattle.std.specs.Prelude.{◌≡◌, ℕ, List, [], map};
ghost use Rattle.comet_meaning.specs.Generators.{each_tuple};
ghost use Rattle.comet_meaning.specs.Outcome.{always};
ghost use Rattle.comet_meaning.specs.Program.{level};
ghost use Rattle.comet_meaning.specs.TermForms as forms;
ghost use Rattle.run_steps.specs.OfRunState.Views.{state_seen};
ghost use Rattle.run_steps.specs.Does.{Does};
ghost use Rattle.run_steps.specs.Views.{generators_seen, part, part_or_none};
ghost use Rattle.form_parts.specs.Bodies.{body_seen};

use crate::bodies::{Body, push_body};
use crate::terms::single_term;
use crate::tuples::next_tuple;
use crate::values::{passes, value_of};
use cbl_base::Place;
use checked_tree::{Generator, Typed};
use comet_syntax::tree::Aggregate;
use run_steps::inside::Defining;
use run_steps::state_of_runs::{Outside, State};
use run_steps::tuples::{Tuples, pending_of};
use run_values::Stop;

/// The bodies of the tuples that pass the condition, in order.
pub fn bodies_of<O: Outside, W: Defining<O>>(
    s: &mut State,
    out: &mut O,
    inside: &W,
    at: Place,
    aggregate: Aggregate,
    generators: &[Generator],
    condition: &Option<Box<Typed>>,
    body: &Typed,
) -> Result<Vec<Body>, Stop>
    requires ready { W.is_ready inside.now }
    requires defines { W.can_define inside.now }
    ensures did { Does (λ bodies. map body_seen bodies.items) result
        (state_seen s.new (O.told out.new))
        (each_tuple (level (W.code inside.now) (W.depth inside.now)) at always
        (forms.keyed_form (level (W.code inside.now) (W.depth inside.now)) at aggregate
        (part_or_none condition.now) (part body.now)) [] (generators_seen generators.now) []
        (state_seen s.old (O.told out.old))) }
{
    let mut bodies = Vec::new(s.alloc);
    if generators.len() == 0 {
        return Ok(bodies);
    }
    let first = &generators[0];
    let domain = value_of(s, out, inside, &first.domain)?;
    let mut tuples = Tuples {
        top: pending_of(domain),
        below: Vec::new(s.alloc),
    };
    while let Some(key) = next_tuple(s, out, inside, at, generators, &mut tuples)? {
        add_body(
            s,
            out,
            inside,
            at,
            aggregate,
            condition,
            body,
            key,
            &mut bodies,
        )?;
    }
    Ok(bodies)
}

/// Adds the body of a tuple, if it passes the condition.
#[tactic(auto, unfolding(comet_meaning::specs::TermForms::keyed_form))]
fn add_body<O: Outside, W: Defining<O>>(
    s: &mut State,
    out: &mut O,
    inside: &W,
    at: Place,
    aggregate: Aggregate,
    condition: &Option<Box<Typed>>,
    body: &Typed,
    key: i64,
    bodies: &mut Vec<Body>,
) -> Result<(), Stop>
    requires ready { W.is_ready inside.now }
    requires defines { W.can_define inside.now }
    ensures did { Does (λ _. map body_seen bodies.new.items) result
        (state_seen s.new (O.told out.new))
        (forms.keyed_form (level (W.code inside.now) (W.depth inside.now)) at aggregate
        (part_or_none condition.now) (part body.now) key (map body_seen bodies.old.items)
        (state_seen s.old (O.told out.old))) }
{
    if !passes(s, out, inside, condition)? {
        return Ok(());
    }
    let term = single_term(s, out, inside, body)?;
    push_body(bodies, at, aggregate, key, term)
}
