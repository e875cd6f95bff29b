//! Aggregates.
ghost use Rattle.std.specs.Prelude.{◌≡◌, ℕ, List, [], map};
ghost use Rattle.comet_meaning.specs.Aggregates as aggregates;
ghost use Rattle.comet_meaning.specs.Generators.{each_tuple};
ghost use Rattle.comet_meaning.specs.Outcome.{always};
ghost use Rattle.comet_meaning.specs.Program.{level};
ghost use Rattle.run_steps.specs.Does.{Does};
ghost use Rattle.run_steps.specs.Views.{generators_seen, part, part_or_none};
ghost use Rattle.run_steps.specs.OfRunState.Views.{state_seen};
ghost use Rattle.run_values.specs.Views.{element_seen, value_seen};

use cbl_base::Place;
use checked_tree::{Generator, Typed};
use comet_syntax::tree::Aggregate;
use form_parts::tuples::next_tuple;
use form_parts::values::{passes, value_of};
use run_steps::inside::Within;
use run_steps::state_of_runs::{Outside, State};
use run_steps::tuples::{Tuples, pending_of};
use run_values::aggregates::{Element, aggregate_value, push_element};
use run_values::{Stop, Value};

/// The value of an aggregate. The names of its generators end with it.
pub fn evaluate_aggregate<O: Outside, W: Within<O>>(
    s: &mut State,
    out: &mut O,
    inside: &W,
    at: Place,
    aggregate: Aggregate,
    generators: &[Generator],
    condition: &Option<Box<Typed>>,
    body: &Typed,
) -> Result<Value, Stop>
    requires ready { W.is_ready inside.now }
    ensures did { Does value_seen result (state_seen s.new (O.told out.new))
        (aggregates.aggregate_form (level (W.code inside.now) (W.depth inside.now)) at aggregate
        (generators_seen generators.now) (part_or_none condition.now) (part body.now)
        (state_seen s.old (O.told out.old))) }
{
    let frame = s.copied_frame()?;
    let elements = elements_of(s, out, inside, at, aggregate, generators, condition, body)?;
    s.frame = frame;
    aggregate_value(s.alloc, at, aggregate, &elements)
}

/// The elements of the tuples that pass the condition, in order.
fn elements_of<O: Outside, W: Within<O>>(
    s: &mut State,
    out: &mut O,
    inside: &W,
    at: Place,
    aggregate: Aggregate,
    generators: &[Generator],
    condition: &Option<Box<Typed>>,
    body: &Typed,
) -> Result<Vec<Element>, Stop>
    requires ready { W.is_ready inside.now }
    ensures did { Does (λ elements. map element_seen elements.items) result
        (state_seen s.new (O.told out.new))
        (each_tuple (level (W.code inside.now) (W.depth inside.now)) at always
        (aggregates.element_form (level (W.code inside.now) (W.depth inside.now)) at aggregate
        (part_or_none condition.now) (part body.now)) [] (generators_seen generators.now) []
        (state_seen s.old (O.told out.old))) }
{
    let mut elements = Vec::new(s.alloc);
    if generators.len() == 0 {
        return Ok(elements);
    }
    let first = &generators[0];
    let domain = value_of(s, out, inside, &first.domain)?;
    let mut tuples = Tuples {
        top: pending_of(domain),
        below: Vec::new(s.alloc),
    };
    while let Some(key) = next_tuple(s, out, inside, at, generators, &mut tuples)? {
        add_element(
            s,
            out,
            inside,
            at,
            aggregate,
            condition,
            body,
            key,
            &mut elements,
        )?;
    }
    Ok(elements)
}

/// Adds the element of a tuple, if it passes the condition.
#[tactic(auto, unfolding(comet_meaning::specs::Aggregates::element_form))]
fn add_element<O: Outside, W: Within<O>>(
    s: &mut State,
    out: &mut O,
    inside: &W,
    at: Place,
    aggregate: Aggregate,
    condition: &Option<Box<Typed>>,
    body: &Typed,
    key: i64,
    elements: &mut Vec<Element>,
) -> Result<(), Stop>
    requires ready { W.is_ready inside.now }
    ensures did { Does (λ _. map element_seen elements.new.items) result
        (state_seen s.new (O.told out.new))
        (aggregates.element_form (level (W.code inside.now) (W.depth inside.now)) at aggregate
        (part_or_none condition.now) (part body.now) key (map element_seen elements.old.items)
        (state_seen s.old (O.told out.old))) }
{
    if !passes(s, out, inside, condition)? {
        return Ok(());
    }
    let value = value_of(s, out, inside, body)?;
    push_element(elements, at, aggregate, key, value)
}
