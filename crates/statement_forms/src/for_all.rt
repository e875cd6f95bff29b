//! The loop over the tuples of generators.
ghost use Rattle.std.specs.Prelude.{◌≡◌, ℕ, ℤ, List, Some, map, option_map, slice_get};
ghost use Rattle.checked_tree.specs.Shape.{optional, seen, shape_of_generator, whole};
ghost use Rattle.checked_tree.specs.Tasks.{work_of};
ghost use Rattle.comet_meaning.specs.Levels as levels;
ghost use Rattle.comet_meaning.specs.Loops.{for_all_form, visited};
ghost use Rattle.comet_meaning.specs.Program.{level};
ghost use Rattle.run_steps.specs.Does.{Does};
ghost use Rattle.run_steps.specs.Views.{flow_seen};
ghost use Rattle.run_steps.specs.OfRunState.Views.{state_seen};

use cbl_base::Place;
use checked_tree::{Generator, Task, Typed};
use form_parts::tuples::next_tuple;
use form_parts::values::{condition, value_of};
use run_steps::code::Flow;
use run_steps::inside::Within;
use run_steps::state_of_runs::{Outside, State};
use run_steps::tuples::{Tuples, pending_of};
use run_values::Stop;

/// A `forall`: the body for each tuple, to the first that returns.
pub(crate) fn execute_for_all<O: Outside, W: Within<O>>(
    s: &mut State,
    out: &mut O,
    inside: &W,
    at: Place,
    generators: &[Generator],
    condition: &Option<Typed>,
    body: &Task,
) -> Result<Flow, Stop>
    requires ready { W.is_ready inside.now }
    ensures did { Does flow_seen result (state_seen s.new (O.told out.new))
        (for_all_form (level (W.code inside.now) (W.depth inside.now)) at
        (map shape_of_generator generators.now) (option_map seen condition.now) (work_of body.now)
        (state_seen s.old (O.told out.old))) }
{
    match generators.first() {
        None => Ok(Flow::Next),
        Some(first) => visit_all(s, out, inside, at, generators, first, condition, body),
    }
}

/// The same, where there is a first generator.
fn visit_all<O: Outside, W: Within<O>>(
    s: &mut State,
    out: &mut O,
    inside: &W,
    at: Place,
    generators: &[Generator],
    first: &Generator,
    condition: &Option<Typed>,
    body: &Task,
) -> Result<Flow, Stop>
    requires ready { W.is_ready inside.now }
    requires known { Some first.now ≡ slice_get generators.now 0 }
    ensures did { Does flow_seen result (state_seen s.new (O.told out.new))
        (for_all_form (level (W.code inside.now) (W.depth inside.now)) at
        (map shape_of_generator generators.now) (option_map seen condition.now) (work_of body.now)
        (state_seen s.old (O.told out.old))) }
{
    let domain = value_of(s, out, inside, &first.domain)?;
    let mut tuples = Tuples {
        top: pending_of(domain),
        below: Vec::new(s.alloc),
    };
    'tuples: loop {
        let found = next_tuple(s, out, inside, at, generators, &mut tuples)?;
        match found {
            None => return Ok(Flow::Next),
            Some(_value) => {
                let flow = visit(s, out, inside, condition, body)?;
                match flow {
                    Flow::Next => {}
                    Flow::Returned(value) => return Ok(Flow::Returned(value)),
                }
            }
        }
    }
}

/// What is done with a tuple whose names have their values.
#[tactic(auto, unfolding(comet_meaning::specs::Loops::visited))]
fn visit<O: Outside, W: Within<O>>(
    s: &mut State,
    out: &mut O,
    inside: &W,
    test: &Option<Typed>,
    body: &Task,
) -> Result<Flow, Stop>
    requires ready { W.is_ready inside.now }
    ensures did { (value : ℤ) (flow : levels.Flow) →
        Does flow_seen result (state_seen s.new (O.told out.new))
        (visited (level (W.code inside.now) (W.depth inside.now))
        (optional whole (option_map seen test.now)) (work_of body.now) value flow
        (state_seen s.old (O.told out.old))) }
{
    let holds = condition(s, out, inside, test.as_ref())?;
    if holds {
        inside.execute(s, out, body)
    } else {
        Ok(Flow::Next)
    }
}
