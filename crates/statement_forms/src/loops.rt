//! Loops.
ghost use Rattle.std.specs.Prelude.{◌≡◌, ℕ, List, option_map};
ghost use Rattle.std.specs.Option.{option_copied};
ghost use Rattle.checked_tree.specs.Actions.{deed_of};
ghost use Rattle.checked_tree.specs.Shape.{optional, seen};
ghost use Rattle.checked_tree.specs.Tasks.{counter_of, work_of};
ghost use Rattle.comet_meaning.specs.Loops.{counter_form, for_form, repeated, turn_form, while_form};
ghost use Rattle.comet_meaning.specs.Loops as meaning;
ghost use Rattle.comet_meaning.specs.Program.{level};
ghost use Rattle.comet_meaning.specs.Statements.{step_of};
ghost use Rattle.run_steps.specs.Does.{Does};
ghost use Rattle.run_steps.specs.Views.{flow_seen, part};
ghost use Rattle.run_steps.specs.OfRunState.Views.{state_seen};

use crate::statements::perform;
use cbl_base::Place;
use checked_tree::{Action, Counter, Task, Typed};
use form_parts::values::{condition, number_of};
use run_effects::effects::put_number;
use run_steps::code::Flow;
use run_steps::inside::{Around, Within};
use run_steps::state_of_runs::{Outside, State};
use run_values::Stop;

#[tactic(auto, unfolding(comet_meaning::specs::Loops::while_form))]
pub(crate) fn execute_while<O: Outside, W: Around<O>>(
    s: &mut State,
    out: &mut O,
    inside: &W,
    at: Place,
    test: &Typed,
    body: &Task,
) -> Result<Flow, Stop>
    requires ready { W.is_ready inside.now }
    requires defines { W.can_define inside.now }
    requires locates { W.can_locate inside.now }
    ensures did { Does flow_seen result (state_seen s.new (O.told out.new))
        (while_form (level (W.code inside.now) (W.depth inside.now)) at (seen test.now)
        (work_of body.now) (state_seen s.old (O.told out.old))) }
{
    repeat(s, out, inside, at, Some(test), None, body)
}

/// A `for`, whose name gets its value before the first turn.
#[tactic(auto, unfolding(comet_meaning::specs::Loops::for_form))]
pub(crate) fn execute_for<O: Outside, W: Around<O>>(
    s: &mut State,
    out: &mut O,
    inside: &W,
    at: Place,
    counter: &Option<Counter>,
    test: &Option<Typed>,
    step: &Option<Action>,
    body: &Task,
) -> Result<Flow, Stop>
    requires ready { W.is_ready inside.now }
    requires defines { W.can_define inside.now }
    requires locates { W.can_locate inside.now }
    ensures did { Does flow_seen result (state_seen s.new (O.told out.new))
        (for_form (level (W.code inside.now) (W.depth inside.now)) at
        (option_map counter_of counter.now) (option_map seen test.now)
        (step_of (level (W.code inside.now) (W.depth inside.now)) at (option_map deed_of step.now))
        (work_of body.now) (state_seen s.old (O.told out.old))) }
{
    start_counter(s, out, inside, counter)?;
    repeat(s, out, inside, at, test.as_ref(), step.as_ref(), body)
}

/// The first value of the name that a `for` declares.
#[tactic(auto, unfolding(comet_meaning::specs::Loops::counter_form))]
fn start_counter<O: Outside, W: Within<O>>(
    s: &mut State,
    out: &mut O,
    inside: &W,
    counter: &Option<Counter>,
) -> Result<(), Stop>
    requires ready { W.is_ready inside.now }
    ensures did { Does (λ _. tt) result (state_seen s.new (O.told out.new))
        (counter_form (level (W.code inside.now) (W.depth inside.now))
        (option_map counter_of counter.now) (state_seen s.old (O.told out.old))) }
{
    match counter {
        None => Ok(()),
        Some(counter) => {
            let number = number_of(s, out, inside, &counter.start);
            put_number(s, counter.slot, number)
        }
    }
}

/// Turns of a loop, to the one that ends it. Each spends fuel, so they end.
fn repeat<O: Outside, W: Around<O>>(
    s: &mut State,
    out: &mut O,
    inside: &W,
    at: Place,
    test: Option<&Typed>,
    step: Option<&Action>,
    body: &Task,
) -> Result<Flow, Stop>
    requires ready { W.is_ready inside.now }
    requires defines { W.can_define inside.now }
    requires locates { W.can_locate inside.now }
    ensures did { Does flow_seen result (state_seen s.new (O.told out.new))
        (repeated at (turn_form (level (W.code inside.now) (W.depth inside.now)) at
        (optional (λ e. part e.now) test.entry)
        (step_of (level (W.code inside.now) (W.depth inside.now)) at
        (option_map deed_of (option_copied step.entry))) (work_of body.now))
        (state_seen s.old (O.told out.old))) }
{
    'turns: loop {
        let end = turn(s, out, inside, at, test, step, body)?;
        match end {
            Some(flow) => return Ok(flow),
            None => {}
        }
    }
}

/// One turn of a loop: the flow in which the loop ends, if it is the last.
#[tactic(auto, unfolding(comet_meaning::specs::Loops::turn_form))]
fn turn<O: Outside, W: Around<O>>(
    s: &mut State,
    out: &mut O,
    inside: &W,
    at: Place,
    test: Option<&Typed>,
    step: Option<&Action>,
    body: &Task,
) -> Result<Option<Flow>, Stop>
    requires ready { W.is_ready inside.now }
    requires defines { W.can_define inside.now }
    requires locates { W.can_locate inside.now }
    ensures did { Does (option_map flow_seen) result (state_seen s.new (O.told out.new))
        (turn_form (level (W.code inside.now) (W.depth inside.now)) at
        (optional (λ e. part e.now) test.entry)
        (step_of (level (W.code inside.now) (W.depth inside.now)) at
        (option_map deed_of (option_copied step.entry))) (work_of body.now)
        (state_seen s.old (O.told out.old))) }
{
    s.charge(1, at)?;
    let test = condition(s, out, inside, test)?;
    if test {
        let flow = inside.execute(s, out, body)?;
        end_turn(s, out, inside, at, step, flow)
    } else {
        Ok(Some(Flow::Next))
    }
}

/// What is done behind the body of a turn, unless it returned.
fn end_turn<O: Outside, W: Around<O>>(
    s: &mut State,
    out: &mut O,
    inside: &W,
    at: Place,
    step: Option<&Action>,
    flow: Flow,
) -> Result<Option<Flow>, Stop>
    requires ready { W.is_ready inside.now }
    requires defines { W.can_define inside.now }
    requires locates { W.can_locate inside.now }
    ensures did { Does (option_map flow_seen) result (state_seen s.new (O.told out.new))
        (meaning.behind_body (step_of (level (W.code inside.now) (W.depth inside.now)) at
        (option_map deed_of (option_copied step.entry))) (flow_seen flow)
        (state_seen s.old (O.told out.old))) }
{
    match flow {
        Flow::Next => {
            perform_step(s, out, inside, at, step)?;
            Ok(None)
        }
        Flow::Returned(value) => Ok(Some(Flow::Returned(value))),
    }
}

/// The step of a `for`, which stands at the `for`.
fn perform_step<O: Outside, W: Around<O>>(
    s: &mut State,
    out: &mut O,
    inside: &W,
    at: Place,
    step: Option<&Action>,
) -> Result<(), Stop>
    requires ready { W.is_ready inside.now }
    requires defines { W.can_define inside.now }
    requires locates { W.can_locate inside.now }
    ensures did { Does (λ _. tt) result (state_seen s.new (O.told out.new))
        (step_of (level (W.code inside.now) (W.depth inside.now)) at
        (option_map deed_of (option_copied step.entry)) (state_seen s.old (O.told out.old))) }
{
    match step {
        None => Ok(()),
        Some(step) => perform(s, out, inside, at, step),
    }
}
