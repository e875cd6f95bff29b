//! `whenever`.
ghost use Rattle.std.specs.Prelude.{◌≡◌, ℕ, List};
ghost use Rattle.checked_tree.specs.Shape.{seen};
ghost use Rattle.checked_tree.specs.Tasks.{work_of};
ghost use Rattle.comet_meaning.specs.Events as events;
ghost use Rattle.comet_meaning.specs.Program.{level};
ghost use Rattle.run_steps.specs.OfRunState.Views.{state_seen};
ghost use Rattle.run_steps.specs.Does.{Does};
ghost use Rattle.run_steps.specs.Views.{flow_seen};

use checked_tree::{EventSlots, Later, Typed};
use run_steps::code::Flow;
use run_steps::inside::Within;
use run_steps::state_of_runs::{Outside, State};
use run_values::Stop;

/// A `whenever`: the variable, and then a handler of it, which runs the statement.
#[tactic(auto, unfolding(comet_meaning::specs::Events::whenever_form))]
pub fn execute_whenever<O: Outside, W: Within<O>>(
    s: &mut State,
    out: &mut O,
    inside: &W,
    variable: &Typed,
    names: Option<EventSlots>,
    body: &Later,
) -> Result<Flow, Stop>
    requires ready { W.is_ready inside.now }
    ensures did { Does flow_seen result (state_seen s.new (O.told out.new))
        (events.whenever_form (level (W.code inside.now) (W.depth inside.now))
        (seen variable.now) names (work_of body.now.value.value)
        (state_seen s.old (O.told out.old))) }
{
    let variable = inside.evaluate(s, out, variable)?;
    s.attach(&variable, names, body)?;
    Ok(Flow::Next)
}
