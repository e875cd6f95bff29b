//! `with`: what is assigned in its body waits, and the end of the outermost one on a solver commits it, and handlers run behind that.
ghost use Rattle.std.specs.Prelude.{◌≡◌, ℕ, List};
ghost use Rattle.checked_tree.specs.Tasks.{work_of};
ghost use Rattle.comet_meaning.specs.Blocks.{together_form};
ghost use Rattle.comet_meaning.specs.Program.{level};
ghost use Rattle.comet_meaning.specs.Values.{solver_of};
ghost use Rattle.run_steps.specs.OfRunObjects.WithBlocks.{block};
ghost use Rattle.run_steps.specs.OfRunState.Views.{state_seen};
ghost use Rattle.run_steps.specs.Does.{Does};
ghost use Rattle.run_steps.specs.Views.{flow_seen};
ghost use Rattle.run_values.specs.Views.{value_seen};

use cbl_base::Place;
use checked_tree::{Slot, Task};
use event_forms::behind_block;
use run_effects::blocks::commit_part;
use run_steps::code::Flow;
use run_steps::inside::Within;
use run_steps::objects_of_runs::open_with;
use run_steps::state_of_runs::{Outside, State};
use run_values::{Stop, Value};

/// A `with` on the solver that a name has. `NotClosed` at this place exactly where the solver is open.
pub fn execute_together<O: Outside, W: Within<O>>(
    s: &mut State,
    out: &mut O,
    inside: &W,
    at: Place,
    slot: Slot,
    body: &Task,
) -> Result<Flow, Stop>
    requires ready { W.is_ready inside.now }
    ensures did { Does flow_seen result (state_seen s.new (O.told out.new))
        (together_form (level (W.code inside.now) (W.depth inside.now)) at slot (work_of body.now)
        (state_seen s.old (O.told out.old))) }
{
    let solver = s.look(slot)?;
    let outermost = open_with(out, at, &solver)?;
    execute_inside(s, out, inside, at, &solver, outermost, body)
}

/// The body, and its end where it is that of the outermost `with` on its solver.
fn execute_inside<O: Outside, W: Within<O>>(
    s: &mut State,
    out: &mut O,
    inside: &W,
    at: Place,
    solver: &Value,
    outermost: bool,
    body: &Task,
) -> Result<Flow, Stop>
    requires ready { W.is_ready inside.now }
    ensures did { Does flow_seen result (state_seen s.new (O.told out.new))
        (block (level (W.code inside.now) (W.depth inside.now)) at
        (solver_of (value_seen solver.now)) (work_of body.now) outermost
        (state_seen s.old (O.told out.old))) }
{
    let flow = inside.execute(s, out, body);
    if outermost {
        let committed = commit_part(s, out, solver, flow);
        behind_block(s, out, inside, at, committed)
    } else {
        flow
    }
}
