//! The end of a `with`.
ghost use Rattle.std.specs.Prelude.{◌≡◌, ℕ, List};
ghost use Rattle.comet_meaning.specs.Values.{solver_of};
ghost use Rattle.run_objects.specs.OfRunState.Views.{state_seen};
ghost use Rattle.run_steps.specs.Does.{Does};
ghost use Rattle.run_steps.specs.Following.{Follows};
ghost use Rattle.run_steps.specs.Operands.{closed_block};
ghost use Rattle.run_steps.specs.Views.{flow_seen};
ghost use Rattle.run_values.specs.Views.{value_seen};

use run_objects::commit_waiting;
use run_objects::state_of_runs::{Outside, State};
use run_steps::code::Flow;
use run_values::{Stop, Value};

/// The end of the outermost `with` on a solver: what waits is committed.
fn close_block<O: Outside>(
    s: &mut State,
    out: &mut O,
    solver: &Value,
    flow: Flow,
) -> Result<Flow, Stop>
    ensures did { Does flow_seen result (state_seen s.new (O.told out.new))
        (closed_block (solver_of (value_seen solver.now)) (flow_seen flow)
        (state_seen s.old (O.told out.old))) }
{
    match commit_waiting(s, out, solver) {
        Err(stop) => Err(stop),
        Ok(()) => Ok(flow),
    }
}

/// The same with the answer of its body.
pub fn commit_part<O: Outside>(
    s: &mut State,
    out: &mut O,
    solver: &Value,
    flow: Result<Flow, Stop>,
) -> Result<Flow, Stop>
    ensures did { Follows flow_seen flow_seen flow result (state_seen s.old (O.told out.old))
        (state_seen s.new (O.told out.new)) (closed_block (solver_of (value_seen solver.now))) }
{
    match flow {
        Err(stop) => Err(stop),
        Ok(flow) => close_block(s, out, solver, flow),
    }
}
