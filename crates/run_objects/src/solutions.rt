//! Solutions.
ghost use Rattle.std.specs.Prelude.{◌≡◌, IfErr};
ghost use Rattle.comet_meaning.specs.Solutions as solutions;
ghost use Rattle.comet_meaning.specs.Values.{solver_of};
ghost use Rattle.run_values.specs.Did.{Did, IsFaultOrMemory};
ghost use Rattle.run_values.specs.Views.{value_seen};
ghost use Rattle.run_state.specs.Views.{state_seen};

use cbl_base::Place;
use run_state::{Outside, State};
use run_values::{Stop, Value};

/// A new solution, which keeps the numbers of the free variables of a solver. `NotClosed` at this place exactly where the
/// solver is open.
pub fn make_solution<O: Outside>(
    s: &mut State,
    out: &mut O,
    at: Place,
    solver: &Value,
) -> Result<Value, Stop>
    ensures did { Did value_seen result (state_seen s.new (O.told out.new))
        (solutions.make_solution at (solver_of (value_seen solver.now))
        (state_seen s.old (O.told out.old))) }
    ensures printed { (O.told out.new).printed ≡ (O.told out.old).printed }
    ensures stop { IfErr result IsFaultOrMemory }
    ensures fuel { s.new.fuel ≡ s.old.fuel }
{
    match out.snapshot(at, solver.solver()) {
        Ok(solution) => s.keep_solution(solution),
        Err(stop) => Err(stop),
    }
}

/// Restores a solution, and queues the events of what changes; gives no value. At this place `NotClosed` where its solver
/// is open, and then `WrongSolver` where that has other free variables by now; and else the fault of the variables where
/// it was met.
pub fn restore<O: Outside>(
    s: &mut State,
    out: &mut O,
    at: Place,
    solution: &Value,
) -> Result<Value, Stop>
    ensures did { Did value_seen result (state_seen s.new (O.told out.new))
        (solutions.restore at (value_seen solution.now) (state_seen s.old (O.told out.old))) }
    ensures printed { (O.told out.new).printed ≡ (O.told out.old).printed }
    ensures stop { IfErr result IsFaultOrMemory }
    ensures fuel { s.new.fuel ≡ s.old.fuel }
{
    s.restore(out, at, solution)
}
