//! Objects that are made.
ghost use Rattle.std.specs.Prelude.{◌≡◌, IfErr};
ghost use Rattle.comet_meaning.specs.Models as models;
ghost use Rattle.comet_meaning.specs.Systems as systems;
ghost use Rattle.comet_meaning.specs.Values.{solver_of};
ghost use Rattle.comet_meaning.specs.State as states;
ghost use Rattle.run_state.specs.OfRunOutside.Told.{beside};
ghost use Rattle.run_values.specs.Did.{Did, IsFaultOrMemory};
ghost use Rattle.run_values.specs.Views.{value_seen};
ghost use Rattle.run_values.specs.declared.stop.Stop.TheVariants.{NoMemory};

use cbl_base::Place;
use run_state::Outside;
use run_state::solvers_of_runs::Built;
use run_values::{Stop, Value};
use std::alloc::Global;

/// A new solver, which is open and has no variables. `NoMemory` where there is none for it.
pub fn make_solver<O: Outside>(out: &mut O, alloc: Global) -> Result<Value, Stop>
    ensures did { (s : states.State) →
        Did value_seen result (beside (O.told out.new) s)
        (models.make_solver (beside (O.told out.old) s)) }
    ensures printed { (O.told out.new).printed ≡ (O.told out.old).printed }
    ensures memory { IfErr result (λ stop. stop ≡ NoMemory) }
{
    match out.make_solver(alloc) {
        Ok(number) => Ok(Value::Solver(number)),
        Err(stop) => Err(stop),
    }
}

/// A new constraint system of a solver. `AlreadyClosed` at this place exactly where the solver is closed.
pub fn make_system<O: Outside>(out: &mut O, at: Place, solver: &Value) -> Result<Value, Stop>
    ensures did { (s : states.State) →
        Did value_seen result (beside (O.told out.new) s)
        (systems.make_system at (solver_of (value_seen solver.now)) (beside (O.told out.old) s)) }
    ensures printed { (O.told out.new).printed ≡ (O.told out.old).printed }
    ensures stop { IfErr result IsFaultOrMemory }
{
    out.new_system(at, solver.solver())
}

/// A new sum of terms in a solver. `AlreadyClosed` at this place exactly where the solver is closed.
pub fn make_sum<O: Outside>(out: &mut O, at: Place, solver: &Value) -> Result<Value, Stop>
    ensures did { (s : states.State) →
        Did value_seen result (beside (O.told out.new) s)
        (systems.make_sum at (solver_of (value_seen solver.now)) (beside (O.told out.old) s)) }
    ensures printed { (O.told out.new).printed ≡ (O.told out.old).printed }
    ensures stop { IfErr result IsFaultOrMemory }
{
    out.new_sum(at, solver.solver())
}

/// A new objective of one term, in the solver of the first variable in it. At this place `WrongSolver` where it has none,
/// then `AlreadyClosed` where that solver is closed, and then the stops of `post`.
pub fn make_objective<O: Outside>(out: &mut O, at: Place, term: Built) -> Result<Value, Stop>
    ensures did { (s : states.State) →
        Did value_seen result (beside (O.told out.new) s)
        (systems.make_objective at term (beside (O.told out.old) s)) }
    ensures printed { (O.told out.new).printed ≡ (O.told out.old).printed }
    ensures stop { IfErr result IsFaultOrMemory }
{
    out.new_objective(at, term)
}
