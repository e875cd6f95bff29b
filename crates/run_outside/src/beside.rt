//! What the solvers of a run do beside an output and users' constraints.
ghost use Rattle.std.specs.Prelude.{◌≡◌, ℕ, List, IfErr, IfOk};
ghost use Rattle.run_solvers.specs.OfCometMeaning.Models.{domain_at};
ghost use Rattle.run_solvers.specs.OfCometMeaning.Parts.{solver_at, variable_value};
ghost use Rattle.run_solvers.specs.OfCometMeaning.Solutions.{restoring};
ghost use Rattle.run_solvers.specs.OfCometMeaning.State.{State};
ghost use Rattle.run_solvers.specs.OfCometMeaning.Users.{User};
ghost use Rattle.run_solvers.specs.OfCometMeaning.Values as values;
ghost use Rattle.run_solvers.specs.Opening.{opened};
ghost use Rattle.run_solvers.specs.Solutions.{kept_numbers};
ghost use Rattle.run_solvers.specs.Told.{TellsIn};
ghost use Rattle.run_solvers.specs.OfRunValues.Did.{Did, IsFaultOrMemory};
ghost use Rattle.run_solvers.specs.OfRunValues.Views.{bounds_seen, value_seen};
ghost use Rattle.run_outside.specs.Told.{beside, told_of};

use cbl_base::{Place, VarId};
use ls_events::{Solution, VarChange};
use node_kinds::SolverNode;
use run_solvers::Solvers;
use run_solvers::values_of_runs::{Bounds, Stop, Value};

/// The value of a variable, as `Outside::read_variable`.
pub(crate) fn read_beside<N: SolverNode>(
    solvers: &Solvers<N>,
    at: Place,
    variable: VarId,
) -> Result<Value, Stop>
    ensures did { (printed : List ℕ) (users : List User) (s : State) →
        Did value_seen result (beside (told_of printed solvers.now users) s)
        (variable_value at variable.index
        (solver_at (beside (told_of printed solvers.now users) s) variable.solver)
        (beside (told_of printed solvers.now users) s)) }
    ensures stop { IfErr result IsFaultOrMemory }
{
    solvers.read(at, variable)
}

/// The domain of a variable, as `Outside::domain`.
pub(crate) fn domain_beside<N: SolverNode>(
    solvers: &Solvers<N>,
    at: Place,
    variable: VarId,
) -> Result<Bounds, Stop>
    ensures did { (printed : List ℕ) (users : List User) (s : State) →
        Did (λ d. values.Range (bounds_seen d)) result
        (beside (told_of printed solvers.now users) s)
        (domain_at at variable (solver_at
        (beside (told_of printed solvers.now users) s) variable.solver)
        (beside (told_of printed solvers.now users) s)) }
    ensures stop { IfErr result IsFaultOrMemory }
{
    solvers.domain(at, variable)
}

/// Opens a `with`, as `Outside::open_block`.
pub(crate) fn open_beside<N: SolverNode>(
    solvers: &mut Solvers<N>,
    at: Place,
    number: usize,
) -> Result<bool, Stop>
    ensures did { (printed : List ℕ) (users : List User) (s : State) →
        Did (λ b. b) result (beside (told_of printed solvers.new users) s)
        (opened at number (beside (told_of printed solvers.old users) s)) }
    ensures stop { IfErr result IsFaultOrMemory }
{
    solvers.open_block(at, number)
}

/// The numbers of a solver's free variables, as `Outside::snapshot`.
pub(crate) fn snapshot_beside<N: SolverNode>(
    solvers: &Solvers<N>,
    at: Place,
    number: usize,
) -> Result<Solution, Stop>
    ensures did { (printed : List ℕ) (users : List User) (s : State) →
        Did (λ x. x.values) result (beside (told_of printed solvers.now users) s)
        (kept_numbers at (solver_at (beside (told_of printed solvers.now users) s) number)
        (beside (told_of printed solvers.now users) s)) }
    ensures number { IfOk result (λ x. x.solver ≡ number) }
    ensures stop { IfErr result IsFaultOrMemory }
{
    solvers.snapshot(at, number)
}

/// Gives the free variables of a solution their numbers, as `Outside::restore`.
pub(crate) fn restore_beside<N: SolverNode>(
    solvers: &mut Solvers<N>,
    at: Place,
    solution: &Solution,
) -> Result<Vec<VarChange>, Stop>
    ensures did { (printed : List ℕ) (users : List User) (s : State) →
        Did (λ _. tt) result (beside (told_of printed solvers.new users) s)
        (restoring at solution.now.solver solution.now.values
        (solver_at (beside (told_of printed solvers.old users) s) solution.now.solver)
        (beside (told_of printed solvers.old users) s)) }
    ensures told { TellsIn solution.now.solver solvers.old solvers.new result }
    ensures stop { IfErr result IsFaultOrMemory }
{
    solvers.restore(at, solution)
}
