//! Why a call of a solver gives no answer.
use cbl_base::{NoMemory, Place, RunFault, VarId};

/// Why a call of a solver gives no answer.
#[derive(PartialEq, Eq, Drop, Debug)]
pub enum SolverFault {
    /// The call is refused, and the solver is as before.
    Run(RunFault),
    /// The model, or what is asked of it, has no value: the fault of the least numbered subterm that fails, with its
    /// place. From `close`, `commit` and `restore` the solver can't be used any more.
    At(Place, RunFault),
    /// Variables depend on one another in a circle: each on the next, and the last on the first. The solver is as
    /// before.
    Cyclic(Vec<VarId>),
    NoMemory,
}

impl From<NoMemory> for SolverFault {
    ghost use Rattle.std.specs.Prelude.{◌≡◌};
    ghost use Rattle.ls_solver.specs.declared.fault.SolverFault.TheVariants.{NoMemory as WithoutMemory};

    ghost from_gives = { λ _ fault. fault ≡ WithoutMemory };

    fn from(_error: NoMemory) -> SolverFault {
        SolverFault::NoMemory
    }
}
