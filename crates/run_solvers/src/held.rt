//! One solver of a run.
ghost use Rattle.std.specs.Prelude.{◌≡◌, OnOk};
ghost use Rattle.cbl_base.specs.declared.ids.VarId.{VarId};
ghost use Rattle.comet_meaning.specs.Solvers.{new_solver};
ghost use Rattle.run_solvers.specs.Kept.{IsKept};
ghost use Rattle.run_solvers.specs.Views.{held_seen};

use cbl_base::{Names, VarId};
use ls_solver::Solver;
use node_kinds::SolverNode;
use run_values::Stop;
use std::alloc::Global;

/// A solver of a run: its number, the solver, the names of its variables, and while a `with` is open for each variable
/// the number that it was assigned in it.
#[derive(Drop)]
pub(crate) struct Held<N: SolverNode> {
    pub(crate) alloc: Global,
    pub(crate) number: u32,
    pub(crate) solver: Solver<N>,
    pub(crate) names: Names,
    pub(crate) waiting: Option<Vec<Option<i64>>>,
}

impl<N: SolverNode> Held<N> {
    /// A solver without variables, which is open.
    pub(crate) fn new(alloc: Global, number: u32) -> Held<N>
        ensures seen { held_seen result ≡ new_solver }
        ensures kept { IsKept result }
        ensures number { result.number ≡ number }
    {
        Held {
            alloc,
            number,
            solver: Solver::new(alloc, number),
            names: Names::new(alloc),
            waiting: None,
        }
    }

    /// The id of the variable at an index.
    pub(crate) fn own(&self, index: u32) -> VarId
        ensures { result ≡ record { solver = self.now.number; index = index } }
    {
        VarId {
            solver: self.number,
            index,
        }
    }

    /// Empties it, once the run is over.
    pub(crate) fn clear(&mut self)
        ensures kept { IsKept self.new }
        ensures number { self.new.number ≡ self.old.number }
    {
        *self = Held::new(self.alloc, self.number);
    }

    /// The answer of a change. Where it stopped the run is over, and the solver is emptied, since it may be of no use any
    /// more.
    pub(crate) fn finish<T>(&mut self, made: Result<T, Stop>) -> Result<T, Stop>
        requires { OnOk made (IsKept self.old) }
        ensures same { result ≡ made }
        ensures kept { IsKept self.new }
        ensures number { self.new.number ≡ self.old.number }
        ensures unchanged { OnOk made (self.new ≡ self.old) }
    {
        match made {
            Ok(value) => Ok(value),
            Err(stop) => {
                self.clear();
                Err(stop)
            }
        }
    }
}
