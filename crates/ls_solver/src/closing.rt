//! Closing a solver.
ghost use Rattle.std.specs.Prelude.{◌≡◌, true, false};
ghost use Rattle.ls_solver.specs.Closing.{Closes};
ghost use Rattle.term_model.specs.Definitions.{IsAcyclic};
ghost use Rattle.term_model.specs.Wellformed.{HasDefinedSets};

use crate::fault::SolverFault;
use crate::solver::Solver;
use cbl_base::{NoMemory, RunFault};
use model_values::ModelStop;
use node_kinds::SolverNode;
use solver_models::cycle_of;
use solver_store::close;
use std::mem;

impl<N: SolverNode> Solver<N> {
    /// Closes the solver, and evaluates all. Refused with `AlreadyClosed`. `Cyclic` comes exactly where variables depend
    /// on one another in a circle, and names the cycle that begins at the least variable on one, is shortest, and is
    /// first in the order of lists; with both the solver is as before. `At` is exactly the fault of the whole model,
    /// and after it, and after `NoMemory`, the solver can't be used any more. `workers` has no use yet.
    ///
    /// Each set variable must have a definition.
    pub fn close(&mut self, _workers: u32) -> Result<(), SolverFault>
        requires usable { self.old.usable ≡ true }
        requires sets { self.old.closed ≡ false → HasDefinedSets self.old.model }
        ensures { Closes self.old self.new result }
    {
        if self.is_closed() {
            return Err(SolverFault::Run(RunFault::AlreadyClosed));
        }
        match cycle_of(self.alloc, self.number, &self.model) {
            Ok(None) => self.close_acyclic(),
            Ok(Some(cycle)) => Err(SolverFault::Cyclic(cycle)),
            Err(NoMemory) => {
                self.usable = false;
                Err(SolverFault::NoMemory)
            }
        }
    }

    /// The same of an open solver whose variables don't depend on one another in a circle.
    fn close_acyclic(&mut self) -> Result<(), SolverFault>
        requires usable { self.old.usable ≡ true }
        requires closed { self.old.closed ≡ false }
        requires sets { HasDefinedSets self.old.model }
        requires acyclic { IsAcyclic self.old.model }
        ensures { Closes self.old self.new result }
    {
        let waiting = mem::replace(&mut self.waiting, Vec::new(self.alloc));
        match close(self.alloc, &self.model, &self.assignment, waiting) {
            Ok(closed) => {
                self.closed = Some(closed);
                Ok(())
            }
            Err(ModelStop::Fault(place, fault)) => {
                self.usable = false;
                Err(SolverFault::At(place, fault))
            }
            Err(ModelStop::NoMemory) => {
                self.usable = false;
                Err(SolverFault::NoMemory)
            }
        }
    }
}
