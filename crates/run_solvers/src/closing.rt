//! Closing a solver.
ghost use Rattle.std.specs.Prelude.{◌≡◌};
ghost use Rattle.run_solvers.specs.Changing.{closed_one};
ghost use Rattle.run_solvers.specs.Kept.{IsKept};
ghost use Rattle.run_solvers.specs.Makes.{Changes, Tries};
ghost use Rattle.run_solvers.specs.Views.{held_seen};

use crate::held::Held;
use crate::refusals::stop_of;
use cbl_base::Place;
use node_kinds::SolverNode;
use run_values::Stop;

impl<N: SolverNode> Held<N> {
    /// Closes the solver, and evaluates its variables. `AlreadyClosed` at this place exactly where it is closed, else the
    /// named cycle of its definitions at this place, and else the fault of its variables where it was met.
    pub(crate) fn close(&mut self, at: Place) -> Result<(), Stop>
        requires { IsKept self.old }
        ensures { Changes self.old self.new result (closed_one at (held_seen self.old)) }
    {
        let made = self.try_close(at);
        self.finish(made)
    }

    /// The same, where a solver that stops is left as it may be.
    fn try_close(&mut self, at: Place) -> Result<(), Stop>
        requires { IsKept self.old }
        ensures { Tries self.old self.new result (closed_one at (held_seen self.old)) }
    {
        self.solver.keeps_form();
        match self.solver.close(1) {
            Ok(()) => Ok(()),
            Err(fault) => Err(stop_of(self.alloc, at, &self.names, fault)),
        }
    }
}
