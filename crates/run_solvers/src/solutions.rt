//! Solutions: the numbers of a solver's free variables, kept and restored.
ghost use Rattle.std.specs.Prelude.{◌≡◌, None, is_some, true, IfErr, IfOk};
ghost use Rattle.comet_meaning.specs.Solutions as meaning;
ghost use Rattle.comet_meaning.specs.Solutions.{free_variables};
ghost use Rattle.comet_meaning.specs.State.{State};
ghost use Rattle.comet_meaning.specs.Parts.{solver_at};
ghost use Rattle.run_solvers.specs.Kept.{IsKept};
ghost use Rattle.run_solvers.specs.Makes.{Moves, TriesToMove};
ghost use Rattle.run_solvers.specs.Solutions.{kept_numbers, restored_one};
ghost use Rattle.run_solvers.specs.Told.{TellsIn};
ghost use Rattle.run_solvers.specs.Views.{held_seen, waits};
ghost use Rattle.run_values.specs.Did.{Did, IsFaultOrMemory};

use crate::held::Held;
use crate::refusals::stop_of;
use crate::solvers::Solvers;
use crate::waiting::wait_for_all;
use cbl_base::{NoMemory, Place, RunFault};
use ls_events::{Solution, VarChange};
use ls_solver::SolverFault;
use node_kinds::SolverNode;
use run_values::Stop;

impl<N: SolverNode> Held<N> {
    /// The numbers of the free variables. `NotClosed` at this place exactly where the solver is open.
    fn snapshot(&self, at: Place) -> Result<Solution, Stop>
        requires { IsKept self.now }
        ensures did { (s : State) → Did (λ x.
            x.values) result s (kept_numbers at (held_seen self.now) s) }
        ensures number { IfOk result (λ x. x.solver ≡ self.now.number) }
        ensures stop { IfErr result IsFaultOrMemory }
    {
        self.solver.keeps_form();
        match self.solver.snapshot() {
            Ok(solution) => Ok(solution),
            Err(fault) => Err(stop_of(self.alloc, at, &self.names, fault)),
        }
    }

    /// Gives all free variables the numbers of a solution at once, which wait while a `with` is open; tells what changed.
    /// At this place `NotClosed` where the solver is open, and then `WrongSolver` where the solution hasn't as many
    /// numbers as there are free variables; and else the fault of the variables where it was met.
    fn restore(&mut self, at: Place, solution: &Solution) -> Result<Vec<VarChange>, Stop>
        requires kept { IsKept self.old }
        requires own { solution.now.solver ≡ self.old.number }
        ensures { Moves self.old self.new result
            (restored_one at solution.now.values (held_seen self.old)) }
    {
        let made = self.try_restore(at, solution);
        self.finish(made)
    }

    /// The same, where a solver that stops is left as it may be.
    fn try_restore(&mut self, at: Place, solution: &Solution) -> Result<Vec<VarChange>, Stop>
        requires kept { IsKept self.old }
        requires own { solution.now.solver ≡ self.old.number }
        ensures { TriesToMove self.old self.new result
            (restored_one at solution.now.values (held_seen self.old)) }
    {
        if self.waiting.is_some() {
            return self.restore_later(at, solution.values.as_slice());
        }
        self.restore_now(at, solution)
    }

    /// The same, where nothing waits.
    fn restore_now(&mut self, at: Place, solution: &Solution) -> Result<Vec<VarChange>, Stop>
        requires kept { IsKept self.old }
        requires own { solution.now.solver ≡ self.old.number }
        requires nothing { waits self.old ≡ None }
        ensures { TriesToMove self.old self.new result
            (restored_one at solution.now.values (held_seen self.old)) }
    {
        self.solver.keeps_form();
        match self.solver.restore_uncounted(solution) {
            Ok(changes) => Ok(changes),
            Err(SolverFault::Run(fault)) => Err(Stop::Fault(at, fault)),
            Err(SolverFault::At(place, fault)) => Err(Stop::Fault(place, fault)),
            // there is no cycle left to be told
            Err(SolverFault::Cyclic(_) | SolverFault::NoMemory) => Err(Stop::NoMemory),
        }
    }

    /// The same, where the numbers wait.
    fn restore_later(&mut self, at: Place, values: &[i64]) -> Result<Vec<VarChange>, Stop>
        requires kept { IsKept self.old }
        requires waits { is_some (waits self.old) ≡ true }
        ensures { TriesToMove self.old self.new result
            (restored_one at values.now (held_seen self.old)) }
    {
        let Ok(free) = self.free_indices() else {
            return Err(Stop::NoMemory);
        };
        if free.len() != values.len() {
            return Err(Stop::Fault(at, RunFault::WrongSolver));
        }
        self.solver.keeps_form();
        wait_for_all(&mut self.waiting, &free, values);
        Ok(Vec::new(self.alloc))
    }

    /// The indices of the free variables.
    fn free_indices(&self) -> Result<Vec<u32>, NoMemory>
        requires { IsKept self.now }
        ensures { IfOk result (λ free. free.items ≡ free_variables (held_seen self.now)) }
    {
        self.solver.keeps_form();
        let mut free = Vec::new(self.alloc);
        for index in 0..self.names.len() as u32 {
            if !self.solver.defines(self.own(index)) {
                free.push(index)?;
            }
        }
        Ok(free)
    }
}

impl<N: SolverNode> Solvers<N> {
    /// The numbers of the free variables of the solver with a number. `NotClosed` at this place exactly where it is open.
    pub fn snapshot(&self, at: Place, number: usize) -> Result<Solution, Stop>
        ensures did { (s : State) → s.solvers ≡ self.now →
            Did (λ x. x.values) result s (kept_numbers at (solver_at s number) s) }
        ensures number { IfOk result (λ x. x.solver ≡ number) }
        ensures stop { IfErr result IsFaultOrMemory }
    {
        if number >= self.held.len() {
            return Err(Stop::Fault(at, RunFault::NotClosed));
        }
        self.held[number].snapshot(at)
    }

    /// Gives all free variables of a solution's solver its numbers at once, which wait while a `with` is open; tells what
    /// changed. At this place `NotClosed` where the solver is open, and then `WrongSolver` where the solution hasn't as
    /// many numbers as there are free variables; and else the fault of the variables where it was met.
    pub fn restore(&mut self, at: Place, solution: &Solution) -> Result<Vec<VarChange>, Stop>
        ensures did { (s : State) → s.solvers ≡ self.old →
            Did (λ _. tt) result (record s { solvers = self.new })
            (meaning.restoring at solution.now.solver solution.now.values
            (solver_at s solution.now.solver) s) }
        ensures told { TellsIn solution.now.solver self.old self.new result }
        ensures stop { IfErr result IsFaultOrMemory }
    {
        let number = solution.solver as usize;
        if number >= self.held.len() {
            return Err(Stop::Fault(at, RunFault::NotClosed));
        }
        self.held[number].restore(at, solution)
    }
}
