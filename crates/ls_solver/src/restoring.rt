//! Solutions: the values of the free variables, kept and restored.
ghost use Rattle.std.specs.Prelude.{◌≡◌, ◌+◌, ◌*◌, ◌<◌, ◌≤◌, true, length, IfOk, OnOk};
ghost use Rattle.ls_solver.specs.Answers.{Answers};
ghost use Rattle.ls_solver.specs.Committing.{Commits};
ghost use Rattle.ls_solver.specs.Touching.{touch_of};
ghost use Rattle.ls_solver.specs.Restoring.{Restores, free_places, free_values, is_of, moves_to, restore_refusal, snapshot_refusal, solution_of};

use crate::fault::SolverFault;
use crate::solver::Solver;
use cbl_base::{NoMemory, Numbers, RunFault, Steps};
use ls_events::{Solution, VarChange};
use node_kinds::SolverNode;
use solver_models::{free_count, free_moves, free_numbers};
use std::marker::Brand;
use std::sync::ledger::{Blank, Ledger};

impl<N: SolverNode> Solver<N> {
    /// The values of all free variables, in order of declaration. Refused with `NotClosed` where the solver is open.
    pub fn snapshot(&self) -> Result<Solution, SolverFault>
        requires { self.now.usable ≡ true }
        ensures answer { Answers (snapshot_refusal self.now) result }
        ensures values { IfOk result (λ solution. solution ≡ solution_of self.now) }
    {
        if !self.is_closed() {
            return Err(SolverFault::Run(RunFault::NotClosed));
        }
        match self.free_values() {
            Ok(values) => Ok(Solution {
                solver: self.number,
                values,
            }),
            Err(NoMemory) => Err(SolverFault::NoMemory),
        }
    }

    /// The numbers of all free variables in the assignment.
    fn free_values(&self) -> Result<Numbers, NoMemory>
        ensures { IfOk result (λ values. values ≡ free_values self.now) }
    {
        let numbers = free_numbers(self.alloc, &self.marks, &self.assignment)?;
        Numbers::from_slice(self.alloc, &numbers)
    }

    /// How many free variables there are.
    fn free_count(&self) -> usize
        ensures { result ≡ length (free_places self.now.model) }
    {
        free_count(&self.marks)
    }

    /// Whether a solution is one of this solver's free variables.
    fn has_solution(&self, solution: &Solution) -> bool
        ensures { result ≡ is_of self.now solution.now }
    {
        solution.solver == self.number && solution.values.len() == self.free_count()
    }

    /// Why a solution can't be restored.
    fn restore_refusal(&self, solution: &Solution) -> Option<RunFault>
        ensures { result ≡ restore_refusal self.now solution.now }
    {
        if !self.is_closed() {
            return Some(RunFault::NotClosed);
        }
        if !self.has_solution(solution) {
            return Some(RunFault::WrongSolver);
        }
        None
    }

    /// Gives all free variables the values of a solution, all at once, and tells the whole-number variables whose values
    /// changed, in order of declaration. Refused with `NotClosed` where the solver is open, and then with `WrongSolver`
    /// where the solution is another solver's or its values aren't as many as the free variables; the solver is then as
    /// before. `At` is exactly the fault of the whole model, and after it, and after `NoMemory`, the solver can't be used
    /// any more. The steps are at most four times what the moves of all free variables touch.
    pub fn restore<L: Ledger>(
        &mut self,
        solution: &Solution,
        steps: &mut Steps<L>,
    ) -> Result<Vec<VarChange>, SolverFault>
        requires { self.old.usable ≡ true }
        ensures restores { Restores self.old solution.now self.new result }
        ensures values { OnOk result (free_values self.new ≡ solution.now.values) }
        ensures steps { steps.new ≤ steps.old + 4 * touch_of self.old (moves_to self.old solution.now.values) }
    {
        match self.restore_refusal(solution) {
            Some(fault) => Err(SolverFault::Run(fault)),
            None => self.restore_values(solution.values.as_slice(), steps),
        }
    }

    /// The same without a count of steps.
    pub fn restore_uncounted(&mut self, solution: &Solution) -> Result<Vec<VarChange>, SolverFault>
        requires { self.old.usable ≡ true }
        ensures restores { Restores self.old solution.now self.new result }
        ensures values { OnOk result (free_values self.new ≡ solution.now.values) }
    {
        self.restore_by::<Brand>(solution, Blank::new(1))
    }

    /// The same with a count of its own.
    fn restore_by<L: Ledger>(
        &mut self,
        solution: &Solution,
        blank: Blank,
    ) -> Result<Vec<VarChange>, SolverFault>
        requires name { blank.name ≡ L.name }
        requires parts { blank.parts ≡ L.parts }
        requires some { 0 < L.parts }
        requires usable { self.old.usable ≡ true }
        ensures restores { Restores self.old solution.now self.new result }
        ensures values { OnOk result (free_values self.new ≡ solution.now.values) }
    {
        let mut steps = Steps::<L>::new(blank);
        self.restore(solution, &mut steps)
    }

    /// The same of a closed solver, for the values alone.
    fn restore_values<L: Ledger>(
        &mut self,
        values: &[i64],
        steps: &mut Steps<L>,
    ) -> Result<Vec<VarChange>, SolverFault>
        requires usable { self.old.usable ≡ true }
        requires closed { self.old.closed ≡ true }
        ensures commits { Commits self.old (moves_to self.old values.now) self.new result }
        ensures values { OnOk result (length values.now ≡ length (free_places self.old.model) →
            free_values self.new ≡ values.now) }
        ensures steps { steps.new ≤ steps.old + 4 * touch_of self.old (moves_to self.old values.now) }
    {
        match free_moves(self.alloc, self.number, &self.marks, values) {
            Ok(moves) => self.commit_own(&moves, steps),
            Err(NoMemory) => {
                self.usable = false;
                Err(SolverFault::NoMemory)
            }
        }
    }
}
