//! New numbers of a solver's variables.
ghost use Rattle.std.specs.Prelude.{◌≡◌, ◌&&◌, ◌||◌, ◌∷◌, [], ℤ, ℕ, None, Some, false, is_some, not, slice_get, true, IfErr, IfOk};
ghost use Rattle.cbl_base.specs.declared.ids.VarId.{VarId};
ghost use Rattle.comet_meaning.specs.Models.{after_moves, number_now};
ghost use Rattle.ls_solver.specs.Committing.{AreDistinct};
ghost use Rattle.ls_solver.specs.Ids.{has_definition, is_own};
ghost use Rattle.run_solvers.specs.Changing.{assigned_one, committed_one, evaluated, moved_one, opened_one, swapped_one};
ghost use Rattle.run_solvers.specs.Kept.{AreWaiting, IsKept};
ghost use Rattle.run_solvers.specs.Makes.{Changes, Moves, Tries, TriesToMove, made_or};
ghost use Rattle.run_solvers.specs.Views.{held_seen, waits};
ghost use Rattle.run_solvers.specs.Waiting.{indexed, overlaid};
ghost use Rattle.run_values.specs.declared.stop.Stop.TheVariants.{NoMemory as WithoutMemory};

use crate::held::Held;
use crate::waiting::{moves_of, nothing_waiting, wait_in};
use cbl_base::{NoMemory, Place, RunFault, VarId};
use ls_events::VarChange;
use ls_solver::SolverFault;
use node_kinds::SolverNode;
use run_values::Stop;
use std::mem;

impl<N: SolverNode> Held<N> {
    /// Gives a variable a number, which waits while a `with` is open. At this place `WrongSolver` where the solver has no
    /// such variable, and then `DefinedVariable` where it has a definition; and else the fault of a closed solver's
    /// variables where it was met.
    pub(crate) fn assign(
        &mut self,
        at: Place,
        variable: VarId,
        number: i64,
    ) -> Result<Vec<VarChange>, Stop>
        requires kept { IsKept self.old }
        requires own { variable.solver ≡ self.old.number }
        ensures { Moves self.old self.new result
            (assigned_one at variable number (held_seen self.old)) }
    {
        let made = self.try_assign(at, variable, number);
        self.finish(made)
    }

    /// The same, where a solver that stops is left as it may be.
    fn try_assign(
        &mut self,
        at: Place,
        variable: VarId,
        number: i64,
    ) -> Result<Vec<VarChange>, Stop>
        requires kept { IsKept self.old }
        requires own { variable.solver ≡ self.old.number }
        ensures { TriesToMove self.old self.new result
            (assigned_one at variable number (held_seen self.old)) }
    {
        if !self.solver.owns(variable) {
            return Err(Stop::Fault(at, RunFault::WrongSolver));
        }
        if self.solver.defines(variable) {
            return Err(Stop::Fault(at, RunFault::DefinedVariable));
        }
        self.move_one(variable, number)
    }

    /// Gives each of two variables the number that the other has, which wait while a `with` is open. The stops are those
    /// of `assign`, of both variables.
    pub(crate) fn swap(&mut self, at: Place, x: VarId, y: VarId) -> Result<Vec<VarChange>, Stop>
        requires kept { IsKept self.old }
        requires own { x.solver ≡ self.old.number }
        ensures { Moves self.old self.new result (swapped_one at x y (held_seen self.old)) }
    {
        let made = self.try_swap(at, x, y);
        self.finish(made)
    }

    /// The same, where a solver that stops is left as it may be.
    fn try_swap(&mut self, at: Place, x: VarId, y: VarId) -> Result<Vec<VarChange>, Stop>
        requires kept { IsKept self.old }
        requires own { x.solver ≡ self.old.number }
        ensures { TriesToMove self.old self.new result (swapped_one at x y (held_seen self.old)) }
    {
        if !self.owns_both(x, y) {
            return Err(Stop::Fault(at, RunFault::WrongSolver));
        }
        if self.defines_either(x, y) {
            return Err(Stop::Fault(at, RunFault::DefinedVariable));
        }
        self.exchange(x, y)
    }

    /// Whether two variables are the solver's.
    fn owns_both(&self, x: VarId, y: VarId) -> bool
        ensures { result ≡ (is_own self.now.solver x && is_own self.now.solver y) }
    {
        self.solver.owns(x) && self.solver.owns(y)
    }

    /// Whether one of two variables of the solver has a definition.
    fn defines_either(&self, x: VarId, y: VarId) -> bool
        requires { (is_own self.now.solver x && is_own self.now.solver y) ≡ true }
        ensures { result ≡ (has_definition self.now.solver.model x.index || has_definition self.now.solver.model y.index) }
    {
        self.solver.defines(x) || self.solver.defines(y)
    }

    /// The same of free variables of the solver.
    fn exchange(&mut self, x: VarId, y: VarId) -> Result<Vec<VarChange>, Stop>
        requires kept { IsKept self.old }
        requires own { (is_own self.old.solver x ≡ true) × (is_own self.old.solver y ≡ true) }
        requires free { (has_definition self.old.solver.model x.index ≡ false) ×
            (has_definition self.old.solver.model y.index ≡ false) }
        ensures { TriesToMove self.old self.new result
            (moved_one ((x.index, number_now (held_seen self.old) y.index) ∷
            (y.index, number_now (held_seen self.old) x.index) ∷ []) (held_seen self.old)
            (held_seen self.old).waiting) }
    {
        match self.number_of(x) {
            Err(stop) => Err(stop),
            Ok(first) => match self.number_of(y) {
                Err(stop) => Err(stop),
                Ok(second) => self.move_both((x, second), (y, first)),
            },
        }
    }

    /// The number of a free variable.
    fn number_of(&self, variable: VarId) -> Result<i64, Stop>
        requires kept { IsKept self.now }
        requires own { is_own self.now.solver variable ≡ true }
        requires free { has_definition self.now.solver.model variable.index ≡ false }
        ensures value { IfOk result (λ number.
            number ≡ number_now (held_seen self.now) variable.index) }
        ensures stop { IfErr result (λ stop. stop ≡ WithoutMemory) }
    {
        match self.solver.value(variable) {
            Ok(number) => Ok(number),
            // it isn't refused
            Err(_) => Err(Stop::NoMemory),
        }
    }

    /// Gives a free variable of the solver a number.
    fn move_one(&mut self, variable: VarId, number: i64) -> Result<Vec<VarChange>, Stop>
        requires kept { IsKept self.old }
        requires own { is_own self.old.solver variable ≡ true }
        requires free { has_definition self.old.solver.model variable.index ≡ false }
        ensures { TriesToMove self.old self.new result
            (moved_one ((variable.index, number) ∷ []) (held_seen self.old)
            (held_seen self.old).waiting) }
    {
        self.solver.keeps_form();
        if wait_in(&mut self.waiting, variable.index, number) {
            return Ok(Vec::new(self.alloc));
        }
        self.commit(&[(variable, number)])
    }

    /// Gives free variables of the solver numbers, of which the second counts where both are one.
    fn move_both(
        &mut self,
        first: (VarId, i64),
        second: (VarId, i64),
    ) -> Result<Vec<VarChange>, Stop>
        requires kept { IsKept self.old }
        requires own { (is_own self.old.solver first.0 ≡ true) ×
            (is_own self.old.solver second.0 ≡ true) }
        requires free { (has_definition self.old.solver.model first.0.index ≡ false) ×
            (has_definition self.old.solver.model second.0.index ≡ false) }
        ensures { TriesToMove self.old self.new result
            (moved_one ((first.0.index, first.1) ∷ (second.0.index, second.1) ∷ [])
            (held_seen self.old) (held_seen self.old).waiting) }
    {
        self.solver.keeps_form();
        if wait_in(&mut self.waiting, first.0.index, first.1) {
            return self.move_one(second.0, second.1);
        }
        if first.0.index == second.0.index {
            return self.commit(&[second]);
        }
        self.commit(&[first, second])
    }

    /// Gives free variables of the solver numbers at once, where nothing waits.
    pub(crate) fn commit(&mut self, moves: &[(VarId, i64)]) -> Result<Vec<VarChange>, Stop>
        requires kept { IsKept self.old }
        requires nothing { waits self.old ≡ None }
        requires distinct { AreDistinct moves.now }
        requires free { (k : ℕ) (m : VarId × ℤ) → slice_get moves.now k ≡ Some m →
            (is_own self.old.solver m.0 ≡ true) ×
            (has_definition self.old.solver.model m.0.index ≡ false) }
        ensures { TriesToMove self.old self.new result
            (evaluated (record (held_seen self.old) {
              assignment = after_moves
                  (indexed moves.now) self.old.solver.assignment;
            })) }
    {
        self.solver.keeps_form();
        match self.solver.commit_uncounted(moves) {
            Ok(changes) => Ok(changes),
            Err(SolverFault::At(place, fault)) => Err(Stop::Fault(place, fault)),
            // no refusal is left to come
            Err(_) => Err(Stop::NoMemory),
        }
    }

    /// Opens a `with` on the solver, and tells whether it is the outermost. `NotClosed` at this place exactly where the
    /// solver is open.
    pub(crate) fn open_block(&mut self, at: Place) -> Result<bool, Stop>
        requires { IsKept self.old }
        ensures changes { Changes self.old self.new result (opened_one at (held_seen self.old)) }
        ensures outermost { IfOk result (λ b. b ≡ not (is_some (held_seen self.old).waiting)) }
    {
        let made = self.try_open(at);
        self.finish(made)
    }

    /// The same, where a solver that stops is left as it may be.
    fn try_open(&mut self, at: Place) -> Result<bool, Stop>
        requires { IsKept self.old }
        ensures tries { Tries self.old self.new result (opened_one at (held_seen self.old)) }
        ensures outermost { IfOk result (λ b. b ≡ not (is_some (held_seen self.old).waiting)) }
    {
        if !self.solver.is_closed() {
            return Err(Stop::Fault(at, RunFault::NotClosed));
        }
        if self.waiting.is_some() {
            return Ok(false);
        }
        match nothing_waiting(self.alloc, self.names.len()) {
            Ok(waiting) => {
                self.solver.keeps_form();
                self.waiting = Some(waiting);
                Ok(true)
            }
            Err(NoMemory) => Err(Stop::NoMemory),
        }
    }

    /// Commits what waits, at the end of the outermost `with`. The stop is the fault of the solver's variables where it
    /// was met.
    pub(crate) fn commit_waiting(&mut self) -> Result<Vec<VarChange>, Stop>
        requires { IsKept self.old }
        ensures { Moves self.old self.new result
            (made_or (held_seen self.old) (committed_one (held_seen self.old)
            (held_seen self.old).waiting)) }
    {
        let made = self.try_commit_waiting();
        self.finish(made)
    }

    /// The same, where a solver that stops is left as it may be.
    fn try_commit_waiting(&mut self) -> Result<Vec<VarChange>, Stop>
        requires { IsKept self.old }
        ensures { TriesToMove self.old self.new result
            (made_or (held_seen self.old) (committed_one (held_seen self.old)
            (held_seen self.old).waiting)) }
    {
        match mem::replace(&mut self.waiting, None) {
            None => Ok(Vec::new(self.alloc)),
            Some(waiting) => self.commit_all(&waiting),
        }
    }

    /// Commits numbers that waited.
    fn commit_all(&mut self, waiting: &[Option<i64>]) -> Result<Vec<VarChange>, Stop>
        requires kept { IsKept self.old }
        requires nothing { waits self.old ≡ None }
        requires waiting { AreWaiting self.old.solver (Some waiting.now) }
        ensures { TriesToMove self.old self.new result (evaluated (record (held_seen self.old) { assignment = overlaid self.old.solver.assignment waiting.now })) }
    {
        self.solver.keeps_form();
        match moves_of(self.alloc, self.number, waiting) {
            Ok(moves) => self.commit(&moves),
            Err(NoMemory) => Err(Stop::NoMemory),
        }
    }
}
