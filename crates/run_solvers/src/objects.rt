//! Systems and objectives of the solvers of a run.
ghost use Rattle.std.specs.Prelude.{◌≡◌, ◌∷◌, [], IfErr};
ghost use Rattle.comet_meaning.specs.Parts.{solver_at};
ghost use Rattle.comet_meaning.specs.State.{State};
ghost use Rattle.comet_meaning.specs.Systems.{adding_objective, delta, make_objective, make_sum, make_system, of_whole, post, post_to, variable_violations, whole_value};
ghost use Rattle.comet_meaning.specs.Values as values;
ghost use Rattle.ls_solver.specs.Totals.{whole_of};
ghost use Rattle.model_values.specs.declared.deltas.Move.TheVariants.{Assign, Swap};
ghost use Rattle.run_values.specs.Did.{Did, IsFaultOrMemory};
ghost use Rattle.run_values.specs.Views.{value_seen};

use crate::asking::total_of;
use crate::built::Built;
use crate::solvers::Solvers;
use cbl_base::{Place, RunFault, VarId};
use ls_solver::TotalId;
use node_kinds::SolverNode;
use run_values::{Stop, Value};

impl<N: SolverNode> Solvers<N> {
    /// A new system of the solver with a number, which is declared at a place. `AlreadyClosed` there exactly where the
    /// solver is closed. `NoMemory` also where there is no such solver, which no run asks.
    pub fn new_system(&mut self, at: Place, number: usize) -> Result<Value, Stop>
        ensures did { (s : State) → s.solvers ≡ self.old →
            Did value_seen result (record s { solvers = self.new }) (make_system at number s) }
        ensures stop { IfErr result IsFaultOrMemory }
    {
        if number >= self.held.len() {
            return Err(Stop::NoMemory);
        }
        self.held[number].new_system(at)
    }

    /// A new sum of the solver with a number, likewise.
    pub fn new_sum(&mut self, at: Place, number: usize) -> Result<Value, Stop>
        ensures did { (s : State) → s.solvers ≡ self.old →
            Did value_seen result (record s { solvers = self.new }) (make_sum at number s) }
        ensures stop { IfErr result IsFaultOrMemory }
    {
        if number >= self.held.len() {
            return Err(Stop::NoMemory);
        }
        self.held[number].new_sum(at)
    }

    /// A new objective of one term, of the solver of the first variable in it. `WrongSolver` at this place where there is
    /// none; then `AlreadyClosed` where the solver is closed; and then the stops of `post`. `NoMemory` also where there is
    /// no such solver, which no run asks.
    pub fn new_objective(&mut self, at: Place, built: Built) -> Result<Value, Stop>
        ensures did { (s : State) → s.solvers ≡ self.old →
            Did value_seen result (record s { solvers = self.new }) (make_objective at built s) }
        ensures stop { IfErr result IsFaultOrMemory }
    {
        match built.first_variable() {
            None => Err(Stop::Fault(at, RunFault::WrongSolver)),
            Some(variable) => self.objective_in(at, variable.solver, built),
        }
    }

    /// A new objective of one term, of the solver with a number.
    fn objective_in(&mut self, at: Place, solver: u32, built: Built) -> Result<Value, Stop>
        ensures did { (s : State) → s.solvers ≡ self.old →
            Did value_seen result (record s { solvers = self.new })
            (adding_objective at solver built (solver_at s solver) s) }
        ensures stop { IfErr result IsFaultOrMemory }
    {
        let number = solver as usize;
        if number >= self.held.len() {
            return Err(Stop::NoMemory);
        }
        self.held[number].new_objective(at, built)
    }

    /// Posts a term with a weight to a system or an objective; to any other value nothing is posted. At this place
    /// `AlreadyClosed` where its solver is closed; then `WrongSolver` where a variable in the term isn't of its solver;
    /// then `OutOfRange` where the weight is below 0; and then `TooMany` term nodes where all terms have more distinct
    /// subterms than they may.
    pub fn post(&mut self, at: Place, whole: &Value, built: Built, weight: i64) -> Result<(), Stop>
        ensures did { (s : State) → s.solvers ≡ self.old →
            Did (λ _. values.Nothing) result (record s { solvers = self.new })
            (post at built weight (value_seen whole.now) s) }
        ensures stop { IfErr result IsFaultOrMemory }
    {
        match total_of(whole) {
            None => Ok(()),
            Some(total) => self.post_to(at, total, built, weight),
        }
    }

    /// Posts a term with a weight to a system or an objective.
    fn post_to(&mut self, at: Place, total: TotalId, built: Built, weight: i64) -> Result<(), Stop>
        ensures did { (s : State) → s.solvers ≡ self.old →
            Did (λ _. values.Nothing) result (record s { solvers = self.new })
            (post_to at built weight total.solver (whole_of total) s) }
        ensures stop { IfErr result IsFaultOrMemory }
    {
        let number = total.solver as usize;
        if number >= self.held.len() {
            return Err(Stop::Fault(at, RunFault::WrongSolver));
        }
        self.held[number].post(at, total, built, weight)
    }

    /// The violations of a system, or the value of an objective, asked at a place; of any other value nothing. There
    /// `NotClosed` exactly where its solver is open.
    pub fn whole_value(&self, at: Place, whole: &Value) -> Result<Value, Stop>
        ensures did { (s : State) → s.solvers ≡ self.now →
            Did value_seen result s (of_whole (whole_value at) (value_seen whole.now) s) }
        ensures stop { IfErr result IsFaultOrMemory }
    {
        match total_of(whole) {
            None => Ok(Value::Nothing),
            Some(total) => self.total_value(at, total),
        }
    }

    /// The same of a system or an objective.
    fn total_value(&self, at: Place, total: TotalId) -> Result<Value, Stop>
        ensures did { (s : State) → s.solvers ≡ self.now →
            Did value_seen result s (whole_value at total.solver (whole_of total) s) }
        ensures stop { IfErr result IsFaultOrMemory }
    {
        let number = total.solver as usize;
        if number >= self.held.len() {
            return Err(Stop::Fault(at, RunFault::NotClosed));
        }
        self.held[number].total_value(at, total)
    }

    /// How much of a system's violations is a variable's, 0 of an objective, and nothing of any other value. At this place
    /// `NotClosed` where its solver is open; then `WrongSolver` where the variable isn't of its solver; and then
    /// `Overflow`.
    pub fn violations_of(&self, at: Place, whole: &Value, x: VarId) -> Result<Value, Stop>
        ensures did { (s : State) → s.solvers ≡ self.now →
            Did value_seen result s (of_whole (variable_violations at x) (value_seen whole.now) s) }
        ensures stop { IfErr result IsFaultOrMemory }
    {
        match total_of(whole) {
            None => Ok(Value::Nothing),
            Some(total) => self.total_violations(at, total, x),
        }
    }

    /// The same of a system or an objective.
    fn total_violations(&self, at: Place, total: TotalId, x: VarId) -> Result<Value, Stop>
        ensures did { (s : State) → s.solvers ≡ self.now →
            Did value_seen result s (variable_violations at x total.solver (whole_of total) s) }
        ensures stop { IfErr result IsFaultOrMemory }
    {
        let number = total.solver as usize;
        if number >= self.held.len() {
            return Err(Stop::Fault(at, RunFault::NotClosed));
        }
        self.held[number].violations_of(at, total, x)
    }

    /// How the violations of a system, or the value of an objective, would change if a variable got another number; of any
    /// other value nothing. At this place `NotClosed` where its solver is open; then `WrongSolver` where the variable isn't
    /// of its solver; then `DefinedVariable` and `Overflow`; and the fault of the terms where it was met.
    pub fn assign_delta(
        &self,
        at: Place,
        whole: &Value,
        x: VarId,
        number: i64,
    ) -> Result<Value, Stop>
        ensures did { (s : State) → s.solvers ≡ self.now →
            Did value_seen result s (of_whole (delta at (x ∷ []) (Assign x.index number))
            (value_seen whole.now) s) }
        ensures stop { IfErr result IsFaultOrMemory }
    {
        match total_of(whole) {
            None => Ok(Value::Nothing),
            Some(total) => self.total_assigned(at, total, x, number),
        }
    }

    /// The same of a system or an objective.
    fn total_assigned(&self, at: Place, total: TotalId, x: VarId, v: i64) -> Result<Value, Stop>
        ensures did { (s : State) → s.solvers ≡ self.now →
            Did value_seen result s (delta at (x ∷ []) (Assign x.index v) total.solver
            (whole_of total) s) }
        ensures stop { IfErr result IsFaultOrMemory }
    {
        let number = total.solver as usize;
        if number >= self.held.len() {
            return Err(Stop::Fault(at, RunFault::NotClosed));
        }
        self.held[number].assign_delta(at, total, x, v)
    }

    /// How it would change if two variables exchanged their numbers, by 0 where they are one. The stops are those of
    /// `assign_delta`, of both variables.
    pub fn swap_delta(&self, at: Place, whole: &Value, x: VarId, y: VarId) -> Result<Value, Stop>
        ensures did { (s : State) → s.solvers ≡ self.now →
            Did value_seen result s (of_whole (delta at (x ∷ y ∷ []) (Swap x.index y.index))
            (value_seen whole.now) s) }
        ensures stop { IfErr result IsFaultOrMemory }
    {
        match total_of(whole) {
            None => Ok(Value::Nothing),
            Some(total) => self.total_swapped(at, total, x, y),
        }
    }

    /// The same of a system or an objective.
    fn total_swapped(&self, at: Place, total: TotalId, x: VarId, y: VarId) -> Result<Value, Stop>
        ensures did { (s : State) → s.solvers ≡ self.now →
            Did value_seen result s (delta at (x ∷ y ∷ []) (Swap x.index y.index) total.solver
            (whole_of total) s) }
        ensures stop { IfErr result IsFaultOrMemory }
    {
        let number = total.solver as usize;
        if number >= self.held.len() {
            return Err(Stop::Fault(at, RunFault::NotClosed));
        }
        self.held[number].swap_delta(at, total, x, y)
    }
}
