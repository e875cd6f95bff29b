//! What is asked about systems and objectives.
ghost use Rattle.std.specs.Prelude.{◌≡◌, ◌&&◌, ◌∷◌, [], ℤ, Result, IfErr};
ghost use Rattle.comet_meaning.specs.State.{State};
ghost use Rattle.comet_meaning.specs.Systems.{asking, delta_answer, give_asked, valuing, violations_answer};
ghost use Rattle.ls_solver.specs.Answers.{IsReply};
ghost use Rattle.ls_solver.specs.Ids.{is_own};
ghost use Rattle.ls_solver.specs.Totals.{is_own_total, whole_of};
ghost use Rattle.model_values.specs.declared.asked.AskStop.{AskStop};
ghost use Rattle.model_values.specs.declared.deltas.Move.TheVariants.{Assign, Swap};
ghost use Rattle.run_solvers.specs.Kept.{IsKept};
ghost use Rattle.run_solvers.specs.Totals.{total_in};
ghost use Rattle.run_solvers.specs.Views.{held_seen};
ghost use Rattle.run_values.specs.Did.{Did, IsFaultOrMemory};
ghost use Rattle.run_values.specs.Views.{value_seen};
ghost use Rattle.term_model.specs.declared.posting.Side.TheVariants.{Objectives, Systems};

use crate::held::Held;
use crate::refusals::stop_of;
use cbl_base::{Place, RunFault, VarId};
use ls_solver::{SolverFault, SystemId, TotalId};
use node_kinds::SolverNode;
use run_values::{Stop, Value};
use term_model::Side;

/// The system or the objective that a value is.
pub(crate) fn total_of(value: &Value) -> Option<TotalId>
    ensures { result ≡ total_in (value_seen value.now) }
{
    match value {
        Value::System { solver, index } => Some(TotalId {
            side: Side::Systems,
            solver: *solver,
            index: *index,
        }),
        Value::Objective { solver, index } => Some(TotalId {
            side: Side::Objectives,
            solver: *solver,
            index: *index,
        }),
        _ => None,
    }
}

/// What a solver answers, as a run has it.
fn answer_of(at: Place, answer: Result<i64, SolverFault>) -> Result<Value, Stop>
    ensures did { (reply : Result ℤ AskStop) → IsReply reply answer → (s : State) →
        Did value_seen result s (give_asked at reply s) }
    ensures stop { IfErr result IsFaultOrMemory }
{
    match answer {
        Ok(number) => Ok(Value::Number(number)),
        Err(SolverFault::Run(fault)) => Err(Stop::Fault(at, fault)),
        Err(SolverFault::At(place, fault)) => Err(Stop::Fault(place, fault)),
        // no cycle is a reply
        Err(SolverFault::Cyclic(_)) => Err(Stop::NoMemory),
        Err(SolverFault::NoMemory) => Err(Stop::NoMemory),
    }
}

impl<N: SolverNode> Held<N> {
    /// The violations of a system, or the value of an objective, asked at a place. There `NotClosed` exactly where the
    /// solver is open, and then `WrongSolver` exactly where it has no such system or objective.
    pub(crate) fn total_value(&self, at: Place, total: TotalId) -> Result<Value, Stop>
        requires kept { IsKept self.now }
        requires own { total.solver ≡ self.now.number }
        ensures did { (s : State) → Did value_seen result s
            (valuing at (whole_of total) (held_seen self.now) s) }
        ensures stop { IfErr result IsFaultOrMemory }
    {
        match self.solver.total(total) {
            Ok(number) => Ok(Value::Number(number)),
            Err(fault) => Err(stop_of(self.alloc, at, &self.names, fault)),
        }
    }

    /// How the value would change if a variable got another number. At this place `NotClosed` where the solver is open;
    /// then `WrongSolver` where the system or objective, or the variable, isn't its own; then `DefinedVariable` and
    /// `Overflow`; and the fault of the terms where it was met.
    pub(crate) fn assign_delta(
        &self,
        at: Place,
        total: TotalId,
        x: VarId,
        number: i64,
    ) -> Result<Value, Stop>
        requires kept { IsKept self.now }
        requires own { total.solver ≡ self.now.number }
        ensures did { (s : State) → Did value_seen result s
            (asking at total.solver (whole_of total) (x ∷ [])
            (delta_answer (held_seen self.now) (whole_of total) (Assign x.index number))
            (held_seen self.now) s) }
        ensures stop { IfErr result IsFaultOrMemory }
    {
        answer_of(at, self.solver.assign_delta_in(total, x, number))
    }

    /// How the value would change if two variables exchanged their numbers. The stops are those of `assign_delta`, of both
    /// variables.
    pub(crate) fn swap_delta(
        &self,
        at: Place,
        total: TotalId,
        x: VarId,
        y: VarId,
    ) -> Result<Value, Stop>
        requires kept { IsKept self.now }
        requires own { total.solver ≡ self.now.number }
        ensures did { (s : State) → Did value_seen result s
            (asking at total.solver (whole_of total) (x ∷ y ∷ [])
            (delta_answer (held_seen self.now) (whole_of total) (Swap x.index y.index))
            (held_seen self.now) s) }
        ensures stop { IfErr result IsFaultOrMemory }
    {
        answer_of(at, self.solver.swap_delta_in(total, x, y))
    }

    /// How much of a system's violations is a variable's, and nothing of an objective. The stops are those of
    /// `assign_delta`, but for `DefinedVariable`.
    pub(crate) fn violations_of(&self, at: Place, total: TotalId, x: VarId) -> Result<Value, Stop>
        requires kept { IsKept self.now }
        requires own { total.solver ≡ self.now.number }
        ensures did { (s : State) → Did value_seen result s
            (asking at total.solver (whole_of total) (x ∷ [])
            (violations_answer (held_seen self.now) (whole_of total) x) (held_seen self.now) s) }
        ensures stop { IfErr result IsFaultOrMemory }
    {
        match total.side {
            Side::Systems => self.system_violations(at, total, x),
            Side::Objectives => self.no_violations(at, total, x),
        }
    }

    /// How much of a system's violations is a variable's.
    fn system_violations(&self, at: Place, total: TotalId, x: VarId) -> Result<Value, Stop>
        requires kept { IsKept self.now }
        requires own { total.solver ≡ self.now.number }
        requires side { total.side ≡ Systems }
        ensures did { (s : State) → Did value_seen result s
            (asking at total.solver (whole_of total) (x ∷ [])
            (violations_answer (held_seen self.now) (whole_of total) x) (held_seen self.now) s) }
        ensures stop { IfErr result IsFaultOrMemory }
    {
        let system = SystemId {
            solver: total.solver,
            index: total.index,
        };
        answer_of(at, self.solver.var_violations(system, x))
    }

    /// Nothing of an objective is a variable's.
    fn no_violations(&self, at: Place, total: TotalId, x: VarId) -> Result<Value, Stop>
        requires kept { IsKept self.now }
        requires own { total.solver ≡ self.now.number }
        requires side { total.side ≡ Objectives }
        ensures did { (s : State) → Did value_seen result s
            (asking at total.solver (whole_of total) (x ∷ [])
            (violations_answer (held_seen self.now) (whole_of total) x) (held_seen self.now) s) }
        ensures stop { IfErr result IsFaultOrMemory }
    {
        if !self.solver.is_closed() {
            return Err(Stop::Fault(at, RunFault::NotClosed));
        }
        if !self.owns_asked(total, x) {
            return Err(Stop::Fault(at, RunFault::WrongSolver));
        }
        Ok(Value::Number(0))
    }

    /// Whether a system or an objective, and a variable, are the solver's.
    fn owns_asked(&self, total: TotalId, x: VarId) -> bool
        ensures { result ≡ (is_own_total self.now.solver total && is_own self.now.solver x) }
    {
        self.solver.owns_total(total) && self.solver.owns(x)
    }
}
