//! What a closed solver replies: how moves would change systems and objectives, and what of a system is a variable's.
ghost use Rattle.std.specs.Prelude.{◌≡◌, ◌+◌, ◌*◌, ◌<◌, ◌≤◌, ℤ, ◌∷◌, [], true, None, Result, length};
ghost use Rattle.ls_solver.specs.Answers.{IsReply};
ghost use Rattle.model_values.specs.Asked.{IsAnswer};
ghost use Rattle.model_values.specs.Delta.{AreOwn, delta_of, moves_defined};
ghost use Rattle.model_values.specs.declared.asked.AskStop.{AskStop};
ghost use Rattle.model_values.specs.declared.deltas.Move.TheVariants.{Assign, Swap};
ghost use Rattle.ls_solver.specs.ClosedParts.{question_of};
ghost use Rattle.ls_solver.specs.Touching.{is_idle, touch_of_move};
ghost use Rattle.model_store.specs.Settings.{Setting};
ghost use Rattle.posted_users.specs.KeptRule.{users_of};
ghost use Rattle.solver_models.specs.Replying.{assign_reply, delta_reply, reply_refusal, swap_reply, variable_reply};
ghost use Rattle.solver_models.specs.Totals.{of_objective, of_system, whole_of};
ghost use Rattle.solver_store.specs.Closed.{setting_of};
ghost use Rattle.store_laws.specs.Deltas.{Question};
ghost use Rattle.term_model.specs.Posting.{totals_by};

use crate::fault::SolverFault;
use crate::solver::Solver;
use cbl_base::{RunFault, Steps, VarId};
use model_values::{AskStop, Move};
use node_kinds::SolverNode;
use solver_models::{ObjectiveId, SystemId, TotalId, are_given, mark_at};
use std::marker::Brand;
use std::sync::ledger::{Blank, Ledger};
use trial::Trial;

/// The same answer as a solver gives it.
fn reply_of(answer: Result<i64, AskStop>) -> Result<i64, SolverFault>
    ensures { (reply : Result ℤ AskStop) → IsAnswer reply answer → IsReply reply result }
{
    match answer {
        Ok(number) => Ok(number),
        Err(AskStop::Run(fault)) => Err(SolverFault::Run(fault)),
        Err(AskStop::Fault(place, fault)) => Err(SolverFault::At(place, fault)),
        Err(AskStop::NoMemory) => Err(SolverFault::NoMemory),
    }
}

/// Whether a move exchanges a variable with itself.
fn is_idle(change: Move) -> bool
    ensures { result ≡ is_idle change }
{
    match change {
        Move::Assign { .. } => false,
        Move::Swap { left, right } => left == right,
    }
}

impl<N: SolverNode> Solver<N> {
    /// Where deltas are tried out. It serves any solver, and is best kept for many deltas.
    pub fn trial(&self) -> Trial
        requires { self.now.usable ≡ true }
    {
        Trial::new(self.alloc)
    }

    /// Why a system or an objective can't be asked about variables.
    fn reply_refusal(&self, k: TotalId, vars: &[VarId]) -> Option<RunFault>
        ensures { result ≡ reply_refusal self.now k vars.now }
    {
        if !self.is_closed() {
            return Some(RunFault::NotClosed);
        }
        if !self.owns_total(k) || !are_given(self.number, self.model.vars.len(), vars) {
            return Some(RunFault::WrongSolver);
        }
        None
    }

    /// How the value of a system or an objective would change with a move of these variables.
    fn delta<L: Ledger>(
        &self,
        k: TotalId,
        vars: &[VarId],
        change: Move,
        trial: &mut Trial,
        steps: &mut Steps<L>,
    ) -> Result<i64, SolverFault>
        requires usable { self.now.usable ≡ true }
        requires own { reply_refusal self.now k vars.now ≡ None → AreOwn self.now.model change }
        ensures reply { IsReply (delta_reply self.now k vars.now change) result }
        ensures steps { steps.new ≤ steps.old + 4 * touch_of_move self.now change }
    {
        match self.reply_refusal(k, vars) {
            Some(fault) => Err(SolverFault::Run(fault)),
            None => reply_of(self.delta_of_own(k, change, trial, steps)),
        }
    }

    /// Whether a variable that is moved has a definition.
    fn moves_defined(&self, change: Move) -> bool
        ensures { result ≡ moves_defined self.now.model change }
    {
        match change {
            Move::Assign { var, value: _ } => mark_at(&self.marks, var),
            Move::Swap { left, right } => {
                mark_at(&self.marks, left) || mark_at(&self.marks, right)
            }
        }
    }

    /// The same of a closed solver's own variables and systems or objectives.
    fn delta_of_own<L: Ledger>(
        &self,
        k: TotalId,
        change: Move,
        trial: &mut Trial,
        steps: &mut Steps<L>,
    ) -> Result<i64, AskStop>
        ghost question: { Question }
        requires question { question ≡ question_of self.now k change }
        requires usable { self.now.usable ≡ true }
        requires closed { self.now.closed ≡ true }
        requires there { k.index < length (totals_by self.now.model k.side) }
        requires moved { AreOwn self.now.model change }
        ensures answer { IsAnswer (delta_of (users_of self.now.rules) self.now.model
            self.now.assignment (whole_of k) change) result }
        ensures steps { steps.new ≤ steps.old + 4 * touch_of_move self.now change }
    {
        let kept = self.kept();
        if self.moves_defined(change) {
            return Err(AskStop::Run(RunFault::DefinedVariable));
        }
        if is_idle(change) {
            return Ok(0);
        }
        kept.delta(
            &self.model,
            &self.assignment,
            trial,
            k.side,
            k.index,
            change,
            steps,
        )
    }

    /// The same with a trial and a count of steps of its own.
    fn delta_by<L: Ledger>(
        &self,
        k: TotalId,
        vars: &[VarId],
        change: Move,
        blank: Blank,
    ) -> Result<i64, SolverFault>
        requires name { blank.name ≡ L.name }
        requires parts { blank.parts ≡ L.parts }
        requires some { 0 < L.parts }
        requires usable { self.now.usable ≡ true }
        requires own { reply_refusal self.now k vars.now ≡ None → AreOwn self.now.model change }
        ensures { IsReply (delta_reply self.now k vars.now change) result }
    {
        let mut trial = self.trial();
        let mut steps = Steps::<L>::new(blank);
        self.delta(k, vars, change, &mut trial, &mut steps)
    }

    /// How the value would change if one variable got another number, without a count of steps.
    pub fn assign_delta_in(&self, k: TotalId, x: VarId, v: i64) -> Result<i64, SolverFault>
        requires { self.now.usable ≡ true }
        ensures { IsReply (assign_reply self.now k x v) result }
    {
        let change = Move::Assign {
            var: x.index,
            value: v,
        };
        self.delta_by::<Brand>(k, &[x], change, Blank::new(1))
    }

    /// How the value would change if two variables exchanged their numbers, without a count of steps.
    pub fn swap_delta_in(&self, k: TotalId, x: VarId, y: VarId) -> Result<i64, SolverFault>
        requires { self.now.usable ≡ true }
        ensures { IsReply (swap_reply self.now k x y) result }
    {
        let change = Move::Swap {
            left: x.index,
            right: y.index,
        };
        self.delta_by::<Brand>(k, &[x, y], change, Blank::new(1))
    }

    /// How the value of a system or an objective would change if a variable got another number.
    fn assign_delta_of<L: Ledger>(
        &self,
        k: TotalId,
        x: VarId,
        v: i64,
        trial: &mut Trial,
        steps: &mut Steps<L>,
    ) -> Result<i64, SolverFault>
        requires { self.now.usable ≡ true }
        ensures reply { IsReply (assign_reply self.now k x v) result }
        ensures steps { steps.new ≤ steps.old + 4 * touch_of_move self.now (Assign x.index v) }
    {
        let change = Move::Assign {
            var: x.index,
            value: v,
        };
        self.delta(k, &[x], change, trial, steps)
    }

    /// How the value of a system or an objective would change if two variables exchanged their numbers.
    fn swap_delta_of<L: Ledger>(
        &self,
        k: TotalId,
        x: VarId,
        y: VarId,
        trial: &mut Trial,
        steps: &mut Steps<L>,
    ) -> Result<i64, SolverFault>
        requires { self.now.usable ≡ true }
        ensures reply { IsReply (swap_reply self.now k x y) result }
        ensures steps { steps.new ≤ steps.old + 4 * touch_of_move self.now (Swap x.index y.index) }
    {
        let change = Move::Swap {
            left: x.index,
            right: y.index,
        };
        self.delta(k, &[x, y], change, trial, steps)
    }

    /// How the violations of a system would change if a variable got another number. Refused with `NotClosed` where the
    /// solver is open; then with `WrongSolver` where the system or the variable isn't this solver's; then with
    /// `DefinedVariable`. `At` is exactly the fault of the system after the move, and no other part's, with its place.
    /// The steps are at most four times what the move touches, whatever the answer.
    pub fn assign_delta<L: Ledger>(
        &self,
        s: SystemId,
        x: VarId,
        v: i64,
        trial: &mut Trial,
        steps: &mut Steps<L>,
    ) -> Result<i64, SolverFault>
        requires { self.now.usable ≡ true }
        ensures reply { IsReply (assign_reply self.now (of_system s) x v) result }
        ensures steps { steps.new ≤ steps.old + 4 * touch_of_move self.now (Assign x.index v) }
    {
        self.assign_delta_of(TotalId::of_system(s), x, v, trial, steps)
    }

    /// How the violations of a system would change if two variables exchanged their numbers: by 0 where they are one.
    /// Refused as `assign_delta`, with both variables in place of one.
    pub fn swap_delta<L: Ledger>(
        &self,
        s: SystemId,
        x: VarId,
        y: VarId,
        trial: &mut Trial,
        steps: &mut Steps<L>,
    ) -> Result<i64, SolverFault>
        requires { self.now.usable ≡ true }
        ensures reply { IsReply (swap_reply self.now (of_system s) x y) result }
        ensures steps { steps.new ≤ steps.old + 4 * touch_of_move self.now (Swap x.index y.index) }
    {
        self.swap_delta_of(TotalId::of_system(s), x, y, trial, steps)
    }

    /// How the value of an objective would change if a variable got another number. Refused as `assign_delta`, and then
    /// with `Overflow` where the difference doesn't fit 64 bits.
    pub fn objective_assign_delta<L: Ledger>(
        &self,
        f: ObjectiveId,
        x: VarId,
        v: i64,
        trial: &mut Trial,
        steps: &mut Steps<L>,
    ) -> Result<i64, SolverFault>
        requires { self.now.usable ≡ true }
        ensures reply { IsReply (assign_reply self.now (of_objective f) x v) result }
        ensures steps { steps.new ≤ steps.old + 4 * touch_of_move self.now (Assign x.index v) }
    {
        self.assign_delta_of(TotalId::of_objective(f), x, v, trial, steps)
    }

    /// How the value of an objective would change if two variables exchanged their numbers. Refused as
    /// `objective_assign_delta`, with both variables in place of one.
    pub fn objective_swap_delta<L: Ledger>(
        &self,
        f: ObjectiveId,
        x: VarId,
        y: VarId,
        trial: &mut Trial,
        steps: &mut Steps<L>,
    ) -> Result<i64, SolverFault>
        requires { self.now.usable ≡ true }
        ensures reply { IsReply (swap_reply self.now (of_objective f) x y) result }
        ensures steps { steps.new ≤ steps.old + 4 * touch_of_move self.now (Swap x.index y.index) }
    {
        self.swap_delta_of(TotalId::of_objective(f), x, y, trial, steps)
    }

    /// How much of a system's violations is a variable's. Refused with `NotClosed` where the solver is open; then with
    /// `WrongSolver` where the system or the variable isn't this solver's; and then with `Overflow` where a total doesn't
    /// fit 64 bits. It never wants memory.
    pub fn var_violations(&self, s: SystemId, x: VarId) -> Result<i64, SolverFault>
        requires { self.now.usable ≡ true }
        ensures { IsReply (variable_reply self.now s x) result }
    {
        match self.reply_refusal(TotalId::of_system(s), &[x]) {
            Some(fault) => Err(SolverFault::Run(fault)),
            None => self.violations_of_own(s, x),
        }
    }

    /// The same where none of these is refused.
    fn violations_of_own(&self, s: SystemId, x: VarId) -> Result<i64, SolverFault>
        ghost setting: { Setting }
        requires setting { setting ≡ setting_of self.now.model self.now.assignment self.now.rules }
        requires usable { self.now.usable ≡ true }
        requires own { reply_refusal self.now (of_system s) (x ∷ []) ≡ None }
        ensures { IsReply (variable_reply self.now s x) result }
    {
        reply_of(self.kept().share(&self.model, s.index, x.index))
    }
}
