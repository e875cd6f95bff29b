//! New systems and objectives, and what is read of them.
ghost use Rattle.std.specs.Prelude.{◌≡◌, true, None, Ok, length, IfOk, OnOk, OnErr};
ghost use Rattle.ls_solver.specs.Answers.{Answers, Tells};
ghost use Rattle.solver_models.specs.Replying.{fresh_total, read_refusal};
ghost use Rattle.solver_models.specs.State.{IsUnchanged};
ghost use Rattle.solver_models.specs.Totals.{MakesTotal, is_own_total, of_objective, of_system, total_at, total_refusal};
ghost use Rattle.term_model.specs.Posting.{totals_by};
ghost use Rattle.term_model.specs.declared.posting.Side.TheVariants.{Systems, Objectives};

use crate::fault::SolverFault;
use crate::solver::Solver;
use cbl_base::{NoMemory, Place, RunFault};
use node_kinds::SolverNode;
use solver_models::{ObjectiveId, SystemId, TotalId, push_total};
use term_model::{Side, totals_by};

impl<N: SolverNode> Solver<N> {
    /// Whether a system or an objective is this solver's.
    pub fn owns_total(&self, k: TotalId) -> bool
        ensures { result ≡ is_own_total self.now k }
    {
        k.solver == self.number && (k.index as usize) < totals_by(&self.model, k.side).len()
    }

    /// A new system without constraints, whose violations have this place in the program. Refused with `AlreadyClosed`,
    /// and then the solver is as before.
    pub fn new_system(&mut self, place: Place) -> Result<SystemId, SolverFault>
        requires { self.old.usable ≡ true }
        ensures answer { Answers (total_refusal self.old) result }
        ensures id { IfOk result (λ s. of_system s ≡
            total_at self.old Systems (length self.old.model.systems.items)) }
        ensures made { OnOk result (MakesTotal self.old self.new Systems place) }
        ensures kept { OnErr result (IsUnchanged self.old self.new) }
    {
        let solver = self.number;
        match self.new_total(Side::Systems, place) {
            Ok(index) => Ok(SystemId { solver, index }),
            Err(fault) => Err(fault),
        }
    }

    /// A new objective without terms, whose value has this place in the program. Refused as `new_system`.
    pub fn new_objective(&mut self, place: Place) -> Result<ObjectiveId, SolverFault>
        requires { self.old.usable ≡ true }
        ensures answer { Answers (total_refusal self.old) result }
        ensures id { IfOk result (λ f. of_objective f ≡
            total_at self.old Objectives (length self.old.model.objectives.items)) }
        ensures made { OnOk result (MakesTotal self.old self.new Objectives place) }
        ensures kept { OnErr result (IsUnchanged self.old self.new) }
    {
        let solver = self.number;
        match self.new_total(Side::Objectives, place) {
            Ok(index) => Ok(ObjectiveId { solver, index }),
            Err(fault) => Err(fault),
        }
    }

    /// The same on either side: it tells the index.
    pub fn new_total(&mut self, side: Side, place: Place) -> Result<u32, SolverFault>
        requires { self.old.usable ≡ true }
        ensures answer { Answers (total_refusal self.old) result }
        ensures index { IfOk result (λ index. index ≡ length (totals_by self.old.model side)) }
        ensures made { OnOk result (MakesTotal self.old self.new side place) }
        ensures kept { OnErr result (IsUnchanged self.old self.new) }
    {
        if self.is_closed() {
            return Err(SolverFault::Run(RunFault::AlreadyClosed));
        }
        match push_total(self.alloc, &mut self.model, side, place) {
            Ok(index) => Ok(index),
            Err(NoMemory) => Err(SolverFault::NoMemory),
        }
    }

    /// Why a system or an objective can't be read.
    fn read_refusal(&self, k: TotalId) -> Option<RunFault>
        ensures { result ≡ read_refusal self.now k }
    {
        if !self.is_closed() {
            return Some(RunFault::NotClosed);
        }
        if !self.owns_total(k) {
            return Some(RunFault::WrongSolver);
        }
        None
    }

    /// The violations of a system. Refused with `NotClosed` where the solver is open, and then with `WrongSolver` where
    /// the system isn't this solver's. It never wants memory.
    pub fn violations(&self, s: SystemId) -> Result<i64, SolverFault>
        requires { self.now.usable ≡ true }
        ensures answer { Tells (read_refusal self.now (of_system s)) result }
        ensures value { IfOk result (λ v. fresh_total self.now (of_system s) ≡ Ok v) }
    {
        self.total(TotalId::of_system(s))
    }

    /// The value of an objective. Refused as `violations`. It never wants memory.
    pub fn objective(&self, f: ObjectiveId) -> Result<i64, SolverFault>
        requires { self.now.usable ≡ true }
        ensures answer { Tells (read_refusal self.now (of_objective f)) result }
        ensures value { IfOk result (λ v. fresh_total self.now (of_objective f) ≡ Ok v) }
    {
        self.total(TotalId::of_objective(f))
    }

    /// The same of either.
    pub fn total(&self, k: TotalId) -> Result<i64, SolverFault>
        requires { self.now.usable ≡ true }
        ensures answer { Tells (read_refusal self.now k) result }
        ensures value { IfOk result (λ v. fresh_total self.now k ≡ Ok v) }
    {
        match self.read_refusal(k) {
            Some(fault) => Err(SolverFault::Run(fault)),
            None => Ok(self.kept_total(k)),
        }
    }

    /// The same of one that may be read.
    fn kept_total(&self, k: TotalId) -> i64
        requires usable { self.now.usable ≡ true }
        requires readable { read_refusal self.now k ≡ None }
        ensures { fresh_total self.now k ≡ Ok result }
    {
        let kept = self.kept();
        kept.number(kept.total_id(&self.model, k.side, k.index))
    }
}
