//! What can be read of a solver's variables. None of it wants memory.
ghost use Rattle.std.specs.Prelude.{◌≡◌, ◌&&◌, true, Some, None, slice_get, IfOk};
ghost use Rattle.std.specs.Option.{option_map};
ghost use Rattle.cbl_base.specs.Inputs.{number_kind, set_kind};
ghost use Rattle.cbl_base.specs.declared.input.Input.TheVariants.{Int, Set};
ghost use Rattle.ls_solver.specs.Answers.{Tells};
ghost use Rattle.solver_models.specs.Ids.{has_definition, is_own};
ghost use Rattle.solver_models.specs.Reading.{domain_refusal, fresh_value, set_refusal, value_refusal};
ghost use Rattle.term_model.specs.Kinds.{kinds_in};

use crate::fault::SolverFault;
use crate::solver::Solver;
use cbl_base::{IntSet, RunFault, VarId};
use node_kinds::SolverNode;
use solver_models::{is_given, mark_at, number_at};

impl<N: SolverNode> Solver<N> {
    /// Whether a variable is this solver's.
    pub fn owns(&self, x: VarId) -> bool
        ensures { result ≡ is_own self.now x }
    {
        is_given(self.number, self.model.vars.len(), x)
    }

    /// Whether a variable is this solver's and has a definition.
    #[tactic(auto, using(solver_models::proofs::MarkLaws::marked_is))]
    pub fn defines(&self, x: VarId) -> bool
        ensures { result ≡ (is_own self.now x && has_definition self.now.model x.index) }
    {
        is_given(self.number, self.model.vars.len(), x) && mark_at(&self.marks, x.index)
    }

    /// Why the number of a variable can't be read.
    fn value_refusal(&self, x: VarId) -> Option<RunFault>
        ensures { result ≡ value_refusal self.now x }
    {
        if !self.is_closed() && self.defines(x) {
            return Some(RunFault::NotClosed);
        }
        if !self.owns(x) {
            return Some(RunFault::WrongSolver);
        }
        None
    }

    /// The fresh value of a whole-number variable. Refused with `NotClosed` where the solver is open and the variable
    /// has a definition, and then with `WrongSolver` where it isn't this solver's. It never wants memory.
    pub fn value(&self, x: VarId) -> Result<i64, SolverFault>
        requires usable { self.now.usable ≡ true }
        requires kind { is_own self.now x ≡ true →
            kinds_in self.now.model.vars.items x.index ≡ Some number_kind }
        ensures answer { Tells (value_refusal self.now x) result }
        ensures value { IfOk result (λ v. fresh_value self.now x.index ≡ Some (Int v)) }
    {
        match self.value_refusal(x) {
            Some(fault) => Err(SolverFault::Run(fault)),
            None => Ok(self.number_at(x)),
        }
    }

    /// The value of a whole-number variable that may be read.
    fn number_at(&self, x: VarId) -> i64
        requires usable { self.now.usable ≡ true }
        requires kind { is_own self.now x ≡ true →
            kinds_in self.now.model.vars.items x.index ≡ Some number_kind }
        requires readable { value_refusal self.now x ≡ None }
        ensures { fresh_value self.now x.index ≡ Some (Int result) }
    {
        if self.is_closed() {
            self.kept().number(x.index)
        } else {
            number_at(&self.assignment, x.index)
        }
    }

    /// Why the members of a set variable can't be read.
    fn set_refusal(&self, x: VarId) -> Option<RunFault>
        ensures { result ≡ set_refusal self.now x }
    {
        if !self.is_closed() {
            return Some(RunFault::NotClosed);
        }
        if !self.owns(x) {
            return Some(RunFault::WrongSolver);
        }
        None
    }

    /// The fresh value of a set variable. Refused with `NotClosed` where the solver is open, and then with `WrongSolver`
    /// where the variable isn't this solver's. It never wants memory.
    pub fn set_value(&self, x: VarId) -> Result<&IntSet, SolverFault>
        requires usable { self.now.usable ≡ true }
        requires kind { is_own self.now x ≡ true →
            kinds_in self.now.model.vars.items x.index ≡ Some set_kind }
        ensures answer { Tells (set_refusal self.now x) result }
        ensures value { IfOk result (λ set. fresh_value self.now x.index ≡ Some (Set set.now)) }
    {
        match self.set_refusal(x) {
            Some(fault) => Err(SolverFault::Run(fault)),
            None => Ok(self.kept().set(x.index)),
        }
    }

    /// The domain of a variable, from its least to its greatest number. Refused with `WrongSolver` where the variable
    /// isn't this solver's. It never wants memory.
    pub fn domain(&self, x: VarId) -> Result<(i64, i64), SolverFault>
        requires usable { self.now.usable ≡ true }
        ensures answer { Tells (domain_refusal self.now x) result }
        ensures domain { IfOk result (λ d.
            option_map (λ decl. (decl.low, decl.up)) (slice_get self.now.model.vars.items x.index) ≡
            Some d) }
    {
        if !self.owns(x) {
            return Err(SolverFault::Run(RunFault::WrongSolver));
        }
        let decl = &self.model.vars[x.index as usize];
        Ok((decl.low, decl.up))
    }
}
