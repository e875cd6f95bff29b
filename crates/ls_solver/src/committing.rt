//! Commits.
ghost use Rattle.std.specs.Prelude.{◌≡◌, ◌+◌, ◌*◌, ◌<◌, ◌≤◌, true, false, None, Some, Err, ℤ, ℕ, slice_get, is_some, filter_map, IfOk, IfErr, OnOk};
ghost use Rattle.std.specs.List.{range_with_len};
ghost use Rattle.cbl_base.specs.Inputs.{number_kind};
ghost use Rattle.cbl_base.specs.declared.ids.VarId.{VarId};
ghost use Rattle.ls_solver.specs.Committing.{AreDistinct, Commits, commit_refusal};
ghost use Rattle.graph_values.specs.Members.{variables_of};
ghost use Rattle.inc_store.specs.Moves.{is_moved};
ghost use Rattle.ls_solver.specs.ClosedParts.{IsClosedIn, rules_in_closed, vars_in_closed};
ghost use Rattle.ls_solver.specs.Touching.{touch_of};
ghost use Rattle.model_store.specs.Settings.{Setting, after, fresh_in, numbers_after, users_in};
ghost use Rattle.model_values.specs.Fresh.{IsFresh};
ghost use Rattle.solver_models.specs.Ids.{is_own};
ghost use Rattle.solver_models.specs.KeptChanges.{change_in};
ghost use Rattle.solver_store.specs.Closed.{setting_of};
ghost use Rattle.solver_store.specs.FreeMoves.{AreFree};
ghost use Rattle.store_laws.specs.ModelTouch.{model_touch};
ghost use Rattle.term_model.specs.Kinds.{kinds_in};

use crate::fault::SolverFault;
use crate::solver::Solver;
use cbl_base::{RunFault, Steps, VarId};
use ls_events::VarChange;
use model_values::ModelStop;
use node_kinds::SolverNode;
use solver_models::{any_marked, are_moves_given, write_moves};
use solver_store::Closed;
use std::alloc::Global;
use std::marker::Brand;
use std::sync::ledger::{Blank, Ledger};

impl<N: SolverNode> Solver<N> {
    /// Why these moves can't be committed.
    fn commit_refusal(&self, moves: &[(VarId, i64)]) -> Option<RunFault>
        ensures { result ≡ commit_refusal self.now moves.now }
    {
        if !are_moves_given(self.number, self.model.vars.len(), moves) {
            return Some(RunFault::WrongSolver);
        }
        if any_marked(&self.marks, moves) {
            return Some(RunFault::DefinedVariable);
        }
        None
    }

    /// Gives variables new numbers, all at once, and tells the whole-number variables whose values changed, in order of
    /// declaration. Refused with `WrongSolver` where a variable isn't this solver's, and then with `DefinedVariable`
    /// where one has a definition; the solver is then as before. Before the solver is closed the numbers are set and
    /// nothing is told. `At` is exactly the fault of the whole model, and after it, and after `NoMemory`, the solver
    /// can't be used any more. The steps are at most four times what the moves touch, whatever the answer.
    ///
    /// The moves must be of distinct whole-number variables.
    pub fn commit<L: Ledger>(
        &mut self,
        moves: &[(VarId, i64)],
        steps: &mut Steps<L>,
    ) -> Result<Vec<VarChange>, SolverFault>
        requires usable { self.old.usable ≡ true }
        requires distinct { AreDistinct moves.now }
        requires kinds { (k : ℕ) (m : VarId × ℤ) → slice_get moves.now k ≡ Some m →
            is_own self.old m.0 ≡ true → kinds_in self.old.model.vars.items m.0.index ≡
            Some number_kind }
        ensures commits { Commits self.old moves.now self.new result }
        ensures steps { steps.new ≤ steps.old + 4 * touch_of self.old moves.now }
    {
        match self.commit_refusal(moves) {
            Some(fault) => Err(SolverFault::Run(fault)),
            None => self.commit_own(moves, steps),
        }
    }

    /// The same without a count of steps.
    pub fn commit_uncounted(
        &mut self,
        moves: &[(VarId, i64)],
    ) -> Result<Vec<VarChange>, SolverFault>
        requires usable { self.old.usable ≡ true }
        requires distinct { AreDistinct moves.now }
        requires kinds { (k : ℕ) (m : VarId × ℤ) → slice_get moves.now k ≡ Some m →
            is_own self.old m.0 ≡ true → kinds_in self.old.model.vars.items m.0.index ≡
            Some number_kind }
        ensures { Commits self.old moves.now self.new result }
    {
        self.commit_by::<Brand>(moves, Blank::new(1))
    }

    /// The same with a count of its own.
    fn commit_by<L: Ledger>(
        &mut self,
        moves: &[(VarId, i64)],
        blank: Blank,
    ) -> Result<Vec<VarChange>, SolverFault>
        requires name { blank.name ≡ L.name }
        requires parts { blank.parts ≡ L.parts }
        requires some { 0 < L.parts }
        requires usable { self.old.usable ≡ true }
        requires distinct { AreDistinct moves.now }
        requires kinds { (k : ℕ) (m : VarId × ℤ) → slice_get moves.now k ≡ Some m →
            is_own self.old m.0 ≡ true → kinds_in self.old.model.vars.items m.0.index ≡
            Some number_kind }
        ensures { Commits self.old moves.now self.new result }
    {
        let mut steps = Steps::<L>::new(blank);
        self.commit(moves, &mut steps)
    }

    /// The same of moves of free variables, no two of one.
    pub(crate) fn commit_own<L: Ledger>(
        &mut self,
        moves: &[(VarId, i64)],
        steps: &mut Steps<L>,
    ) -> Result<Vec<VarChange>, SolverFault>
        requires usable { self.old.usable ≡ true }
        requires refusal { commit_refusal self.old moves.now ≡ None }
        requires free { AreFree self.old.model moves.now }
        ensures commits { Commits self.old moves.now self.new result }
        ensures steps { steps.new ≤ steps.old + 4 * touch_of self.old moves.now }
    {
        if self.is_closed() {
            self.commit_closed(moves, steps)
        } else {
            self.commit_open(moves)
        }
    }

    /// The same of an open solver.
    fn commit_open(&mut self, moves: &[(VarId, i64)]) -> Result<Vec<VarChange>, SolverFault>
        requires usable { self.old.usable ≡ true }
        requires refusal { commit_refusal self.old moves.now ≡ None }
        requires closed { self.old.closed ≡ false }
        ensures { Commits self.old moves.now self.new result }
    {
        write_moves(&mut self.assignment, moves);
        Ok(Vec::new(self.alloc))
    }

    /// The same of a closed solver.
    fn commit_closed<L: Ledger>(
        &mut self,
        moves: &[(VarId, i64)],
        steps: &mut Steps<L>,
    ) -> Result<Vec<VarChange>, SolverFault>
        ghost setting: { Setting }
        requires setting { setting ≡ setting_of self.old.model self.old.assignment self.old.rules }
        requires usable { self.old.usable ≡ true }
        requires refusal { commit_refusal self.old moves.now ≡ None }
        requires free { AreFree self.old.model moves.now }
        requires closed { self.old.closed ≡ true }
        ensures commits { Commits self.old moves.now self.new result }
        ensures steps { steps.new ≤ steps.old + 4 * touch_of self.old moves.now }
    {
        write_moves(&mut self.assignment, moves);
        let variables = self.model.vars.len() as u32;
        match commit_in(
            self.alloc,
            self.number,
            variables,
            &mut self.closed,
            moves,
            steps,
        ) {
            Ok(changes) => Ok(changes),
            Err(ModelStop::Fault(place, fault)) => {
                self.usable = false;
                Err(SolverFault::At(place, fault))
            }
            Err(ModelStop::NoMemory) => {
                self.usable = false;
                Err(SolverFault::NoMemory)
            }
        }
    }
}

/// A commit to what is closed.
fn commit_in<N: SolverNode, L: Ledger>(
    alloc: Global,
    number: u32,
    variables: u32,
    closed: &mut Option<Closed<N>>,
    moves: &[(VarId, i64)],
    steps: &mut Steps<L>,
) -> Result<Vec<VarChange>, ModelStop>
    ghost setting: { Setting }
    requires closed { IsClosedIn N.rule N.held N.ready setting closed.old }
    requires variables { variables ≡ variables_of setting.model }
    requires moves { AreFree setting.model moves.now }
    ensures there { is_some closed.new ≡ true }
    ensures closed { OnOk result (IsClosedIn N.rule N.held N.ready (after moves.now setting) closed.new) }
    ensures rules { OnOk result (rules_in_closed N.rule closed.new ≡ rules_in_closed N.rule closed.old) }
    ensures changes { IfOk result (λ changes. changes.items ≡ filter_map
        (change_in number (vars_in_closed setting.model closed.old) (vars_in_closed setting.model closed.new))
        (range_with_len 0 (variables_of setting.model))) }
    ensures fault { IfErr result (λ stop. IsFresh (fresh_in (after moves.now setting)) (Err stop)) }
    ensures steps { steps.new ≤ steps.old + 4 * model_touch (users_in setting) setting.model
        setting.assignment setting.model (numbers_after moves.now setting.assignment)
        (is_moved moves.now) }
{
    match closed {
        Some(closed) => closed.commit(alloc, number, variables, moves, steps),
        None => unreachable!(),
    }
}
