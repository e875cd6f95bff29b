//! The nodes of users' constraints that are posted.
ghost use Rattle.std.specs.Prelude.{◌≡◌, ◌≤◌, ◌<◌, [], All, List, Some, true, IfErr, IfOk};
ghost use Rattle.cbl_base.specs.Inputs.{number_kind};
ghost use Rattle.cbl_base.specs.declared.limits.TheConstants.{MAX_TERM_DEPTH};
ghost use Rattle.comet_meaning.specs.State.{State};
ghost use Rattle.comet_meaning.specs.Systems.{post_user, post_user_to};
ghost use Rattle.comet_meaning.specs.Values as values;
ghost use Rattle.ls_solver.specs.Totals.{whole_of};
ghost use Rattle.posted_users.specs.KeptOf.{IsUserRule, kept_of};
ghost use Rattle.run_solvers.specs.Building.{AreBuilt};
ghost use Rattle.run_solvers.specs.Changing.{posted_user_one};
ghost use Rattle.run_solvers.specs.Kept.{IsKept};
ghost use Rattle.run_solvers.specs.Makes.{Changes, Tries};
ghost use Rattle.run_solvers.specs.Views.{held_seen};
ghost use Rattle.run_values.specs.Did.{Did, IsFaultOrMemory};
ghost use Rattle.run_values.specs.Views.{value_seen};
ghost use Rattle.term_model.specs.Depth.{depth_of};
ghost use Rattle.term_model.specs.Kinds.{kind_of_term, kinds_in};
ghost use Rattle.term_model.specs.Naming.{users_of};
ghost use Rattle.term_model.specs.declared.posting.Side.TheVariants.{Systems};
ghost use Rattle.term_model.specs.declared.term.Term.{Term as Tree};

use crate::asking::total_of;
use crate::built::{Built, Row, row_of};
use crate::held::Held;
use crate::refusals::stop_of;
use crate::solvers::Solvers;
use cbl_base::limits::MAX_TERM_DEPTH;
use cbl_base::{NoMemory, Place, RunFault};
use ls_solver::{SystemId, TotalId};
use node_kinds::SolverNode;
use run_values::{Stop, Value};
use term_model::{Side, Term};

impl<N: SolverNode> Held<N> {
    /// Posts the node of a user's constraint over places with a weight to a system of the solver's number. The stops are those of
    /// `post`. `NoMemory` also for an objective, and where a place is no number or as deep as a term may be: no checked
    /// program posts such.
    fn post_user(
        &mut self,
        at: Place,
        total: TotalId,
        node: N,
        places: Vec<Built>,
        weight: i64,
    ) -> Result<(), Stop>
        requires kept { IsKept self.old }
        requires rule { IsUserRule (N.NodeRule.rule node) }
        requires own { total.solver ≡ self.old.number }
        ensures { Changes self.old self.new result
            (posted_user_one at total.solver (whole_of total)
            (kept_of (N.NodeRule.rule node)) places.items weight (held_seen self.old)) }
    {
        let made = self.try_post_user(at, total, node, places, weight);
        self.finish(made)
    }

    /// The same, where a solver that stops is left as it may be.
    fn try_post_user(
        &mut self,
        at: Place,
        total: TotalId,
        node: N,
        places: Vec<Built>,
        weight: i64,
    ) -> Result<(), Stop>
        requires kept { IsKept self.old }
        requires rule { IsUserRule (N.NodeRule.rule node) }
        requires own { total.solver ≡ self.old.number }
        ensures { Tries self.old self.new result
            (posted_user_one at total.solver (whole_of total)
            (kept_of (N.NodeRule.rule node)) places.items weight (held_seen self.old)) }
    {
        match total.side {
            Side::Systems => self.post_places(at, total, node, places, weight),
            Side::Objectives => Err(Stop::NoMemory),
        }
    }

    /// The same of a system.
    fn post_places(
        &mut self,
        at: Place,
        total: TotalId,
        node: N,
        places: Vec<Built>,
        weight: i64,
    ) -> Result<(), Stop>
        requires kept { IsKept self.old }
        requires rule { IsUserRule (N.NodeRule.rule node) }
        requires own { total.solver ≡ self.old.number }
        requires side { total.side ≡ Systems }
        ensures { Tries self.old self.new result
            (posted_user_one at total.solver (whole_of total)
            (kept_of (N.NodeRule.rule node)) places.items weight (held_seen self.old)) }
    {
        match row_of(places) {
            Ok(row) => self.post_row(at, total, node, row, weight),
            Err(NoMemory) => Err(Stop::NoMemory),
        }
    }

    /// The same over the terms in a row.
    fn post_row(
        &mut self,
        at: Place,
        total: TotalId,
        node: N,
        row: Row,
        weight: i64,
    ) -> Result<(), Stop>
        requires kept { IsKept self.old }
        requires rule { IsUserRule (N.NodeRule.rule node) }
        requires own { total.solver ≡ self.old.number }
        requires side { total.side ≡ Systems }
        requires built { (plain : List Tree) × AreBuilt row.terms.items row.deepest plain }
        ensures { (plain : List Tree) → AreBuilt row.terms.items row.deepest plain →
            Tries self.old self.new result (posted_user_one at total.solver (whole_of total)
            (kept_of (N.NodeRule.rule node)) plain weight (held_seen self.old)) }
    {
        if row.deepest >= MAX_TERM_DEPTH {
            return Err(Stop::NoMemory);
        }
        match self.are_numbers(&row.terms) {
            Ok(true) => self.post_numbers(at, total, node, row, weight),
            Ok(false) => Err(Stop::NoMemory),
            Err(NoMemory) => Err(Stop::NoMemory),
        }
    }

    /// Whether terms are numbers.
    fn are_numbers(&self, terms: &[Term]) -> Result<bool, NoMemory>
        requires { All (λ t. depth_of t ≤ MAX_TERM_DEPTH) terms.now }
        ensures { IfOk result (λ are. are ≡ true →
            All (λ t. kind_of_term (kinds_in self.now.solver.model.vars.items) t ≡
            Some number_kind) terms.now) }
    {
        for term in terms {
            if !self.is_number(term)? {
                return Ok(false);
            }
        }
        Ok(true)
    }

    /// The same over numbers that are not as deep as a term may be.
    fn post_numbers(
        &mut self,
        at: Place,
        total: TotalId,
        node: N,
        row: Row,
        weight: i64,
    ) -> Result<(), Stop>
        requires kept { IsKept self.old }
        requires rule { IsUserRule (N.NodeRule.rule node) }
        requires own { total.solver ≡ self.old.number }
        requires side { total.side ≡ Systems }
        requires deep { row.deepest < MAX_TERM_DEPTH }
        requires users { All (λ t. users_of t ≡ []) row.terms.items }
        requires kinds { All (λ t. kind_of_term (kinds_in self.old.solver.model.vars.items) t ≡
            Some number_kind) row.terms.items }
        ensures { (plain : List Tree) → AreBuilt row.terms.items row.deepest plain →
            Tries self.old self.new result (posted_user_one at total.solver (whole_of total)
            (kept_of (N.NodeRule.rule node)) plain weight (held_seen self.old)) }
    {
        self.solver.keeps_form();
        let system = SystemId {
            solver: total.solver,
            index: total.index,
        };
        match self.solver.post_node(system, node, row.terms, weight) {
            Ok(()) => Ok(()),
            Err((fault, _back)) => Err(stop_of(self.alloc, at, &self.names, fault)),
        }
    }
}

impl<N: SolverNode> Solvers<N> {
    /// Posts the node of a user's constraint over places with a weight to a system; to what is no system or objective nothing is
    /// posted. The stops are those of `post`. `NoMemory` also for an objective, and where a place is no number or as deep as
    /// a term may be: no checked program posts such.
    pub fn post_user(
        &mut self,
        at: Place,
        whole: &Value,
        node: N,
        places: Vec<Built>,
        weight: i64,
    ) -> Result<(), Stop>
        requires { IsUserRule (N.NodeRule.rule node) }
        ensures did { (s : State) → s.solvers ≡ self.old →
            Did (λ _. values.Nothing) result (record s { solvers = self.new })
            (post_user at (kept_of (N.NodeRule.rule node)) places.items weight (value_seen whole.now) s) }
        ensures stop { IfErr result IsFaultOrMemory }
    {
        match total_of(whole) {
            None => Ok(()),
            Some(total) => self.post_user_to(at, total, node, places, weight),
        }
    }

    /// The same of a system or an objective.
    fn post_user_to(
        &mut self,
        at: Place,
        total: TotalId,
        node: N,
        places: Vec<Built>,
        weight: i64,
    ) -> Result<(), Stop>
        requires { IsUserRule (N.NodeRule.rule node) }
        ensures did { (s : State) → s.solvers ≡ self.old →
            Did (λ _. values.Nothing) result (record s { solvers = self.new })
            (post_user_to at (kept_of (N.NodeRule.rule node)) places.items weight total.solver
            (whole_of total) s) }
        ensures stop { IfErr result IsFaultOrMemory }
    {
        let number = total.solver as usize;
        if number >= self.held.len() {
            return Err(Stop::Fault(at, RunFault::WrongSolver));
        }
        self.held[number].post_user(at, total, node, places, weight)
    }
}
