//! The solver, and what it keeps.
ghost use Rattle.std.specs.Prelude.{◌≡◌, ◌<◌, ◌^◌, [], true, length};
ghost use Rattle.solver_store.specs.Closed.{IsClosed, setting_of};
ghost use Rattle.solver_models.specs.State.{IsNew};
ghost use Rattle.term_model.specs.Wellformed.{IsWellFormed};

use node_kinds::{Kind, SolverNode};
use solver_store::Closed;
use std::alloc::Global;
use std::marker::Model;
use term_count::Subterms;

/// A solver: its number, a model, an assignment with a number for each variable, the rules of its users' constraints,
/// whether it is closed, and whether it may still be used. It is seen as these. Every call but `usable` needs that it may.
/// The rules are those of the nodes that wait, and then of the nodes in the store.
#[derive(Drop)]
pub struct Solver<N: SolverNode> {
    pub(crate) alloc: Global,
    pub(crate) number: u32,
    pub(crate) model: term_model::Model,
    pub(crate) assignment: Vec<i64>,
    /// Whether each variable has a definition.
    pub(crate) marks: Vec<bool>,
    /// The distinct subterms of the model; none where a count was broken off.
    pub(crate) terms: Option<Subterms>,
    /// The nodes of the users' constraints by number, until it is closed.
    pub(crate) waiting: Vec<N>,
    /// What is kept of a closed solver.
    pub(crate) closed: Option<Closed<N>>,
    pub(crate) usable: bool,
}

impl<N: SolverNode> Model for Solver<N> {
    ghost use Rattle.solver_models.specs.State.{SolverState};

    ghost Value = { SolverState };

    ghost use Rattle.posted_users.specs.KeptCode.{rule_code};
    ghost use Rattle.std.specs.Coded.{codes};
    ghost use Rattle.term_model.specs.contracts.term.Term as terms_seen;

    ghost coded = { Prim.hlevel (rule_code, codes, terms_seen.the_row.coded) };

    ghost use Rattle.std.specs.Prelude.{is_some};
    ghost use Rattle.ls_solver.specs.Solvers.{IsHeld, rules_seen};

    ghost view = { λ a. record { number = a.number; model = a.model; assignment = a.assignment.items; rules = rules_seen N.rule a.model a.waiting.items a.closed; closed = is_some a.closed; usable = a.usable } };

    ghost invariant = { λ a. IsHeld N.rule N.held N.ready a.model a.assignment.items a.marks.items
        a.waiting.items a.terms a.closed a.usable };
}

/// The solver whose users' constraints come in boxes.
pub type BoxSolver = Solver<Kind>;

/// A model of nothing.
fn empty_model(alloc: Global) -> term_model::Model
    ensures vars { result.vars.items ≡ [] }
    ensures defs { result.defs.items ≡ [] }
    ensures systems { result.systems.items ≡ [] }
    ensures objectives { result.objectives.items ≡ [] }
    ensures posted { result.posted.items ≡ [] }
{
    term_model::Model {
        vars: Vec::new(alloc),
        defs: Vec::new(alloc),
        systems: Vec::new(alloc),
        objectives: Vec::new(alloc),
        posted: Vec::new(alloc),
    }
}

impl<N: SolverNode> Solver<N> {
    /// A solver without variables, which is open. Its ids carry its number.
    pub fn new(alloc: Global, number: u32) -> Solver<N>
        ensures { IsNew number result }
    {
        Solver {
            alloc,
            number,
            model: empty_model(alloc),
            assignment: Vec::new(alloc),
            marks: Vec::new(alloc),
            terms: None,
            waiting: Vec::new(alloc),
            closed: None,
            usable: true,
        }
    }

    /// A law of every solver: its model is well formed, and the assignment has a number for each of its variables.
    pub fn keeps_form(&self)
        ensures formed { IsWellFormed self.now.model }
        ensures few { length self.now.model.vars.items < 2 ^ 32 }
        ensures assigned { length self.now.assignment ≡ length self.now.model.vars.items }
    {
        let _ = &self.model;
    }

    /// Whether it is closed.
    pub fn is_closed(&self) -> bool
        ensures { result ≡ self.now.closed }
    {
        self.closed.is_some()
    }

    /// What is kept of a closed solver.
    pub(crate) fn kept(&self) -> &Closed<N>
        requires usable { self.now.usable ≡ true }
        requires closed { self.now.closed ≡ true }
        ensures { IsClosed N.rule N.held N.ready
            (setting_of self.now.model self.now.assignment self.now.rules) result.now }
    {
        match &self.closed {
            Some(closed) => closed,
            None => unreachable!(),
        }
    }

    /// Whether it may still be used: `false` exactly after `At` and `NoMemory` from `close`, `commit` and
    /// `restore`.
    pub fn usable(&self) -> bool
        ensures { result ≡ self.now.usable }
    {
        self.usable
    }
}
