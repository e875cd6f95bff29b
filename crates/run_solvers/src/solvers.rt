//! The solvers of a run, by their numbers.
ghost use Rattle.std.specs.Prelude.{◌≡◌, ℕ, [], IfErr, IfOk};
ghost use Rattle.comet_meaning.specs.Blocks.{commit_waiting};
ghost use Rattle.comet_meaning.specs.Models.{assign, close, define, domain_at, make_solver, swap};
ghost use Rattle.comet_meaning.specs.Parts.{solver_at, variable_value};
ghost use Rattle.comet_meaning.specs.State.{State};
ghost use Rattle.comet_meaning.specs.Values as values;
ghost use Rattle.comet_meaning.specs.Variables.{new_variable};
ghost use Rattle.run_solvers.specs.Opening.{opened};
ghost use Rattle.run_solvers.specs.Stopping.{IsEndOrMemory};
ghost use Rattle.run_solvers.specs.Told.{TellsIn};
ghost use Rattle.run_solvers.specs.Views.{beginning_seen};
ghost use Rattle.run_values.specs.Did.{Did, IsFaultOrMemory};
ghost use Rattle.run_values.specs.Views.{bounds_seen, value_seen};
ghost use Rattle.run_values.specs.declared.stop.Stop.TheVariants.{NoMemory};

use crate::beginning::Beginning;
use crate::built::Built;
use crate::held::Held;
use cbl_base::{Place, RunFault, Text, VarId};
use ls_events::VarChange;
use node_kinds::SolverNode;
use run_values::{Bounds, Stop, Value};
use std::alloc::Global;
use std::marker::Model;
use term_model::VarDecl;

/// The solvers of a run. Each is known by its place from 0, which its variables carry; they are seen as the meaning of
/// programs has them. After a stop the run is over, and the solver that stopped is emptied.
#[derive(Drop)]
pub struct Solvers<N: SolverNode> {
    pub(crate) held: Vec<Held<N>>,
}

impl<N: SolverNode> Model for Solvers<N> {
    ghost use Rattle.std.specs.Prelude.{List, map};
    ghost use Rattle.comet_meaning.specs.Solvers.{SolverState};

    ghost Value = { List SolverState };

    ghost use Rattle.std.specs.Coded.{codes};
    ghost use Rattle.term_model.specs.contracts.term.Term as terms_seen;
    ghost use Rattle.posted_users.specs.KeptCode.{rule_code};

    ghost coded = { Prim.hlevel (codes, terms_seen.the_row.coded, rule_code) };

    ghost use Rattle.run_solvers.specs.Kept.{AreKept};
    ghost use Rattle.run_solvers.specs.Views.{held_seen};

    ghost view = { λ a. map held_seen a.held.items };

    ghost invariant = { λ a. AreKept a.held.items };
}

impl<N: SolverNode> Solvers<N> {
    /// No solvers.
    #[tactic(auto, using(crate::proofs::FoundSolvers::none_kept))]
    pub fn new(alloc: Global) -> Solvers<N>
        ensures { result ≡ [] }
    {
        Solvers {
            held: Vec::new(alloc),
        }
    }

    /// A copy of each; where a solver is held it answers want of memory so far.
    pub fn copied(&self, alloc: Global) -> Result<Solvers<N>, Stop>
        ensures same { IfOk result (λ copies. copies ≡ self.now) }
        ensures memory { IfErr result (λ stop. stop ≡ NoMemory) }
    {
        if self.held.is_empty() {
            return Ok(Solvers::new(alloc));
        }
        Err(Stop::NoMemory)
    }

    /// A new solver, which is open and has no variables; answers its number. `NoMemory` where there is none for it, and
    /// where its number doesn't fit 32 bits, which no machine has memory for; there is no other stop.
    #[tactic(auto, unfolding(comet_meaning::specs::Models::make_solver))]
    pub fn make(&mut self, alloc: Global) -> Result<usize, Stop>
        ensures did { (s : State) → s.solvers ≡ self.old →
            Did (λ k. values.Solver k) result (record s { solvers = self.new }) (make_solver s) }
        ensures memory { IfErr result (λ stop. stop ≡ NoMemory) }
    {
        let number = self.held.len();
        let Ok(own) = u32::try_from(number) else {
            return Err(Stop::NoMemory);
        };
        self.held.push(Held::new(alloc, own))?;
        Ok(number)
    }

    /// The value of a variable that is read at a place. `WrongSolver` there exactly where its solver has no such variable,
    /// and `NotClosed` exactly where only a closed solver has its value.
    pub fn read(&self, at: Place, variable: VarId) -> Result<Value, Stop>
        ensures did { (s : State) → s.solvers ≡ self.now →
            Did value_seen result s (variable_value at variable.index
            (solver_at s variable.solver) s) }
        ensures stop { IfErr result IsFaultOrMemory }
    {
        let number = variable.solver as usize;
        if number >= self.held.len() {
            return Err(Stop::Fault(at, RunFault::WrongSolver));
        }
        self.held[number].read(at, variable.index)
    }

    /// The domain of a variable that is asked at a place. `WrongSolver` there exactly where its solver has no such
    /// variable.
    pub fn domain(&self, at: Place, variable: VarId) -> Result<Bounds, Stop>
        ensures did { (s : State) → s.solvers ≡ self.now →
            Did (λ d. values.Range (bounds_seen d)) result s
            (domain_at at variable (solver_at s variable.solver) s) }
        ensures stop { IfErr result IsFaultOrMemory }
    {
        let number = variable.solver as usize;
        if number >= self.held.len() {
            return Err(Stop::Fault(at, RunFault::WrongSolver));
        }
        self.held[number].domain(at, variable.index)
    }

    /// Closes the solver with a number, and evaluates its variables. `AlreadyClosed` at this place exactly where it is
    /// closed, else the named cycle of its definitions at this place, and else the fault of its variables where it was
    /// met. `NoMemory` also where there is no such solver, which no run closes.
    pub fn close(&mut self, at: Place, number: usize) -> Result<(), Stop>
        ensures did { (s : State) → s.solvers ≡ self.old →
            Did (λ _. values.Nothing) result (record s { solvers = self.new }) (close at number s) }
        ensures stop { IfErr result IsEndOrMemory }
    {
        if number >= self.held.len() {
            return Err(Stop::NoMemory);
        }
        self.held[number].close(at)
    }

    /// Gives a variable a number, which waits while a `with` is open. At this place `WrongSolver` where its solver has no
    /// such variable, and then `DefinedVariable` where it has a definition; and else the fault of a closed solver's
    /// variables where it was met. Tells what changed.
    pub fn assign(
        &mut self,
        at: Place,
        variable: VarId,
        number: i64,
    ) -> Result<Vec<VarChange>, Stop>
        ensures did { (s : State) → s.solvers ≡ self.old →
            Did (λ _. tt) result (record s { solvers = self.new }) (assign at variable number s) }
        ensures told { TellsIn variable.solver self.old self.new result }
        ensures stop { IfErr result IsFaultOrMemory }
    {
        let own = variable.solver as usize;
        if own >= self.held.len() {
            return Err(Stop::Fault(at, RunFault::WrongSolver));
        }
        self.held[own].assign(at, variable, number)
    }

    /// Gives each of two variables the number that the other has, which wait while a `with` is open. The stops are those
    /// of `assign`, of both variables; `WrongSolver` also where they aren't of one solver. Tells what changed.
    pub fn swap(&mut self, at: Place, x: VarId, y: VarId) -> Result<Vec<VarChange>, Stop>
        ensures did { (s : State) → s.solvers ≡ self.old →
            Did (λ _. tt) result (record s { solvers = self.new }) (swap at x y s) }
        ensures told { TellsIn x.solver self.old self.new result }
        ensures stop { IfErr result IsFaultOrMemory }
    {
        let own = x.solver as usize;
        if own >= self.held.len() {
            return Err(Stop::Fault(at, RunFault::WrongSolver));
        }
        self.held[own].swap(at, x, y)
    }

    /// Defines a variable by a term. At this place `AlreadyClosed` where its solver is closed; then `WrongSolver` where the
    /// variable, or one in the term, isn't the solver's; then `DefinedVariable` where it has a definition; and then
    /// `TooMany` term nodes where all terms have more distinct subterms than they may.
    pub fn define(&mut self, at: Place, variable: VarId, built: Built) -> Result<(), Stop>
        ensures did { (s : State) → s.solvers ≡ self.old →
            Did (λ _. tt) result (record s { solvers = self.new }) (define at variable built s) }
        ensures stop { IfErr result IsFaultOrMemory }
    {
        let own = variable.solver as usize;
        if own >= self.held.len() {
            return Err(Stop::Fault(at, RunFault::WrongSolver));
        }
        self.held[own].define(at, variable, built)
    }

    /// A new variable of the solver with a number, as it is declared, with a name, which begins with a number or a
    /// definition. At this place `AlreadyClosed` where the solver is closed, then `TooMany` variables where it has
    /// 262,144, and then the stops of `define`. `NoMemory` also for a set variable that begins with a number, and where
    /// there is no such solver: no checked program asks for these.
    pub fn add(
        &mut self,
        at: Place,
        number: usize,
        decl: VarDecl,
        name: Text,
        beginning: Beginning,
    ) -> Result<VarId, Stop>
        ensures did { (s : State) → s.solvers ≡ self.old →
            Did (λ x. x) result (record s { solvers = self.new })
            (new_variable at number decl name (beginning_seen beginning) s) }
        ensures stop { IfErr result IsFaultOrMemory }
    {
        if number >= self.held.len() {
            return Err(Stop::NoMemory);
        }
        self.held[number].add(at, decl, name, beginning)
    }

    /// Opens a `with` on the solver with a number, and tells whether it is the outermost. `NotClosed` at this place exactly
    /// where the solver is open.
    pub fn open_block(&mut self, at: Place, number: usize) -> Result<bool, Stop>
        ensures did { (s : State) → s.solvers ≡ self.old →
            Did (λ b. b) result (record s { solvers = self.new }) (opened at number s) }
        ensures stop { IfErr result IsFaultOrMemory }
    {
        if number >= self.held.len() {
            return Err(Stop::Fault(at, RunFault::NotClosed));
        }
        self.held[number].open_block(at)
    }

    /// Commits what waits in the solver with a number, at the end of the outermost `with`, and tells what changed. The stop
    /// is the fault of the solver's variables where it was met.
    pub fn commit_waiting(&mut self, alloc: Global, number: usize) -> Result<Vec<VarChange>, Stop>
        ensures did { (s : State) → s.solvers ≡ self.old →
            Did (λ _. tt) result (record s { solvers = self.new }) (commit_waiting number s) }
        ensures told { TellsIn number self.old self.new result }
        ensures stop { IfErr result IsFaultOrMemory }
    {
        if number >= self.held.len() {
            return Ok(Vec::new(alloc));
        }
        self.held[number].commit_waiting()
    }
}
