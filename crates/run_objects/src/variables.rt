//! What changes solvers and their variables.
ghost use Rattle.std.specs.Prelude.{◌≡◌, IfErr};
ghost use Rattle.comet_meaning.specs.Blocks as blocks;
ghost use Rattle.comet_meaning.specs.Changes.{noticed};
ghost use Rattle.comet_meaning.specs.Models as models;
ghost use Rattle.comet_meaning.specs.Values as values;
ghost use Rattle.comet_meaning.specs.Values.{solver_of};
ghost use Rattle.comet_meaning.specs.Variables as variables;
ghost use Rattle.run_state.specs.OfRunSolvers.Opening.{opened};
ghost use Rattle.run_state.specs.OfRunSolvers.Stopping.{IsEndOrMemory};
ghost use Rattle.run_state.specs.OfRunSolvers.Views.{beginning_seen};
ghost use Rattle.comet_meaning.specs.State as states;
ghost use Rattle.run_state.specs.OfRunOutside.Told.{beside};
ghost use Rattle.run_values.specs.Did.{Did, IsFaultOrMemory};
ghost use Rattle.run_values.specs.Views.{value_seen};
ghost use Rattle.run_state.specs.Views.{state_seen};

use cbl_base::{Place, Text, VarId};
use checked_tree::Slot;
use run_state::solvers_of_runs::{Beginning, Built};
use run_state::{Outside, State};
use run_values::{Stop, Value};
use term_model::VarDecl;

/// Closes a solver, and evaluates its variables; gives no value. `AlreadyClosed` at this place exactly where it is
/// closed, else the named cycle of its definitions at this place, and else the first fault of its variables, where it was
/// met.
pub fn close<O: Outside>(out: &mut O, at: Place, solver: &Value) -> Result<Value, Stop>
    ensures did { (s : states.State) →
        Did value_seen result (beside (O.told out.new) s)
        (models.close at (solver_of (value_seen solver.now)) (beside (O.told out.old) s)) }
    ensures printed { (O.told out.new).printed ≡ (O.told out.old).printed }
    ensures stop { IfErr result IsEndOrMemory }
{
    match out.close(at, solver.solver()) {
        Ok(()) => Ok(Value::Nothing),
        Err(stop) => Err(stop),
    }
}

/// Gives a variable a number, which waits while a `with` is open, and else evaluates the variables of a closed solver, and
/// queues the events of what changes. At
/// this place `WrongSolver` where there is no such variable, and then `DefinedVariable` where it has a definition; and
/// else the first fault of the closed solver's variables, where it was met.
pub fn assign<O: Outside>(
    s: &mut State,
    out: &mut O,
    at: Place,
    variable: VarId,
    number: i64,
) -> Result<(), Stop>
    ensures did { Did (λ _. tt) result (state_seen s.new (O.told out.new))
        (noticed variable.solver (models.assign at variable number)
        (state_seen s.old (O.told out.old))) }
    ensures printed { (O.told out.new).printed ≡ (O.told out.old).printed }
    ensures stop { IfErr result IsFaultOrMemory }
    ensures fuel { s.new.fuel ≡ s.old.fuel }
{
    match out.assign(at, variable, number) {
        Ok(changes) => s.notice(&changes),
        Err(stop) => Err(stop),
    }
}

/// Gives each of two variables the number that the other has, which wait while a `with` is open, and else queues the events
/// of what changes. The stops are those of
/// `assign`, of both variables; `WrongSolver` also where they aren't of one solver.
pub fn swap<O: Outside>(
    s: &mut State,
    out: &mut O,
    at: Place,
    x: VarId,
    y: VarId,
) -> Result<(), Stop>
    ensures did { Did (λ _. tt) result (state_seen s.new (O.told out.new))
        (noticed x.solver (models.swap at x y) (state_seen s.old (O.told out.old))) }
    ensures printed { (O.told out.new).printed ≡ (O.told out.old).printed }
    ensures stop { IfErr result IsFaultOrMemory }
    ensures fuel { s.new.fuel ≡ s.old.fuel }
{
    match out.swap(at, x, y) {
        Ok(changes) => s.notice(&changes),
        Err(stop) => Err(stop),
    }
}

/// Defines a variable by a term. At this place `AlreadyClosed` where its solver is closed; then `WrongSolver` where the
/// variable, or one in the term, isn't the solver's; then `DefinedVariable` where it has a definition; and then `TooMany`
/// term nodes where all terms have more distinct subterms than they may.
pub fn define<O: Outside>(out: &mut O, at: Place, variable: VarId, term: Built) -> Result<(), Stop>
    ensures did { (s : states.State) →
        Did (λ _. tt) result (beside (O.told out.new) s)
        (models.define at variable term (beside (O.told out.old) s)) }
    ensures printed { (O.told out.new).printed ≡ (O.told out.old).printed }
    ensures stop { IfErr result IsFaultOrMemory }
{
    out.define(at, variable, term)
}

/// A new variable of a solver, as it is declared, with a name, which begins with a number or a definition. At this place
/// `AlreadyClosed` where the solver is closed, then `TooMany` variables where it has 262,144, and then the stops of
/// `define`. `NoMemory` also for a set variable that begins with a number, and where there is no such solver: no checked
/// program asks for these.
pub fn new_variable<O: Outside>(
    out: &mut O,
    at: Place,
    solver: &Value,
    decl: VarDecl,
    name: Text,
    beginning: Beginning,
) -> Result<VarId, Stop>
    ensures did { (s : states.State) →
        Did (λ x. x) result (beside (O.told out.new) s)
        (variables.new_variable at (solver_of (value_seen solver.now)) decl name
        (beginning_seen beginning) (beside (O.told out.old) s)) }
    ensures printed { (O.told out.new).printed ≡ (O.told out.old).printed }
    ensures stop { IfErr result IsFaultOrMemory }
{
    out.add_variable(at, solver.solver(), decl, name, beginning)
}

/// The same of the solver that a name holds.
#[tactic(auto, unfolding(comet_meaning::specs::Variables::variable_in, comet_meaning::specs::Cells::look))]
pub fn variable_in<O: Outside>(
    s: &mut State,
    out: &mut O,
    at: Place,
    slot: Slot,
    decl: VarDecl,
    name: Text,
    beginning: Beginning,
) -> Result<VarId, Stop>
    ensures did { Did (λ x. x) result (state_seen s.new (O.told out.new))
        (variables.variable_in at slot decl name (beginning_seen beginning)
        (state_seen s.old (O.told out.old))) }
    ensures printed { (O.told out.new).printed ≡ (O.told out.old).printed }
    ensures stop { IfErr result IsFaultOrMemory }
    ensures fuel { s.new.fuel ≡ s.old.fuel }
{
    match s.look(slot) {
        Ok(solver) => new_variable(out, at, &solver, decl, name, beginning),
        Err(stop) => Err(stop),
    }
}

/// The domain of a variable, and nothing of what is none. `WrongSolver` at this place exactly where there is no such
/// variable.
#[tactic(auto, unfolding(comet_meaning::specs::Models::domain_of))]
pub fn domain_of<O: Outside>(out: &O, at: Place, value: &Value) -> Result<Value, Stop>
    ensures did { (s : states.State) →
        Did value_seen result (beside (O.told out.now) s)
        (models.domain_of at (value_seen value.now) (beside (O.told out.now) s)) }
    ensures stop { IfErr result IsFaultOrMemory }
{
    match value {
        Value::Variable(variable) => variable_domain(out, at, *variable),
        _ => Ok(Value::Nothing),
    }
}

/// The domain of a variable.
#[tactic(auto, unfolding(comet_meaning::specs::Models::domain_of))]
fn variable_domain<O: Outside>(out: &O, at: Place, variable: VarId) -> Result<Value, Stop>
    ensures did { (s : states.State) →
        Did value_seen result (beside (O.told out.now) s)
        (models.domain_of at (values.Variable variable) (beside (O.told out.now) s)) }
    ensures stop { IfErr result IsFaultOrMemory }
{
    match out.domain(at, variable) {
        Ok(domain) => Ok(Value::Range(domain)),
        Err(stop) => Err(stop),
    }
}

/// Opens a `with` on a solver, and tells whether it is the outermost. `NotClosed` at this place exactly where the solver
/// is open.
pub fn open_with<O: Outside>(out: &mut O, at: Place, solver: &Value) -> Result<bool, Stop>
    ensures did { (s : states.State) →
        Did (λ b. b) result (beside (O.told out.new) s)
        (opened at (solver_of (value_seen solver.now)) (beside (O.told out.old) s)) }
    ensures printed { (O.told out.new).printed ≡ (O.told out.old).printed }
    ensures stop { IfErr result IsFaultOrMemory }
{
    out.open_block(at, solver.solver())
}

/// Commits what waits in a solver, at the end of the outermost `with`, and queues the events of what changes. The stop is
/// the first fault of the solver's variables, where it was met.
pub fn commit_waiting<O: Outside>(s: &mut State, out: &mut O, solver: &Value) -> Result<(), Stop>
    ensures did { Did (λ _. tt) result (state_seen s.new (O.told out.new))
        (noticed (solver_of (value_seen solver.now))
        (blocks.commit_waiting (solver_of (value_seen solver.now)))
        (state_seen s.old (O.told out.old))) }
    ensures printed { (O.told out.new).printed ≡ (O.told out.old).printed }
    ensures stop { IfErr result IsFaultOrMemory }
    ensures fuel { s.new.fuel ≡ s.old.fuel }
{
    match out.commit_waiting(s.alloc, solver.solver()) {
        Ok(changes) => s.notice(&changes),
        Err(stop) => Err(stop),
    }
}
