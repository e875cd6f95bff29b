//! The value of a pure expression.
ghost use Rattle.std.specs.Prelude.{◌≡◌, ℕ, List, true};
ghost use Rattle.comet_meaning.specs.Program.{level};
ghost use Rattle.comet_meaning.specs.Purity.{is_pure, pure_functions};
ghost use Rattle.interpreter.specs.OfRunSteps.Views.{code_seen, part};
ghost use Rattle.run_standing.specs.Seen.{standing_seen};
ghost use Rattle.stmt_expr.specs.Evaluation.{Evaluates, answer_seen};

use cbl_base::{Fuel, Place, RunFault, Steps};
use checked_tree::Typed;
use interpreter::{Code, evaluate};
use node_kinds::SolverNode;
use run_standing::Standing;
use run_standing::solving::Trial;
use run_values::{Stop, Value};
use run_watching::Watch;
use std::sync::ledger::Ledger;

/// Why an expression has no value.
#[derive(Clone, Copy, PartialEq, Eq, Debug)]
pub enum EvalStop {
    /// A fault, with its place.
    Fault(Place, RunFault),
    /// The fuel is spent, at this place.
    Spent(Place),
    NoMemory,
}

/// The value of a pure expression in what stands of a run, whose own fuel isn't looked at; of a variable the variable itself. A value
/// that names an array, a variable or an object names that of this run. `room` tells how many parts may be executed
/// inside each other. The value, or the fault or the end of the fuel with its place, and the fuel that is left are those
/// of the expression's meaning. With `NoMemory` nothing is told of the fuel. Deltas are tried out in `trial`, which holds
/// nothing yet, and `steps` counts nothing yet.
pub fn eval<L: Ledger, N: SolverNode>(
    standing: &Standing<N>,
    code: &Code<'_>,
    room: u32,
    e: &Typed,
    fuel: &mut Fuel,
    _trial: &mut Trial,
    _steps: &mut Steps<L>,
) -> Result<Value, EvalStop>
    requires known { (code_seen code.now).pure ≡ pure_functions (code_seen code.now).functions }
    requires pure { is_pure (code_seen code.now).pure (part e.now) ≡ true }
    ensures { (printed : List ℕ) → Evaluates ((level (code_seen code.now) room).expr (part e.now))
        (standing_seen standing.now printed) fuel.old.left result fuel.new.left }
{
    let mut state = match standing.state.without_data(fuel.left) {
        Ok(state) => state,
        Err(_) => return Err(EvalStop::NoMemory),
    };
    let mut watch = Watch {
        solvers: &standing.solvers,
    };
    let answer = evaluate(&mut state, &mut watch, code, room, e);
    fuel.left = state.fuel;
    handed_on(answer)
}

/// The answer of an evaluation over memory, as it is handed on.
fn handed_on(answer: Result<Value, Stop>) -> Result<Value, EvalStop>
    ensures { result ≡ answer_seen answer }
{
    match answer {
        Ok(value) => Ok(value),
        Err(Stop::Fault(place, fault)) => Err(EvalStop::Fault(place, fault)),
        Err(Stop::Spent(place)) => Err(EvalStop::Spent(place)),
        // a pure expression closes no solver, so none stops at a cycle
        Err(Stop::NoMemory | Stop::Output(_) | Stop::Cyclic(..)) => Err(EvalStop::NoMemory),
    }
}
