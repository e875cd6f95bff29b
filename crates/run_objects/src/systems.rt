//! What constraint systems and objectives are asked, and what is posted to them.
ghost use Rattle.std.specs.Prelude.{◌≡◌, [], ◌∷◌, IfErr, map};
ghost use Rattle.comet_meaning.specs.Systems as systems;
ghost use Rattle.comet_meaning.specs.Systems.{of_whole};
ghost use Rattle.comet_meaning.specs.Values as values;
ghost use Rattle.comet_meaning.specs.State as states;
ghost use Rattle.run_state.specs.OfRunOutside.Told.{beside};
ghost use Rattle.run_values.specs.Did.{Did, IsFaultOrMemory};
ghost use Rattle.run_values.specs.Views.{value_seen};

use cbl_base::{Place, VarId};
use run_state::Outside;
use run_state::solvers_of_runs::Built;
use run_values::{Stop, Value};

/// One more constraint of a system, or one more term of an objective, with its weight; gives no value. At this place
/// `AlreadyClosed` where the solver is closed; then `WrongSolver` where it has no such system or objective, or where a
/// variable in the term isn't its own; then `OutOfRange` where the weight is below 0; and then `TooMany` term nodes where
/// all terms have more distinct subterms than they may.
pub fn post<O: Outside>(
    out: &mut O,
    at: Place,
    whole: &Value,
    term: Built,
    weight: i64,
) -> Result<Value, Stop>
    ensures did { (s : states.State) →
        Did value_seen result (beside (O.told out.new) s)
        (systems.post at term weight (value_seen whole.now) (beside (O.told out.old) s)) }
    ensures printed { (O.told out.new).printed ≡ (O.told out.old).printed }
    ensures stop { IfErr result IsFaultOrMemory }
{
    match out.post(at, whole, term, weight) {
        Ok(()) => Ok(Value::Nothing),
        Err(stop) => Err(stop),
    }
}

/// The violations of a system, or the value of an objective. At this place `NotClosed` where the solver is open, and then
/// `WrongSolver` where it has no such system or objective.
pub fn whole_value<O: Outside>(out: &O, at: Place, whole: &Value) -> Result<Value, Stop>
    ensures did { (s : states.State) →
        Did value_seen result (beside (O.told out.now) s)
        (of_whole (systems.whole_value at) (value_seen whole.now) (beside (O.told out.now) s)) }
    ensures stop { IfErr result IsFaultOrMemory }
{
    out.whole_value(at, whole)
}

/// The violations of a system, or those of a variable in it. At this place `NotClosed` where the solver is open, and then
/// `WrongSolver` where it has no such system or variable; else the fault of the question where it was met. Of other
/// arguments nothing is given.
pub fn violations<O: Outside>(
    out: &O,
    at: Place,
    whole: &Value,
    arguments: &[Value],
) -> Result<Value, Stop>
    ensures did { (s : states.State) →
        Did value_seen result (beside (O.told out.now) s)
        (systems.violations at (value_seen whole.now) (map value_seen arguments.now)
        (beside (O.told out.now) s)) }
    ensures stop { IfErr result IsFaultOrMemory }
{
    match arguments {
        [] => whole_value(out, at, whole),
        [asked] => violations_in(out, at, whole, asked),
        _ => Ok(Value::Nothing),
    }
}

/// The violations of what is asked about in a system.
fn violations_in<O: Outside>(
    out: &O,
    at: Place,
    whole: &Value,
    asked: &Value,
) -> Result<Value, Stop>
    ensures did { (s : states.State) →
        Did value_seen result (beside (O.told out.now) s)
        (systems.violations at (value_seen whole.now) (value_seen asked.now ∷ [])
        (beside (O.told out.now) s)) }
    ensures stop { IfErr result IsFaultOrMemory }
{
    match asked {
        Value::Variable(variable) => violations_of(out, at, whole, *variable),
        _ => Ok(Value::Nothing),
    }
}

/// The violations of a variable in a system.
fn violations_of<O: Outside>(
    out: &O,
    at: Place,
    whole: &Value,
    variable: VarId,
) -> Result<Value, Stop>
    ensures did { (s : states.State) →
        Did value_seen result (beside (O.told out.now) s)
        (of_whole (systems.variable_violations at variable) (value_seen whole.now)
        (beside (O.told out.now) s)) }
    ensures stop { IfErr result IsFaultOrMemory }
{
    out.violations_of(at, whole, variable)
}

/// The delta of an assignment: the value behind it less the value now. The stops are those of `violations`, and
/// `DefinedVariable` where the variable has a definition. Of other arguments nothing is given.
pub fn assign_delta<O: Outside>(
    out: &O,
    at: Place,
    whole: &Value,
    arguments: &[Value],
) -> Result<Value, Stop>
    ensures did { (s : states.State) →
        Did value_seen result (beside (O.told out.now) s)
        (systems.assign_delta at (value_seen whole.now) (map value_seen arguments.now)
        (beside (O.told out.now) s)) }
    ensures stop { IfErr result IsFaultOrMemory }
{
    match arguments {
        [moved, number] => delta_of_number(out, at, whole, moved, number),
        _ => Ok(Value::Nothing),
    }
}

/// The delta where this gets a number.
fn delta_of_number<O: Outside>(
    out: &O,
    at: Place,
    whole: &Value,
    moved: &Value,
    number: &Value,
) -> Result<Value, Stop>
    ensures did { (s : states.State) →
        Did value_seen result (beside (O.told out.now) s)
        (systems.assign_delta at (value_seen whole.now)
        (value_seen moved.now ∷ value_seen number.now ∷ []) (beside (O.told out.now) s)) }
    ensures stop { IfErr result IsFaultOrMemory }
{
    match moved {
        Value::Variable(variable) => delta_of_assigned(out, at, whole, *variable, number),
        _ => Ok(Value::Nothing),
    }
}

/// The delta where a variable gets a number.
fn delta_of_assigned<O: Outside>(
    out: &O,
    at: Place,
    whole: &Value,
    variable: VarId,
    number: &Value,
) -> Result<Value, Stop>
    ensures did { (s : states.State) →
        Did value_seen result (beside (O.told out.now) s)
        (systems.assign_delta at (value_seen whole.now)
        (values.Variable variable ∷ value_seen number.now ∷ []) (beside (O.told out.now) s)) }
    ensures stop { IfErr result IsFaultOrMemory }
{
    out.assign_delta(at, whole, variable, number.number())
}

/// The delta of a swap: the value behind it less the value now. The stops are those of `assign_delta`. Of other arguments
/// nothing is given.
pub fn swap_delta<O: Outside>(
    out: &O,
    at: Place,
    whole: &Value,
    arguments: &[Value],
) -> Result<Value, Stop>
    ensures did { (s : states.State) →
        Did value_seen result (beside (O.told out.now) s)
        (systems.swap_delta at (value_seen whole.now) (map value_seen arguments.now)
        (beside (O.told out.now) s)) }
    ensures stop { IfErr result IsFaultOrMemory }
{
    match arguments {
        [left, right] => delta_of_swapped(out, at, whole, left, right),
        _ => Ok(Value::Nothing),
    }
}

/// The delta where these are swapped.
fn delta_of_swapped<O: Outside>(
    out: &O,
    at: Place,
    whole: &Value,
    left: &Value,
    right: &Value,
) -> Result<Value, Stop>
    ensures did { (s : states.State) →
        Did value_seen result (beside (O.told out.now) s)
        (systems.swap_delta at (value_seen whole.now)
        (value_seen left.now ∷ value_seen right.now ∷ []) (beside (O.told out.now) s)) }
    ensures stop { IfErr result IsFaultOrMemory }
{
    match left {
        Value::Variable(left) => delta_of_swap_with(out, at, whole, *left, right),
        _ => Ok(Value::Nothing),
    }
}

/// The delta where a variable and this are swapped.
fn delta_of_swap_with<O: Outside>(
    out: &O,
    at: Place,
    whole: &Value,
    left: VarId,
    right: &Value,
) -> Result<Value, Stop>
    ensures did { (s : states.State) →
        Did value_seen result (beside (O.told out.now) s)
        (systems.swap_delta at (value_seen whole.now)
        (values.Variable left ∷ value_seen right.now ∷ []) (beside (O.told out.now) s)) }
    ensures stop { IfErr result IsFaultOrMemory }
{
    match right {
        Value::Variable(right) => delta_of_swap(out, at, whole, left, *right),
        _ => Ok(Value::Nothing),
    }
}

/// The delta where two variables are swapped.
fn delta_of_swap<O: Outside>(
    out: &O,
    at: Place,
    whole: &Value,
    left: VarId,
    right: VarId,
) -> Result<Value, Stop>
    ensures did { (s : states.State) →
        Did value_seen result (beside (O.told out.now) s)
        (systems.swap_delta at (value_seen whole.now)
        (values.Variable left ∷ values.Variable right ∷ []) (beside (O.told out.now) s)) }
    ensures stop { IfErr result IsFaultOrMemory }
{
    out.swap_delta(at, whole, left, right)
}
