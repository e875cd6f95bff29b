//! Calls of functions.
ghost use Rattle.std.specs.Prelude.{◌≡◌, ℕ, List, [], Option, Some, map};
ghost use Rattle.checked_tree.specs.Tasks.{function_of};
ghost use Rattle.comet_meaning.specs.Calls as calls;
ghost use Rattle.comet_meaning.specs.Program.{level};
ghost use Rattle.run_steps.specs.Does.{Does};
ghost use Rattle.run_steps.specs.Views.{code_seen, part, row};
ghost use Rattle.run_steps.specs.OfRunState.Views.{state_seen};
ghost use Rattle.run_values.specs.Views.{value_seen};

use crate::expressions::value_as;
use cbl_base::Place;
use checked_tree::{Function, Kind, Typed};
use run_steps::code::{Code, function_at, given, is_handed_itself, is_pure, parameter_at};
use run_steps::inside::Within;
use run_steps::state_of_runs::{Outside, State};
use run_values::{Stop, Value};
use std::mem;

/// A call of a function.
#[tactic(auto, unfolding(comet_meaning::specs::Calls::call_form))]
pub fn evaluate_call<O: Outside, W: Within<O>>(
    s: &mut State,
    out: &mut O,
    inside: &W,
    code: &Code<'_>,
    at: Place,
    function: usize,
    arguments: &[Typed],
) -> Result<Value, Stop>
    requires ready { W.is_ready inside.now }
    requires same_code { W.code inside.now ≡ code_seen code.now }
    ensures did { Does value_seen result (state_seen s.new (O.told out.new))
        (calls.call_form (W.code inside.now)
        (level (W.code inside.now) (W.depth inside.now)) at function (row arguments.now)
        (state_seen s.old (O.told out.old))) }
{
    match function_at(code, function) {
        Some(callee) => {
            let pure = is_pure(code, function);
            call(s, out, inside, at, pure, callee, arguments)
        }
        None => Ok(Value::Nothing),
    }
}

/// The arguments from the left, a unit for the call, and then the body.
fn call<O: Outside, W: Within<O>>(
    s: &mut State,
    out: &mut O,
    inside: &W,
    at: Place,
    pure: bool,
    callee: &Function,
    arguments: &[Typed],
) -> Result<Value, Stop>
    requires ready { W.is_ready inside.now }
    ensures did { Does value_seen result (state_seen s.new (O.told out.new))
        (calls.called (level (W.code inside.now) (W.depth inside.now)) at (row arguments.now) «pure»
        (Some (function_of callee.now)) (state_seen s.old (O.told out.old))) }
{
    let values = arguments_of(s, out, inside, &callee.parameters, arguments)?;
    s.charge(1, at)?;
    let handed = s.handed(pure, values)?;
    execute_body(s, out, inside, callee, handed)
}

/// The arguments, each as its parameter holds it; those without a parameter are left out.
fn arguments_of<O: Outside, W: Within<O>>(
    s: &mut State,
    out: &mut O,
    inside: &W,
    parameters: &[Kind],
    arguments: &[Typed],
) -> Result<Vec<Value>, Stop>
    requires ready { W.is_ready inside.now }
    ensures did { Does (λ values. map value_seen values.items) result
        (state_seen s.new (O.told out.new))
        (calls.arguments_form (level (W.code inside.now) (W.depth inside.now)) parameters.now
        (row arguments.now) [] (state_seen s.old (O.told out.old))) }
{
    let mut values = Vec::new(s.alloc);
    for argument in arguments {
        let Some(kind) = parameter_at(parameters, values.len()) else {
            return Ok(values);
        };
        let value = argument_of(s, out, inside, kind, argument)?;
        values.push(value)?;
    }
    Ok(values)
}

/// An argument for a parameter of this kind: a variable itself, and else a value.
fn argument_of<O: Outside, W: Within<O>>(
    s: &mut State,
    out: &mut O,
    inside: &W,
    kind: Kind,
    e: &Typed,
) -> Result<Value, Stop>
    requires ready { W.is_ready inside.now }
    ensures did { Does value_seen result (state_seen s.new (O.told out.new))
        (calls.argument_form (level (W.code inside.now) (W.depth inside.now)) kind (part e.now)
        (state_seen s.old (O.told out.old))) }
{
    if is_handed_itself(kind) {
        inside.evaluate(s, out, e)
    } else {
        value_as(s, out, inside, kind, e)
    }
}

/// The body of a function, in a frame of its own, whose first cells are the arguments.
#[tactic(auto, unfolding(comet_meaning::specs::Calls::body_form, comet_meaning::specs::Cells::in_scope, comet_meaning::specs::Cells::in_frame))]
fn execute_body<O: Outside, W: Within<O>>(
    s: &mut State,
    out: &mut O,
    inside: &W,
    callee: &Function,
    arguments: Vec<Value>,
) -> Result<Value, Stop>
    requires ready { W.is_ready inside.now }
    ensures did { Does value_seen result (state_seen s.new (O.told out.new))
        (calls.body_form (level (W.code inside.now) (W.depth inside.now)) (function_of callee.now)
        (map value_seen arguments.items) (state_seen s.old (O.told out.old))) }
{
    let frame = mem::replace(&mut s.frame, arguments);
    let flow = inside.execute(s, out, &callee.body)?;
    s.frame = frame;
    Ok(given(s.alloc, callee.result, flow))
}
