//! Calls that are done without the parts of a run: the arguments are plain numbers, and the body is a `return` of a plain
//! number. They change nothing but the fuel. What is answered is the part's value, and then the fuel is that behind the
//! part; where anything else stands in a part, or fails, or too little fuel is left, nothing is answered, and the state
//! is as it was.
ghost use Rattle.std.specs.Prelude.{◌≡◌, ℕ, List, [], map, option_map};
ghost use Rattle.std.specs.Option.{option_copied};
ghost use Rattle.cbl_base.specs.declared.place.Place.{Place};
ghost use Rattle.checked_tree.specs.Actions.{deed_of};
ghost use Rattle.checked_tree.specs.Shape.{seen};
ghost use Rattle.checked_tree.specs.Tasks as works;
ghost use Rattle.checked_tree.specs.Tasks.{work_of};
ghost use Rattle.comet_meaning.specs.Calls as calls;
ghost use Rattle.comet_meaning.specs.Levels as levels;
ghost use Rattle.comet_meaning.specs.Operators as operators;
ghost use Rattle.comet_meaning.specs.Parts as parts;
ghost use Rattle.comet_meaning.specs.Program.{level};
ghost use Rattle.run_objects.specs.OfRunOutside.Told.{Told};
ghost use Rattle.run_objects.specs.OfRunState.Views.{state_seen};
ghost use Rattle.run_steps.specs.Spending.{GivesNumbers, IsAlone, IsReturn, Spends, TakesFuel};
ghost use Rattle.run_steps.specs.Views.{code_seen, links_seen, part, row};

use crate::code::{Code, function_at, is_handed_itself, parameter_at};
use crate::plain::{number_itself, result_of};
use checked_tree::{Act, Action, Form, Kind, Link, Task, Typed};
use run_objects::state_of_runs::State;
use run_values::Value;
use std::mem;

/// How much fuel such a call takes: a unit for itself, one for its block and one for the `return`.
const CALL_FUEL: u64 = 3;

/// The number of a part that is such a call, or a chain with such calls, where there is room and fuel for it.
pub fn called_number(s: &mut State, code: &Code<'_>, room: u32, e: &Typed) -> Option<i64>
    ensures given { (told : Told) → TakesFuel result (state_seen s.old told) (state_seen s.new told)
        (parts.value (level (code_seen code.now) room) (part e.now) (state_seen s.old told)) }
{
    let fuel = s.fuel;
    match number_spending(s, code, room, e) {
        Some(number) => Some(number),
        None => {
            s.fuel = fuel;
            None
        }
    }
}

/// The same, but where nothing is answered some fuel may be gone.
fn number_spending(s: &mut State, code: &Code<'_>, room: u32, e: &Typed) -> Option<i64>
    ensures given { (told : Told) → Spends result (state_seen s.old told) (state_seen s.new told)
        (parts.value (level (code_seen code.now) room) (part e.now) (state_seen s.old told)) }
{
    if room == 0 {
        return None;
    }
    match &e.form {
        Form::Call {
            function,
            arguments,
        } => call_spending(s, code, room - 1, *function, arguments),
        Form::Chain { first, links } => chain_spending(s, code, room - 1, first, links),
        _ => None,
    }
}

/// The number of a chain of plain numbers and such calls.
fn chain_spending(
    s: &mut State,
    code: &Code<'_>,
    room: u32,
    first: &Typed,
    links: &[Link],
) -> Option<i64>
    ensures given { (told : Told) → Spends result (state_seen s.old told) (state_seen s.new told)
        (operators.chain_form (level (code_seen code.now) room) (part first.now)
        (links_seen links.now) (state_seen s.old told)) }
{
    let mut number = operand_spending(s, code, room, first)?;
    for link in links {
        let next = operand_spending(s, code, room, &link.operand)?;
        number = result_of(link.operator, number, next)?;
    }
    Some(number)
}

/// The number of a part that is plain or such a call.
fn operand_spending(s: &mut State, code: &Code<'_>, room: u32, e: &Typed) -> Option<i64>
    ensures given { (told : Told) → Spends result (state_seen s.old told) (state_seen s.new told)
        (parts.value (level (code_seen code.now) room) (part e.now) (state_seen s.old told)) }
{
    match number_itself(s, room, e) {
        Some(number) => Some(number),
        None => itself_spending(s, code, room, e),
    }
}

/// The number of a part that is such a call.
fn itself_spending(s: &mut State, code: &Code<'_>, room: u32, e: &Typed) -> Option<i64>
    ensures given { (told : Told) → Spends result (state_seen s.old told) (state_seen s.new told)
        (parts.value (level (code_seen code.now) room) (part e.now) (state_seen s.old told)) }
{
    if room == 0 {
        return None;
    }
    match &e.form {
        Form::Call {
            function,
            arguments,
        } => call_spending(s, code, room - 1, *function, arguments),
        _ => None,
    }
}

/// The number that such a call gives.
fn call_spending(
    s: &mut State,
    code: &Code<'_>,
    room: u32,
    function: usize,
    arguments: &[Typed],
) -> Option<i64>
    ensures given { (at : Place) (told : Told) →
        Spends result (state_seen s.old told) (state_seen s.new told)
        (calls.call_form (code_seen code.now) (level (code_seen code.now) room) at function
        (row arguments.now) (state_seen s.old told)) }
{
    let callee = function_at(code, function)?;
    let value = returned_alone(&callee.body)?;
    if !may_be_plain(value) {
        return None;
    }
    if room < 2 {
        return None;
    }
    if s.fuel < CALL_FUEL {
        return None;
    }
    let values = numbers_for(s, room, &callee.parameters, arguments)?;
    s.fuel -= CALL_FUEL;
    let frame = mem::replace(&mut s.frame, values);
    let number = number_itself(s, room - 2, value);
    s.frame = frame;
    number
}

/// Whether a part may be a plain number, as far as its own form tells.
fn may_be_plain(e: &Typed) -> bool {
    matches!(
        &e.form,
        Form::Number(_) | Form::Name(_) | Form::Chain { .. } | Form::Index { .. }
    )
}

/// The arguments for these parameters, where they are plain numbers.
fn numbers_for(s: &State, room: u32, parameters: &[Kind], arguments: &[Typed]) -> Option<Vec<Value>>
    ensures given { (code : levels.Code) (told : Told) →
        GivesNumbers result (state_seen s.now told)
        (calls.arguments_form (level code room) parameters.now (row arguments.now) []
        (state_seen s.now told)) }
{
    let Ok(mut values) = Vec::with_capacity(s.alloc, arguments.len()) else {
        return None;
    };
    for argument in arguments {
        let Some(kind) = parameter_at(parameters, values.len()) else {
            return Some(values);
        };
        if is_handed_itself(kind) {
            return None;
        }
        let number = number_itself(s, room, argument)?;
        let Ok(()) = values.push(Value::Number(number)) else {
            return None;
        };
    }
    Some(values)
}

/// The value that a body returns, where it is a block of this `return` alone.
fn returned_alone(body: &Task) -> Option<&Typed>
    ensures given { IsAlone (option_map seen (option_copied result)) (work_of body.now) }
{
    match &body.act {
        Act::Block(tasks) => returned_first(tasks),
        _ => None,
    }
}

/// The value that the only one of some statements returns.
fn returned_first(tasks: &[Task]) -> Option<&Typed>
    ensures given { (at : Place) → IsAlone (option_map seen (option_copied result))
        (works.task at (works.block (works.row_of (map work_of tasks.now)))) }
{
    if tasks.len() != 1 {
        return None;
    }
    match &tasks[0].act {
        Act::Action(action) => returned_value(action),
        _ => None,
    }
}

/// The value that an action returns, where it is a `return` with one.
#[tactic(auto, unfolding(checked_tree::specs::Actions::deed_of))]
fn returned_value(action: &Action) -> Option<&Typed>
    ensures given { IsReturn (option_map seen (option_copied result)) (deed_of action.now) }
{
    match action {
        Action::Return(Some(value)) => Some(value),
        _ => None,
    }
}
