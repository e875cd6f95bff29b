//! The values of expressions.
ghost use Rattle.std.specs.Prelude.{◌≡◌, ℕ, List, [], map};
ghost use Rattle.checked_tree.specs.Shape.{shape_of};
ghost use Rattle.comet_meaning.specs.Expressions.{value_of_form};
ghost use Rattle.comet_meaning.specs.Parts as parts;
ghost use Rattle.comet_meaning.specs.Program.{level};
ghost use Rattle.run_steps.specs.Does.{Does};
ghost use Rattle.run_steps.specs.Parts.{value_as};
ghost use Rattle.run_steps.specs.Views.{code_seen, part, row};
ghost use Rattle.run_steps.specs.OfRunState.Views.{state_seen};
ghost use Rattle.run_values.specs.Views.{value_seen};

use crate::aggregates::evaluate_aggregate;
use crate::arrays::{evaluate_builtin, evaluate_cell, evaluate_index, evaluate_list, evaluate_set};
use crate::calls::evaluate_call;
use crate::methods::evaluate_method;
use crate::operators::{
    evaluate_chain, evaluate_compare, evaluate_conditional, evaluate_range, evaluate_unary,
};
use cbl_base::Place;
use checked_tree::{Form, Kind, Typed};
use form_parts::values::value_of;
use run_steps::code::Code;
use run_steps::inside::{Defining, Within};
use run_steps::operands::as_held;
use run_steps::state_of_runs::{Outside, State};
use run_values::{Stop, Value};

/// The value of a form of an expression of this kind at this place.
#[tactic(auto, unfolding(checked_tree::specs::Shape::shape_of, comet_meaning::specs::Expressions::value_of_form))]
pub fn evaluate_form<O: Outside, W: Defining<O>>(
    s: &mut State,
    out: &mut O,
    inside: &W,
    code: &Code<'_>,
    at: Place,
    kind: Kind,
    form: &Form,
) -> Result<Value, Stop>
    requires ready { W.is_ready inside.now }
    requires defines { W.can_define inside.now }
    requires same_code { W.code inside.now ≡ code_seen code.now }
    ensures did { Does value_seen result (state_seen s.new (O.told out.new))
        (value_of_form (W.code inside.now) (level (W.code inside.now) (W.depth inside.now)) at kind
        (shape_of form.now) (state_seen s.old (O.told out.old))) }
{
    match form {
        Form::Number(number) => Ok(Value::Number(*number)),
        Form::Truth(truth) => Ok(Value::Truth(*truth)),
        Form::Text(_) => Ok(Value::Nothing),
        Form::Name(slot) => s.look(*slot),
        Form::Unary { operator, operand } => {
            evaluate_unary(s, out, inside, at, *operator, operand)
        }
        Form::Parentheses(inner) => inside.evaluate(s, out, inner),
        Form::Chain { first, links } => evaluate_chain(s, out, inside, first, links),
        Form::Compare {
            comparison,
            left,
            right,
        } => evaluate_compare(s, out, inside, *comparison, left, right),
        Form::Range { low, high } => evaluate_range(s, out, inside, low, high),
        Form::Conditional {
            test,
            then,
            otherwise,
        } => evaluate_conditional(s, out, inside, kind, test, then, otherwise),
        Form::Index { array, index } => evaluate_index(s, out, inside, at, array, index),
        Form::Cell { grid, row, column } => { evaluate_cell(s, out, inside, at, grid, row, column) }
        Form::List(cells) => evaluate_list(s, out, inside, cells),
        Form::Set(members) => evaluate_set(s, out, inside, members),
        Form::Aggregate {
            aggregate,
            generators,
            condition,
            body,
        } => evaluate_aggregate(s, out, inside, at, *aggregate, generators, condition, body),
        Form::Builtin { builtin, arguments } => {
            evaluate_builtin(s, out, inside, at, *builtin, arguments)
        }
        Form::Call {
            function,
            arguments,
        } => evaluate_call(s, out, inside, code, at, *function, arguments),
        Form::Method {
            method,
            object,
            arguments,
        } => evaluate_method(s, out, inside, at, *method, object, arguments),
    }
}

/// The value of a part, as a name of this kind holds it.
pub fn value_as<O: Outside, W: Within<O>>(
    s: &mut State,
    out: &mut O,
    inside: &W,
    kind: Kind,
    e: &Typed,
) -> Result<Value, Stop>
    requires ready { W.is_ready inside.now }
    ensures did { Does value_seen result (state_seen s.new (O.told out.new))
        (value_as (level (W.code inside.now) (W.depth inside.now)) kind (part e.now)
        (state_seen s.old (O.told out.old))) }
{
    as_held(kind, value_of(s, out, inside, e))
}

/// The values of parts, from the left.
pub fn values_of<O: Outside, W: Within<O>>(
    s: &mut State,
    out: &mut O,
    inside: &W,
    es: &[Typed],
) -> Result<Vec<Value>, Stop>
    requires ready { W.is_ready inside.now }
    ensures did { Does (λ values. map value_seen values.items) result
        (state_seen s.new (O.told out.new))
        (parts.values (level (W.code inside.now) (W.depth inside.now)) (row es.now) []
        (state_seen s.old (O.told out.old))) }
{
    let mut values = Vec::new(s.alloc);
    for e in es {
        let value = value_of(s, out, inside, e)?;
        values.push(value)?;
    }
    Ok(values)
}
