//! Calls of methods.
ghost use Rattle.std.specs.Prelude.{◌≡◌, ℕ, List, [], map, nat_lt};
ghost use Rattle.comet_meaning.specs.Methods as methods;
ghost use Rattle.comet_meaning.specs.Methods.{called_form, method_form, object_value, restore_form, variables_asked};
ghost use Rattle.comet_meaning.specs.Program.{level};
ghost use Rattle.run_steps.specs.Does.{Does};
ghost use Rattle.run_steps.specs.Views.{part, row};
ghost use Rattle.run_steps.specs.OfRunState.Views.{state_seen};
ghost use Rattle.run_values.specs.Views.{value_seen};

use crate::posting::{post_constraint, post_part};
use cbl_base::Place;
use checked_tree::{Method, Typed};
use event_forms::behind_restore;
use form_parts::values::value_of;
use run_steps::inside::{Defining, Within};
use run_steps::operands::call_on;
use run_steps::state_of_runs::{Outside, State};
use run_values::{Stop, Value};

/// A call of a method. A constraint or a term is posted as it is, handlers run behind a `restore`, and of the arguments of
/// any other method the values are asked.
pub fn evaluate_method<O: Outside, W: Defining<O>>(
    s: &mut State,
    out: &mut O,
    inside: &W,
    at: Place,
    method: Method,
    object: &Typed,
    arguments: &[Typed],
) -> Result<Value, Stop>
    requires ready { W.is_ready inside.now }
    requires defines { W.can_define inside.now }
    ensures did { Does value_seen result (state_seen s.new (O.told out.new))
        (method_form (level (W.code inside.now) (W.depth inside.now)) at method (part object.now)
        (row arguments.now) (state_seen s.old (O.told out.old))) }
{
    match method {
        Method::Post => post_constraint(s, out, inside, at, object, arguments),
        Method::PostPart => post_part(s, out, inside, at, object, arguments),
        Method::Restore => restore(s, out, inside, at, object, arguments),
        _ => call_method(s, out, inside, at, method, object, arguments),
    }
}

/// A `restore`, and then the handlers of what it changed.
#[tactic(auto, unfolding(comet_meaning::specs::Methods::restore_form))]
fn restore<O: Outside, W: Within<O>>(
    s: &mut State,
    out: &mut O,
    inside: &W,
    at: Place,
    object: &Typed,
    arguments: &[Typed],
) -> Result<Value, Stop>
    requires ready { W.is_ready inside.now }
    ensures did { Does value_seen result (state_seen s.new (O.told out.new))
        (restore_form (level (W.code inside.now) (W.depth inside.now)) at (part object.now)
        (row arguments.now) (state_seen s.old (O.told out.old))) }
{
    let restored = call_method(s, out, inside, at, Method::Restore, object, arguments);
    behind_restore(s, out, inside, at, restored)
}

/// The object, the arguments, a unit for the call, and then what the method does.
#[tactic(auto, unfolding(comet_meaning::specs::Methods::called_form))]
fn call_method<O: Outside, W: Within<O>>(
    s: &mut State,
    out: &mut O,
    inside: &W,
    at: Place,
    method: Method,
    object: &Typed,
    arguments: &[Typed],
) -> Result<Value, Stop>
    requires ready { W.is_ready inside.now }
    ensures did { Does value_seen result (state_seen s.new (O.told out.new))
        (called_form (level (W.code inside.now) (W.depth inside.now)) at method (part object.now)
        (row arguments.now) (state_seen s.old (O.told out.old))) }
{
    let value = object_value(s, out, inside, method, object)?;
    let values = asked_values(s, out, inside, variables_asked(method), arguments);
    call_on(s, out, at, method, object, &value, values)
}

/// The object of a method: a variable whose domain is asked itself, and else a value.
#[tactic(auto, unfolding(comet_meaning::specs::Methods::object_value))]
fn object_value<O: Outside, W: Within<O>>(
    s: &mut State,
    out: &mut O,
    inside: &W,
    method: Method,
    object: &Typed,
) -> Result<Value, Stop>
    requires ready { W.is_ready inside.now }
    ensures did { Does value_seen result (state_seen s.new (O.told out.new))
        (object_value (level (W.code inside.now) (W.depth inside.now)) method (part object.now)
        (state_seen s.old (O.told out.old))) }
{
    match method {
        Method::Domain => inside.evaluate(s, out, object),
        _ => value_of(s, out, inside, object),
    }
}

/// How many arguments of a method, from the first, are variables themselves.
fn variables_asked(method: Method) -> usize
    ensures { result ≡ variables_asked method }
{
    match method {
        Method::Violations => 1,
        Method::SystemAssignDelta => 1,
        Method::SystemSwapDelta => 2,
        Method::ObjectiveAssignDelta => 1,
        Method::ObjectiveSwapDelta => 2,
        _ => 0,
    }
}

/// The arguments from the left, so many of them variables themselves.
fn asked_values<O: Outside, W: Within<O>>(
    s: &mut State,
    out: &mut O,
    inside: &W,
    count: usize,
    es: &[Typed],
) -> Result<Vec<Value>, Stop>
    requires ready { W.is_ready inside.now }
    ensures did { Does (λ values. map value_seen values.items) result
        (state_seen s.new (O.told out.new))
        (methods.asked_values (level (W.code inside.now) (W.depth inside.now)) count (row es.now) []
        (state_seen s.old (O.told out.old))) }
{
    let mut values = Vec::new(s.alloc);
    let mut left = count;
    for e in es {
        let value = asked_value(s, out, inside, left, e)?;
        values.push(value)?;
        left = left.saturating_sub(1);
    }
    Ok(values)
}

/// An argument, where so many from it on are variables themselves: else a value.
fn asked_value<O: Outside, W: Within<O>>(
    s: &mut State,
    out: &mut O,
    inside: &W,
    left: usize,
    e: &Typed,
) -> Result<Value, Stop>
    requires ready { W.is_ready inside.now }
    ensures did { Does value_seen result (state_seen s.new (O.told out.new))
        (methods.asked_value (level (W.code inside.now) (W.depth inside.now)) (nat_lt 0 left)
        (part e.now) (state_seen s.old (O.told out.old))) }
{
    if left == 0 {
        value_of(s, out, inside, e)
    } else {
        inside.evaluate(s, out, e)
    }
}
