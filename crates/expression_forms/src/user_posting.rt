//! Users' constraints that are posted to a system.
ghost use Rattle.std.specs.Prelude.{◌≡◌, ℕ, List, option_map};
ghost use Rattle.comet_meaning.specs.Posting as posting;
ghost use Rattle.comet_meaning.specs.Program.{level};
ghost use Rattle.comet_meaning.specs.TakingUsers.{take_user};
ghost use Rattle.expression_forms.specs.UserSteps.{name_of_call, user_behind, user_posted_with};
ghost use Rattle.run_steps.specs.OfRunState.Views.{state_seen};
ghost use Rattle.run_steps.specs.Does.{Does};
ghost use Rattle.run_steps.specs.Following.{Follows};
ghost use Rattle.run_steps.specs.Views.{part, row};
ghost use Rattle.run_values.specs.Views.{value_seen};

use crate::posting::weight_of;
use cbl_base::Place;
use checked_tree::{Builtin, Form, Typed};
use form_parts::terms::term_cells;
use form_parts::values::value_of;
use run_steps::inside::Defining;
use run_steps::solvers_of_runs::{Built, user_fits};
use run_steps::state_of_runs::{Outside, State};
use run_values::{Stop, Value};

/// The bytes of a text, and none of anything else.
#[tactic(auto, unfolding(checked_tree::specs::Shape::shape_of))]
fn text_of(e: &Typed) -> &[u8]
    ensures { result.now ≡ posting.text_of (part e.now) }
{
    match &e.form {
        Form::Text(text) => text.as_slice(),
        Form::Number(_) => b"",
        Form::Truth(_) => b"",
        Form::Name(_) => b"",
        Form::Unary { .. } => b"",
        Form::Parentheses(_) => b"",
        Form::Chain { .. } => b"",
        Form::Compare { .. } => b"",
        Form::Range { .. } => b"",
        Form::Conditional { .. } => b"",
        Form::Index { .. } => b"",
        Form::Cell { .. } => b"",
        Form::List(_) => b"",
        Form::Set(_) => b"",
        Form::Aggregate { .. } => b"",
        Form::Builtin { .. } => b"",
        Form::Call { .. } => b"",
        Form::Method { .. } => b"",
    }
}

/// The name of a user's constraint, if that is what is posted.
#[tactic(auto, unfolding(checked_tree::specs::Shape::shape_of))]
pub(crate) fn user_name(constraint: &Typed) -> Option<&[u8]>
    ensures { option_map (λ name. name.now) result ≡ posting.user_name (part constraint.now) }
{
    match &constraint.form {
        Form::Builtin { builtin, arguments } => name_in(*builtin, arguments),
        Form::Number(_) => None,
        Form::Truth(_) => None,
        Form::Text(_) => None,
        Form::Name(_) => None,
        Form::Unary { .. } => None,
        Form::Parentheses(_) => None,
        Form::Chain { .. } => None,
        Form::Compare { .. } => None,
        Form::Range { .. } => None,
        Form::Conditional { .. } => None,
        Form::Index { .. } => None,
        Form::Cell { .. } => None,
        Form::List(_) => None,
        Form::Set(_) => None,
        Form::Aggregate { .. } => None,
        Form::Call { .. } => None,
        Form::Method { .. } => None,
    }
}

/// The same of a function's call.
fn name_in(builtin: Builtin, arguments: &[Typed]) -> Option<&[u8]>
    ensures { option_map (λ name. name.now) result ≡ name_of_call builtin (row arguments.now) }
{
    if arguments.len() == 0 {
        return None;
    }
    match builtin {
        Builtin::User => Some(text_of(&arguments[0])),
        _ => None,
    }
}

/// The object and the places; then the constraint is taken by its name; then come its weight, a unit for the call, and it is
/// posted.
#[tactic(auto, unfolding(comet_meaning::specs::Posting::post_named))]
pub(crate) fn add_named<O: Outside, W: Defining<O>>(
    s: &mut State,
    out: &mut O,
    inside: &W,
    at: Place,
    object: &Typed,
    constraint: &Typed,
    weights: &[Typed],
    name: &[u8],
) -> Result<Value, Stop>
    requires ready { W.is_ready inside.now }
    requires defines { W.can_define inside.now }
    ensures did { Does value_seen result (state_seen s.new (O.told out.new))
        (posting.post_named (level (W.code inside.now) (W.depth inside.now)) at (part object.now)
        (part constraint.now) (row weights.now) name.now (state_seen s.old (O.told out.old))) }
{
    let place = constraint.place;
    let value = value_of(s, out, inside, object)?;
    let cells = term_cells(s, out, inside, constraint)?;
    take_and_post(
        s,
        out,
        inside,
        at,
        place,
        name,
        weights,
        &value,
        cells.terms,
    )
}

/// The same behind the places.
fn take_and_post<O: Outside, W: Defining<O>>(
    s: &mut State,
    out: &mut O,
    inside: &W,
    at: Place,
    place: Place,
    name: &[u8],
    weights: &[Typed],
    object: &Value,
    places: Vec<Built>,
) -> Result<Value, Stop>
    requires ready { W.is_ready inside.now }
    ensures did { Does value_seen result (state_seen s.new (O.told out.new))
        (user_behind (level (W.code inside.now) (W.depth inside.now)) at place name.now
        (row weights.now) (value_seen object.now) places.items
        (state_seen s.old (O.told out.old))) }
{
    let taken = take_named(s, out, place, name)?;
    user_fits(place, &places)?;
    let weight = weight_of(s, out, inside, weights);
    post_user_with(s, out, at, object, taken, places, weight)
}

/// The number of the first user's constraint that is free and has this name, which is taken.
fn take_named<O: Outside>(s: &State, out: &mut O, place: Place, name: &[u8]) -> Result<usize, Stop>
    ensures did { Does (λ n. n) result (state_seen s.now (O.told out.new))
        (take_user place name.now (state_seen s.now (O.told out.old))) }
{
    out.take_user(place, name)
}

/// A unit for the call, and then the user's constraint with a number is posted over its places, with its weight.
fn post_user_with<O: Outside>(
    s: &mut State,
    out: &mut O,
    at: Place,
    object: &Value,
    taken: usize,
    places: Vec<Built>,
    weight: Result<i64, Stop>,
) -> Result<Value, Stop>
    ensures did { Follows (λ z. z) value_seen weight result (state_seen s.old (O.told out.old))
        (state_seen s.new (O.told out.new))
        (user_posted_with at taken places.items (value_seen object.now)) }
{
    match weight {
        Err(stop) => Err(stop),
        Ok(weight) => post_user_behind(s, out, at, object, taken, places, weight),
    }
}

/// The same of the weight.
fn post_user_behind<O: Outside>(
    s: &mut State,
    out: &mut O,
    at: Place,
    object: &Value,
    taken: usize,
    places: Vec<Built>,
    weight: i64,
) -> Result<Value, Stop>
    ensures did { Does value_seen result (state_seen s.new (O.told out.new))
        (user_posted_with at taken places.items (value_seen object.now) weight
        (state_seen s.old (O.told out.old))) }
{
    s.charge(1, at)?;
    post_taken(s, out, at, object, taken, places, weight)
}

/// The user's constraint with a number is posted over its places, and gives no value.
fn post_taken<O: Outside>(
    s: &State,
    out: &mut O,
    at: Place,
    object: &Value,
    taken: usize,
    places: Vec<Built>,
    weight: i64,
) -> Result<Value, Stop>
    ensures did { Does value_seen result (state_seen s.now (O.told out.new))
        (posting.post_taken at taken places.items weight (value_seen object.now)
        (state_seen s.now (O.told out.old))) }
{
    match out.post_user(at, object, taken, places, weight) {
        Ok(()) => Ok(Value::Nothing),
        Err(stop) => Err(stop),
    }
}
