//! Constraints that are posted to a system, and terms that are posted to a sum.
ghost use Rattle.std.specs.Prelude.{◌≡◌, ◌∷◌, ℕ, List};
ghost use Rattle.comet_meaning.specs.Posting as posting;
ghost use Rattle.comet_meaning.specs.Program.{level};
ghost use Rattle.run_steps.specs.Does.{Does};
ghost use Rattle.run_steps.specs.Views.{part, row};
ghost use Rattle.run_steps.specs.OfRunState.Views.{state_seen};
ghost use Rattle.run_values.specs.Views.{value_seen};

use crate::user_posting::{add_named, user_name};
use cbl_base::Place;
use checked_tree::Typed;
use form_parts::terms::{constraint_part, single_term};
use form_parts::values::{number_of, value_of};
use run_steps::inside::{Defining, Within};
use run_steps::operands::post_with;
use run_steps::state_of_runs::{Outside, State};
use run_values::{Stop, Value};

/// `post` of a system: the constraint, and its weight where it has one.
pub fn post_constraint<O: Outside, W: Defining<O>>(
    s: &mut State,
    out: &mut O,
    inside: &W,
    at: Place,
    object: &Typed,
    arguments: &[Typed],
) -> Result<Value, Stop>
    requires ready { W.is_ready inside.now }
    requires defines { W.can_define inside.now }
    ensures did { Does value_seen result (state_seen s.new (O.told out.new))
        (posting.post_constraint (level (W.code inside.now) (W.depth inside.now)) at
        (part object.now) (row arguments.now) (state_seen s.old (O.told out.old))) }
{
    if arguments.len() == 0 {
        return Ok(Value::Nothing);
    }
    add_constraint(s, out, inside, at, object, &arguments[0], &arguments[1..])
}

/// The same by what is posted: a constraint of the language, or a user's constraint, which has a name.
fn add_constraint<O: Outside, W: Defining<O>>(
    s: &mut State,
    out: &mut O,
    inside: &W,
    at: Place,
    object: &Typed,
    constraint: &Typed,
    weights: &[Typed],
) -> Result<Value, Stop>
    requires ready { W.is_ready inside.now }
    requires defines { W.can_define inside.now }
    ensures did { Does value_seen result (state_seen s.new (O.told out.new))
        (posting.post_constraint (level (W.code inside.now) (W.depth inside.now)) at
        (part object.now) (part constraint.now ∷ row weights.now)
        (state_seen s.old (O.told out.old))) }
{
    match user_name(constraint) {
        None => add_one(s, out, inside, at, object, constraint, weights),
        Some(name) => add_named(s, out, inside, at, object, constraint, weights, name),
    }
}

/// The object, the constraint, its weight, a unit for the call, and then it is posted.
#[tactic(auto, unfolding(comet_meaning::specs::Posting::post_one))]
fn add_one<O: Outside, W: Defining<O>>(
    s: &mut State,
    out: &mut O,
    inside: &W,
    at: Place,
    object: &Typed,
    constraint: &Typed,
    weights: &[Typed],
) -> Result<Value, Stop>
    requires ready { W.is_ready inside.now }
    requires defines { W.can_define inside.now }
    ensures did { Does value_seen result (state_seen s.new (O.told out.new))
        (posting.post_one (level (W.code inside.now) (W.depth inside.now)) at (part object.now)
        (part constraint.now) (row weights.now) (state_seen s.old (O.told out.old))) }
{
    let value = value_of(s, out, inside, object)?;
    let term = constraint_part(s, out, inside, constraint)?;
    let weight = weight_of(s, out, inside, weights);
    post_with(s, out, at, &value, term, weight)
}

/// `post` of a sum: the term, and its weight where it has one.
pub fn post_part<O: Outside, W: Defining<O>>(
    s: &mut State,
    out: &mut O,
    inside: &W,
    at: Place,
    object: &Typed,
    arguments: &[Typed],
) -> Result<Value, Stop>
    requires ready { W.is_ready inside.now }
    requires defines { W.can_define inside.now }
    ensures did { Does value_seen result (state_seen s.new (O.told out.new))
        (posting.post_part (level (W.code inside.now) (W.depth inside.now)) at (part object.now)
        (row arguments.now) (state_seen s.old (O.told out.old))) }
{
    if arguments.len() == 0 {
        return Ok(Value::Nothing);
    }
    add_part(s, out, inside, at, object, &arguments[0], &arguments[1..])
}

/// The object, the term, its weight, a unit for the call, and then it is posted.
#[tactic(auto, unfolding(comet_meaning::specs::Posting::post_part))]
fn add_part<O: Outside, W: Defining<O>>(
    s: &mut State,
    out: &mut O,
    inside: &W,
    at: Place,
    object: &Typed,
    term: &Typed,
    weights: &[Typed],
) -> Result<Value, Stop>
    requires ready { W.is_ready inside.now }
    requires defines { W.can_define inside.now }
    ensures did { Does value_seen result (state_seen s.new (O.told out.new))
        (posting.post_part (level (W.code inside.now) (W.depth inside.now)) at (part object.now)
        (part term.now ∷ row weights.now) (state_seen s.old (O.told out.old))) }
{
    let value = value_of(s, out, inside, object)?;
    let term = single_term(s, out, inside, term)?;
    let weight = weight_of(s, out, inside, weights);
    post_with(s, out, at, &value, term, weight)
}

/// The weight, which is 1 where it is left out.
#[tactic(auto, unfolding(comet_meaning::specs::Posting::weight_form))]
pub(crate) fn weight_of<O: Outside, W: Within<O>>(
    s: &mut State,
    out: &mut O,
    inside: &W,
    weights: &[Typed],
) -> Result<i64, Stop>
    requires ready { W.is_ready inside.now }
    ensures did { Does (λ z. z) result (state_seen s.new (O.told out.new))
        (posting.weight_form (level (W.code inside.now) (W.depth inside.now)) (row weights.now)
        (state_seen s.old (O.told out.old))) }
{
    if weights.len() == 0 {
        return Ok(1);
    }
    number_of(s, out, inside, &weights[0])
}
