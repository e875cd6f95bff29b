//! The values of parts, as forms ask for them.
ghost use Rattle.std.specs.Prelude.{◌≡◌, ℕ, List, [], map};
ghost use Rattle.checked_tree.specs.Shape.{optional};
ghost use Rattle.comet_meaning.specs.Parts as parts;
ghost use Rattle.comet_meaning.specs.Program.{level};
ghost use Rattle.run_steps.specs.Does.{Does};
ghost use Rattle.run_steps.specs.Views.{part, part_or_none};
ghost use Rattle.run_steps.specs.OfRunState.Views.{state_seen};
ghost use Rattle.run_values.specs.Views.{bounds_seen, value_seen};

use checked_tree::Typed;
use run_steps::inside::Within;
use run_steps::operands::{as_bounds, as_number, as_truth, read_part};
use run_steps::plain::{plain_name, plain_number, plain_truth, plain_value};
use run_steps::state_of_runs::{Outside, State};
use run_values::{Bounds, Stop, Value};

/// The value of a part, where a variable is read.
#[tactic(auto, unfolding(comet_meaning::specs::Parts::value))]
pub fn value_of<O: Outside, W: Within<O>>(
    s: &mut State,
    out: &mut O,
    inside: &W,
    e: &Typed,
) -> Result<Value, Stop>
    requires ready { W.is_ready inside.now }
    ensures did { Does value_seen result (state_seen s.new (O.told out.new))
        (parts.value (level (W.code inside.now) (W.depth inside.now)) (part e.now)
        (state_seen s.old (O.told out.old))) }
{
    match plain_value(s, inside.room(), e) {
        Some(value) => Ok(value),
        None => called_value_of(s, out, inside, e),
    }
}

/// The value of a part that isn't plain, where a variable is read.
fn called_value_of<O: Outside, W: Within<O>>(
    s: &mut State,
    out: &mut O,
    inside: &W,
    e: &Typed,
) -> Result<Value, Stop>
    requires ready { W.is_ready inside.now }
    ensures did { Does value_seen result (state_seen s.new (O.told out.new))
        (parts.value (level (W.code inside.now) (W.depth inside.now)) (part e.now)
        (state_seen s.old (O.told out.old))) }
{
    match inside.called_number(s, e) {
        Some(number) => Ok(Value::Number(number)),
        None => evaluated_value_of(s, out, inside, e),
    }
}

/// The same, whatever the part is.
#[tactic(auto, unfolding(comet_meaning::specs::Parts::value))]
fn evaluated_value_of<O: Outside, W: Within<O>>(
    s: &mut State,
    out: &mut O,
    inside: &W,
    e: &Typed,
) -> Result<Value, Stop>
    requires ready { W.is_ready inside.now }
    ensures did { Does value_seen result (state_seen s.new (O.told out.new))
        (parts.value (level (W.code inside.now) (W.depth inside.now)) (part e.now)
        (state_seen s.old (O.told out.old))) }
{
    let value = inside.evaluate(s, out, e);
    read_part(s, out, e, value)
}

/// The value of a part that is no plain number, where a variable is read.
#[tactic(auto, unfolding(comet_meaning::specs::Parts::value))]
pub fn other_value_of<O: Outside, W: Within<O>>(
    s: &mut State,
    out: &mut O,
    inside: &W,
    e: &Typed,
) -> Result<Value, Stop>
    requires ready { W.is_ready inside.now }
    ensures did { Does value_seen result (state_seen s.new (O.told out.new))
        (parts.value (level (W.code inside.now) (W.depth inside.now)) (part e.now)
        (state_seen s.old (O.told out.old))) }
{
    match plain_name(s, inside.room(), e) {
        Some(value) => Ok(value),
        None => called_value_of(s, out, inside, e),
    }
}

/// The number that a part gives; a truth value stands as 1 or 0.
#[tactic(auto, unfolding(comet_meaning::specs::Parts::number))]
pub fn number_of<O: Outside, W: Within<O>>(
    s: &mut State,
    out: &mut O,
    inside: &W,
    e: &Typed,
) -> Result<i64, Stop>
    requires ready { W.is_ready inside.now }
    ensures did { Does (λ z. z) result (state_seen s.new (O.told out.new))
        (parts.number (level (W.code inside.now) (W.depth inside.now)) (part e.now)
        (state_seen s.old (O.told out.old))) }
{
    match plain_number(s, inside.room(), e) {
        Some(number) => Ok(number),
        None => as_number(value_of(s, out, inside, e)),
    }
}

/// The truth value that a part gives.
#[tactic(auto, unfolding(comet_meaning::specs::Parts::truth))]
pub fn truth_of<O: Outside, W: Within<O>>(
    s: &mut State,
    out: &mut O,
    inside: &W,
    e: &Typed,
) -> Result<bool, Stop>
    requires ready { W.is_ready inside.now }
    ensures did { Does (λ b. b) result (state_seen s.new (O.told out.new))
        (parts.truth (level (W.code inside.now) (W.depth inside.now)) (part e.now)
        (state_seen s.old (O.told out.old))) }
{
    match plain_truth(s, inside.room(), e) {
        Some(truth) => Ok(truth),
        None => as_truth(value_of(s, out, inside, e)),
    }
}

/// The bounds of the range that a part gives.
#[tactic(auto, unfolding(comet_meaning::specs::Parts::bounds))]
pub fn bounds_of<O: Outside, W: Within<O>>(
    s: &mut State,
    out: &mut O,
    inside: &W,
    e: &Typed,
) -> Result<Bounds, Stop>
    requires ready { W.is_ready inside.now }
    ensures did { Does bounds_seen result (state_seen s.new (O.told out.new))
        (parts.bounds (level (W.code inside.now) (W.depth inside.now)) (part e.now)
        (state_seen s.old (O.told out.old))) }
{
    as_bounds(value_of(s, out, inside, e))
}

/// Whether a condition holds, as it does where it is left out.
#[tactic(auto, unfolding(comet_meaning::specs::Parts::condition))]
pub fn condition<O: Outside, W: Within<O>>(
    s: &mut State,
    out: &mut O,
    inside: &W,
    test: Option<&Typed>,
) -> Result<bool, Stop>
    requires ready { W.is_ready inside.now }
    ensures did { Does (λ b. b) result (state_seen s.new (O.told out.new))
        (parts.condition (level (W.code inside.now) (W.depth inside.now))
        (optional (λ e. part e.now) test.entry) (state_seen s.old (O.told out.old))) }
{
    match test {
        None => Ok(true),
        Some(test) => truth_of(s, out, inside, test),
    }
}

/// The same of a condition that may be left out of a form.
#[tactic(auto, unfolding(comet_meaning::specs::Parts::condition))]
pub fn passes<O: Outside, W: Within<O>>(
    s: &mut State,
    out: &mut O,
    inside: &W,
    condition: &Option<Box<Typed>>,
) -> Result<bool, Stop>
    requires ready { W.is_ready inside.now }
    ensures did { Does (λ b. b) result (state_seen s.new (O.told out.new))
        (parts.condition (level (W.code inside.now) (W.depth inside.now))
        (part_or_none condition.now) (state_seen s.old (O.told out.old))) }
{
    match condition {
        None => Ok(true),
        Some(test) => truth_of(s, out, inside, test),
    }
}
