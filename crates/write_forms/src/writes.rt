//! Writes.
ghost use Rattle.std.specs.Prelude.{◌≡◌, ◌+ℤ◌, ◌-ℤ◌, ℕ, List};
ghost use Rattle.checked_tree.specs.Shape.{seen};
ghost use Rattle.checked_tree.specs.declared.kind.Kind.TheVariants as kinds;
ghost use Rattle.comet_meaning.specs.Levels as levels;
ghost use Rattle.comet_meaning.specs.Outcome.{then_do};
ghost use Rattle.comet_meaning.specs.Parts as parts;
ghost use Rattle.comet_meaning.specs.Program.{level};
ghost use Rattle.comet_meaning.specs.Values.{as_kind};
ghost use Rattle.comet_meaning.specs.Writes.{add_form, assign_form, define_form, step_form, swap_form, write, write_form};
ghost use Rattle.run_steps.specs.Does.{Does};
ghost use Rattle.run_steps.specs.OfRunState.Views.{state_seen};
ghost use Rattle.run_steps.specs.Views.{part};

use crate::targets::target_of;
use cbl_base::Place;
use checked_tree::{Kind, Slot, Typed};
use comet_syntax::tree::{Step, WriteOperator};
use event_forms::behind_commit;
use form_parts::terms::single_term;
use form_parts::values::{number_of, other_value_of, value_of};
use run_effects::effects::{
    add_part, assign_part, define_part, step_part, subtract_part, swap_part,
};
use run_steps::inside::{Around, Within};
use run_steps::plain::{number_itself, plain_slot};
use run_steps::state_of_runs::{Outside, State, Target};
use run_values::{Stop, Value};

/// `target = value` and its like, at a place.
#[tactic(auto, unfolding(comet_meaning::specs::Writes::write_form))]
pub fn write_value<O: Outside, W: Around<O>>(
    s: &mut State,
    out: &mut O,
    inside: &W,
    at: Place,
    operator: WriteOperator,
    target: &Typed,
    value: &Typed,
) -> Result<(), Stop>
    requires ready { W.is_ready inside.now }
    requires defines { W.can_define inside.now }
    requires locates { W.can_locate inside.now }
    ensures did { Does (λ _. tt) result (state_seen s.new (O.told out.new))
        (write_form (level (W.code inside.now) (W.depth inside.now)) at operator (seen target.now)
        (seen value.now) (state_seen s.old (O.told out.old))) }
{
    match operator {
        WriteOperator::Set => assign(s, out, inside, at, target, value),
        WriteOperator::Assign => assign(s, out, inside, at, target, value),
        WriteOperator::Add => add_value(s, out, inside, at, target, value),
        WriteOperator::Subtract => subtract_value(s, out, inside, at, target, value),
        WriteOperator::Define => define_value(s, out, inside, at, target, value),
    }
}

/// `target = value` and `target := value`
#[tactic(auto, unfolding(comet_meaning::specs::Writes::assign_form))]
fn assign<O: Outside, W: Around<O>>(
    s: &mut State,
    out: &mut O,
    inside: &W,
    at: Place,
    target: &Typed,
    value: &Typed,
) -> Result<(), Stop>
    requires ready { W.is_ready inside.now }
    requires locates { W.can_locate inside.now }
    ensures did { Does (λ _. tt) result (state_seen s.new (O.told out.new))
        (assign_form (level (W.code inside.now) (W.depth inside.now)) at (seen target.now)
        (seen value.now) (state_seen s.old (O.told out.old))) }
{
    match plain_slot(inside.room(), target) {
        Some(slot) => assign_name(s, out, inside, at, slot, value),
        None => assign_any(s, out, inside, at, target, value),
    }
}

/// The same, where the target is this name of a number.
fn assign_name<O: Outside, W: Within<O>>(
    s: &mut State,
    out: &mut O,
    inside: &W,
    at: Place,
    slot: Slot,
    value: &Typed,
) -> Result<(), Stop>
    requires ready { W.is_ready inside.now }
    ensures did { Does (λ _. tt) result (state_seen s.new (O.told out.new))
        (then_do (parts.value (level (W.code inside.now) (W.depth inside.now)) (part value.now)
        (state_seen s.old (O.told out.old))) (λ v.
        write at (levels.Name slot) (as_kind kinds.Int v))) }
{
    match number_itself(s, inside.room(), value) {
        Some(number) => s.put(slot, Value::Number(number)),
        None => assign_called(s, out, inside, at, slot, value),
    }
}

/// The same, where the value isn't plain.
fn assign_called<O: Outside, W: Within<O>>(
    s: &mut State,
    out: &mut O,
    inside: &W,
    at: Place,
    slot: Slot,
    value: &Typed,
) -> Result<(), Stop>
    requires ready { W.is_ready inside.now }
    ensures did { Does (λ _. tt) result (state_seen s.new (O.told out.new))
        (then_do (parts.value (level (W.code inside.now) (W.depth inside.now)) (part value.now)
        (state_seen s.old (O.told out.old))) (λ v.
        write at (levels.Name slot) (as_kind kinds.Int v))) }
{
    match inside.called_number(s, value) {
        Some(number) => s.put(slot, Value::Number(number)),
        None => {
            let value = other_value_of(s, out, inside, value);
            assign_part(s, out, at, Kind::Int, &Target::Name(slot), value)
        }
    }
}

/// The same, whatever the target is.
#[tactic(auto, unfolding(comet_meaning::specs::Writes::assign_form))]
fn assign_any<O: Outside, W: Around<O>>(
    s: &mut State,
    out: &mut O,
    inside: &W,
    at: Place,
    target: &Typed,
    value: &Typed,
) -> Result<(), Stop>
    requires ready { W.is_ready inside.now }
    requires locates { W.can_locate inside.now }
    ensures did { Does (λ _. tt) result (state_seen s.new (O.told out.new))
        (assign_form (level (W.code inside.now) (W.depth inside.now)) at (seen target.now)
        (seen value.now) (state_seen s.old (O.told out.old))) }
{
    let kind = target.kind;
    let target = target_of(s, out, inside, target)?;
    let value = value_of(s, out, inside, value);
    let done = assign_part(s, out, at, kind, &target, value);
    behind_commit(s, out, inside, at, &target, done)
}

/// `target += value`
#[tactic(auto, unfolding(comet_meaning::specs::Writes::add_form))]
fn add_value<O: Outside, W: Around<O>>(
    s: &mut State,
    out: &mut O,
    inside: &W,
    at: Place,
    target: &Typed,
    value: &Typed,
) -> Result<(), Stop>
    requires ready { W.is_ready inside.now }
    requires locates { W.can_locate inside.now }
    ensures did { Does (λ _. tt) result (state_seen s.new (O.told out.new))
        (add_form (level (W.code inside.now) (W.depth inside.now)) at ◌+ℤ◌ (seen target.now)
        (seen value.now) (state_seen s.old (O.told out.old))) }
{
    let target = target_of(s, out, inside, target)?;
    let old = s.old_value(&target)?;
    let number = number_of(s, out, inside, value);
    add_part(s, out, at, &target, &old, number)
}

/// `target -= value`
#[tactic(auto, unfolding(comet_meaning::specs::Writes::add_form))]
fn subtract_value<O: Outside, W: Around<O>>(
    s: &mut State,
    out: &mut O,
    inside: &W,
    at: Place,
    target: &Typed,
    value: &Typed,
) -> Result<(), Stop>
    requires ready { W.is_ready inside.now }
    requires locates { W.can_locate inside.now }
    ensures did { Does (λ _. tt) result (state_seen s.new (O.told out.new))
        (add_form (level (W.code inside.now) (W.depth inside.now)) at ◌-ℤ◌ (seen target.now)
        (seen value.now) (state_seen s.old (O.told out.old))) }
{
    let target = target_of(s, out, inside, target)?;
    let old = s.old_value(&target)?;
    let number = number_of(s, out, inside, value);
    subtract_part(s, out, at, &target, &old, number)
}

/// `target <- term`
#[tactic(auto, unfolding(comet_meaning::specs::Writes::define_form))]
fn define_value<O: Outside, W: Around<O>>(
    s: &mut State,
    out: &mut O,
    inside: &W,
    at: Place,
    target: &Typed,
    term: &Typed,
) -> Result<(), Stop>
    requires defines { W.can_define inside.now }
    requires locates { W.can_locate inside.now }
    ensures did { Does (λ _. tt) result (state_seen s.new (O.told out.new))
        (define_form (level (W.code inside.now) (W.depth inside.now)) at (seen target.now)
        (seen term.now) (state_seen s.old (O.told out.old))) }
{
    let target = target_of(s, out, inside, target)?;
    let term = single_term(s, out, inside, term);
    define_part(out, at, &target, term)
}

/// `left :=: right`
#[tactic(auto, unfolding(comet_meaning::specs::Writes::swap_form))]
pub fn swap_values<O: Outside, W: Around<O>>(
    s: &mut State,
    out: &mut O,
    inside: &W,
    at: Place,
    left: &Typed,
    right: &Typed,
) -> Result<(), Stop>
    requires ready { W.is_ready inside.now }
    requires locates { W.can_locate inside.now }
    ensures did { Does (λ _. tt) result (state_seen s.new (O.told out.new))
        (swap_form (level (W.code inside.now) (W.depth inside.now)) at (seen left.now)
        (seen right.now) (state_seen s.old (O.told out.old))) }
{
    let left = target_of(s, out, inside, left)?;
    let right = target_of(s, out, inside, right);
    let done = swap_part(s, out, at, &left, right);
    behind_commit(s, out, inside, at, &left, done)
}

/// `target++` and `target--`
#[tactic(auto, unfolding(comet_meaning::specs::Writes::step_form))]
pub fn step_target<O: Outside, W: Around<O>>(
    s: &mut State,
    out: &mut O,
    inside: &W,
    at: Place,
    step: Step,
    target: &Typed,
) -> Result<(), Stop>
    requires ready { W.is_ready inside.now }
    requires locates { W.can_locate inside.now }
    ensures did { Does (λ _. tt) result (state_seen s.new (O.told out.new))
        (step_form (level (W.code inside.now) (W.depth inside.now)) at step (seen target.now)
        (state_seen s.old (O.told out.old))) }
{
    let target = target_of(s, out, inside, target);
    step_part(s, out, at, step, target)
}
