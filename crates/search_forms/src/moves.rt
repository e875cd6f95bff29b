//! `neighbor` and `call`.
ghost use Rattle.std.specs.Prelude.{◌≡◌, ℕ, List};
ghost use Rattle.checked_tree.specs.Shape.{seen};
ghost use Rattle.checked_tree.specs.Tasks.{work_of};
ghost use Rattle.comet_meaning.specs.Moves as moves;
ghost use Rattle.comet_meaning.specs.Program.{level};
ghost use Rattle.run_steps.specs.OfRunState.Views.{state_seen};
ghost use Rattle.run_steps.specs.Does.{Does};
ghost use Rattle.run_steps.specs.Views.{flow_seen};
ghost use Rattle.run_values.specs.Views.{value_seen};

use checked_tree::{Later, Slot, Typed};
use event_forms::run_closure;
use form_parts::values::{number_of, value_of};
use run_steps::code::Flow;
use run_steps::inside::Within;
use run_steps::state_of_runs::{Outside, State};
use run_values::{Stop, Value};

/// A `neighbor`: its delta, and then the selector that a name has keeps the statement, where it keeps none yet or the delta
/// is less.
#[tactic(auto, unfolding(comet_meaning::specs::Moves::neighbor_form))]
pub fn execute_neighbor<O: Outside, W: Within<O>>(
    s: &mut State,
    out: &mut O,
    inside: &W,
    delta: &Typed,
    selector: Slot,
    body: &Later,
) -> Result<Flow, Stop>
    requires ready { W.is_ready inside.now }
    ensures did { Does flow_seen result (state_seen s.new (O.told out.new))
        (moves.neighbor_form (level (W.code inside.now) (W.depth inside.now))
        (seen delta.now) selector (work_of body.now.value.value)
        (state_seen s.old (O.told out.old))) }
{
    let delta = number_of(s, out, inside, delta)?;
    let selector = s.look(selector)?;
    s.submit(delta, &selector, body)?;
    Ok(Flow::Next)
}

/// A `call`: the statement that the move is, if there is one.
#[tactic(auto, unfolding(comet_meaning::specs::Moves::choose_form))]
pub fn call_move<O: Outside, W: Within<O>>(
    s: &mut State,
    out: &mut O,
    inside: &W,
    e: &Typed,
) -> Result<(), Stop>
    requires ready { W.is_ready inside.now }
    ensures did { Does (λ _. tt) result (state_seen s.new (O.told out.new))
        (moves.choose_form (level (W.code inside.now) (W.depth inside.now)) (seen e.now)
        (state_seen s.old (O.told out.old))) }
{
    let chosen = value_of(s, out, inside, e)?;
    run_move(s, out, inside, &chosen)
}

/// The statement that the move is, if there is one.
fn run_move<O: Outside, W: Within<O>>(
    s: &mut State,
    out: &mut O,
    inside: &W,
    chosen: &Value,
) -> Result<(), Stop>
    requires ready { W.is_ready inside.now }
    ensures did { Does (λ _. tt) result (state_seen s.new (O.told out.new))
        (moves.called_move (level (W.code inside.now) (W.depth inside.now)) (value_seen chosen.now)
        (state_seen s.old (O.told out.old))) }
{
    match chosen {
        Value::Move(number) => run_kept(s, out, inside, *number),
        _ => Ok(()),
    }
}

/// The statement that the selector with a number keeps, if it keeps one.
fn run_kept<O: Outside, W: Within<O>>(
    s: &mut State,
    out: &mut O,
    inside: &W,
    number: usize,
) -> Result<(), Stop>
    requires ready { W.is_ready inside.now }
    ensures did { Does (λ _. tt) result (state_seen s.new (O.told out.new))
        (moves.run_move (level (W.code inside.now) (W.depth inside.now))
        (moves.kept_in (state_seen s.old (O.told out.old)) number)
        (state_seen s.old (O.told out.old))) }
{
    let kept = s.kept_closure(number)?;
    match kept {
        None => Ok(()),
        Some(closure) => run_closure(s, out, inside, closure, None),
    }
}
