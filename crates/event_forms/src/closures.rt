//! Statements that run later.
ghost use Rattle.std.specs.Prelude.{◌≡◌, ℕ, List};
ghost use Rattle.comet_meaning.specs.Events as events;
ghost use Rattle.comet_meaning.specs.Program.{level};
ghost use Rattle.event_forms.specs.Bindings.{bound_by};
ghost use Rattle.run_steps.specs.OfRunSearch.Searches.{closure_seen};
ghost use Rattle.run_steps.specs.OfRunState.Views.{state_seen};
ghost use Rattle.run_steps.specs.Does.{Does};
ghost use Rattle.run_steps.specs.OfRunOutside.Told.{Told};
ghost use Rattle.run_values.specs.Did.{Did};

use checked_tree::EventSlots;
use run_steps::inside::Within;
use run_steps::state_of_runs::{Closure, Outside, State};
use run_values::{Stop, Value};
use std::mem;

/// The cells of the old and the new value of a variable, with these values.
#[derive(Clone, Copy)]
pub struct Binding {
    pub names: EventSlots,
    pub old: i64,
    pub new: i64,
}

/// A statement that runs later, in a frame of its own, which is that of its closure, with these names bound first.
pub fn run_closure<O: Outside, W: Within<O>>(
    s: &mut State,
    out: &mut O,
    inside: &W,
    closure: Closure,
    binding: Option<Binding>,
) -> Result<(), Stop>
    requires ready { W.is_ready inside.now }
    ensures did { Does (λ _. tt) result (state_seen s.new (O.told out.new))
        (events.run_closure (level (W.code inside.now) (W.depth inside.now)) (closure_seen closure)
        (bound_by binding) (state_seen s.old (O.told out.old))) }
{
    let frame = mem::replace(&mut s.frame, closure.frame);
    bind(s, binding)?;
    let _flow = inside.execute(s, out, &closure.body)?;
    s.frame = frame;
    Ok(())
}

/// The names get their values.
fn bind(s: &mut State, binding: Option<Binding>) -> Result<(), Stop>
    ensures did { (told : Told) → Did (λ _.
        tt) result (state_seen s.new told) (bound_by binding (state_seen s.old told)) }
    ensures fuel { s.new.fuel ≡ s.old.fuel }
{
    match binding {
        None => Ok(()),
        Some(binding) => {
            s.put(binding.names.old, Value::Number(binding.old))?;
            s.put(binding.names.new, Value::Number(binding.new))
        }
    }
}
