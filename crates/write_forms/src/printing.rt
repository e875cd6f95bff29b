//! Printing.
ghost use Rattle.std.specs.Prelude.{◌≡◌, ℕ, List, map};
ghost use Rattle.checked_tree.specs.Actions.{printed_of};
ghost use Rattle.comet_meaning.specs.Printing.{print_form, shown_form};
ghost use Rattle.comet_meaning.specs.Program.{level};
ghost use Rattle.run_steps.specs.Does.{Does};
ghost use Rattle.run_steps.specs.OfRunState.Views.{state_seen};

use checked_tree::Printed;
use form_parts::values::value_of;
use run_effects::effects::show_part;
use run_steps::inside::Within;
use run_steps::state_of_runs::{Outside, State, print};
use run_values::Stop;

/// Evaluates and prints items, each before the next one.
pub fn print_all<O: Outside, W: Within<O>>(
    s: &mut State,
    out: &mut O,
    inside: &W,
    items: &[Printed],
) -> Result<(), Stop>
    requires ready { W.is_ready inside.now }
    ensures did { Does (λ _. tt) result (state_seen s.new (O.told out.new))
        (print_form (level (W.code inside.now) (W.depth inside.now)) (map printed_of items.now)
        (state_seen s.old (O.told out.old))) }
{
    for item in items {
        show(s, out, inside, item)?;
    }
    Ok(())
}

#[tactic(auto, unfolding(comet_meaning::specs::Printing::shown_form))]
fn show<O: Outside, W: Within<O>>(
    s: &mut State,
    out: &mut O,
    inside: &W,
    item: &Printed,
) -> Result<(), Stop>
    requires ready { W.is_ready inside.now }
    ensures did { Does (λ _. tt) result (state_seen s.new (O.told out.new))
        (shown_form (level (W.code inside.now) (W.depth inside.now)) (printed_of item.now)
        (state_seen s.old (O.told out.old))) }
{
    match item {
        Printed::Value(e) => {
            let value = value_of(s, out, inside, e);
            show_part(s, out, e.place, value)
        }
        Printed::Text(text) => print(out, text.as_slice()),
        Printed::EndLine => print(out, b"\n"),
    }
}
