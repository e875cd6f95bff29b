//! What the parts of an expression stand for in a term.
ghost use Rattle.std.specs.Prelude.{◌≡◌, ℕ, List, [], ◌∷◌, ◌++◌};
ghost use Rattle.comet_meaning.specs.Parts as parts;
ghost use Rattle.comet_meaning.specs.Program.{level};
ghost use Rattle.run_steps.specs.OfRunState.Views.{state_seen};
ghost use Rattle.run_steps.specs.Does.{Does};
ghost use Rattle.run_steps.specs.Views.{row};

use checked_tree::Typed;
use form_parts::terms::single_term;
use run_steps::inside::Defining;
use run_steps::solvers_of_runs::Built;
use run_steps::state_of_runs::{Outside, State};
use run_values::Stop;

/// The terms of parts, from the left.
pub fn terms_of<O: Outside, W: Defining<O>>(
    s: &mut State,
    out: &mut O,
    inside: &W,
    es: &[Typed],
) -> Result<Vec<Built>, Stop>
    requires defines { W.can_define inside.now }
    ensures did { Does (λ terms. terms.items) result (state_seen s.new (O.told out.new))
        (parts.each_term (level (W.code inside.now) (W.depth inside.now)) (row es.now) []
        (state_seen s.old (O.told out.old))) }
{
    let mut terms = Vec::new(s.alloc);
    for e in es {
        let term = single_term(s, out, inside, e)?;
        terms.push(term)?;
    }
    Ok(terms)
}
