//! What expressions without incremental variables stand for in terms.
ghost use Rattle.std.specs.Prelude.{◌≡◌, ℕ, List, pos};
ghost use Rattle.checked_tree.specs.Shape.{shape_of};
ghost use Rattle.comet_meaning.specs.Program.{level};
ghost use Rattle.run_steps.specs.OfRunState.InTerms.{in_term_seen};
ghost use Rattle.run_steps.specs.OfRunState.Views.{state_seen};
ghost use Rattle.run_steps.specs.Does.{Does};
ghost use Rattle.run_steps.specs.Parts.{constant_form};
ghost use Rattle.run_steps.specs.Views.{code_seen};

use crate::expressions::evaluate_form;
use cbl_base::Place;
use checked_tree::{Form, Kind};
use run_steps::code::Code;
use run_steps::inside::Defining;
use run_steps::operands::as_standing;
use run_steps::state_of_runs::{InTerm, Outside, State};
use run_values::Stop;

/// What an expression without incremental variables stands for: its value now.
pub fn constant_term<O: Outside, W: Defining<O>>(
    s: &mut State,
    out: &mut O,
    inside: &W,
    code: &Code<'_>,
    at: Place,
    kind: Kind,
    form: &Form,
) -> Result<InTerm, Stop>
    requires ready { W.is_ready inside.now }
    requires defines { W.can_define inside.now }
    requires same_code { W.code inside.now ≡ code_seen code.now }
    ensures did { Does in_term_seen result (state_seen s.new (O.told out.new))
        (constant_form (W.code inside.now) (level (W.code inside.now) (W.depth inside.now)) at kind
        (shape_of form.now) (state_seen s.old (O.told out.old))) }
{
    let value = evaluate_form(s, out, inside, code, at, kind, form);
    as_standing(s, value)
}
