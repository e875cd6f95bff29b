//! Aggregates of constraints: their generators run when the statement does, and the bodies are the members.
ghost use Rattle.std.specs.Prelude.{◌≡◌, ℕ, List};
ghost use Rattle.comet_meaning.specs.ConstraintForms as forms;
ghost use Rattle.comet_meaning.specs.Program.{level};
ghost use Rattle.run_steps.specs.OfRunState.Views.{state_seen};
ghost use Rattle.run_steps.specs.Does.{Does};
ghost use Rattle.run_steps.specs.Views.{generators_seen, part, part_or_none};

use crate::operator_nodes::join;
use cbl_base::Place;
use checked_tree::{Generator, Typed};
use comet_syntax::tree::Aggregate;
use form_parts::aggregates::bodies_of;
use run_steps::inside::Defining;
use run_steps::solvers_of_runs::Built;
use run_steps::state_of_runs::{Outside, State};
use run_values::Stop;

/// `and(..) c` and `or(..) c`. The names of the generators end with it.
pub(crate) fn joining_term<O: Outside, W: Defining<O>>(
    s: &mut State,
    out: &mut O,
    inside: &W,
    at: Place,
    aggregate: Aggregate,
    generators: &[Generator],
    condition: &Option<Box<Typed>>,
    body: &Typed,
) -> Result<Built, Stop>
    requires ready { W.is_ready inside.now }
    requires defines { W.can_define inside.now }
    ensures did { Does (λ t. t) result (state_seen s.new (O.told out.new))
        (forms.joining_form (level (W.code inside.now) (W.depth inside.now)) at aggregate
        (generators_seen generators.now) (part_or_none condition.now) (part body.now)
        (state_seen s.old (O.told out.old))) }
{
    let frame = s.copied_frame()?;
    let bodies = bodies_of(s, out, inside, at, aggregate, generators, condition, body)?;
    s.frame = frame;
    join(s.alloc, at, aggregate, bodies)
}
