//! Aggregates in terms: their generators run when the statement does, and the bodies are the operands.
ghost use Rattle.std.specs.Prelude.{◌≡◌, ℕ, List, [], map};
ghost use Rattle.comet_meaning.specs.Program.{level};
ghost use Rattle.comet_meaning.specs.TermForms as forms;
ghost use Rattle.run_steps.specs.OfRunState.InTerms.{in_term_seen};
ghost use Rattle.run_steps.specs.OfRunState.Views.{state_seen};
ghost use Rattle.run_steps.specs.Does.{Does};
ghost use Rattle.run_steps.specs.Views.{generators_seen, part, part_or_none};

use crate::bodies::aggregated;
use cbl_base::Place;
use checked_tree::{Generator, Typed};
use comet_syntax::tree::Aggregate;
use form_parts::aggregates::bodies_of;
use run_steps::inside::Defining;
use run_steps::state_of_runs::{InTerm, Outside, State};
use run_values::Stop;

/// What an aggregate stands for in a term. The names of its generators end with it.
pub fn aggregate_term<O: Outside, W: Defining<O>>(
    s: &mut State,
    out: &mut O,
    inside: &W,
    at: Place,
    aggregate: Aggregate,
    generators: &[Generator],
    condition: &Option<Box<Typed>>,
    body: &Typed,
) -> Result<InTerm, Stop>
    requires ready { W.is_ready inside.now }
    requires defines { W.can_define inside.now }
    ensures did { Does in_term_seen result (state_seen s.new (O.told out.new))
        (forms.aggregate_term (level (W.code inside.now) (W.depth inside.now)) at aggregate
        (generators_seen generators.now) (part_or_none condition.now) (part body.now)
        (state_seen s.old (O.told out.old))) }
{
    let frame = s.copied_frame()?;
    let bodies = bodies_of(s, out, inside, at, aggregate, generators, condition, body)?;
    s.frame = frame;
    aggregated(s.alloc, at, aggregate, bodies)
}
