//! What the parts of an expression stand for in a term, and in a constraint.
ghost use Rattle.std.specs.Prelude.{◌≡◌, ℕ, List};
ghost use Rattle.comet_meaning.specs.Parts as parts;
ghost use Rattle.comet_meaning.specs.Program.{level};
ghost use Rattle.run_steps.specs.OfRunState.InTerms.{term_cells_seen};
ghost use Rattle.run_steps.specs.OfRunState.Views.{state_seen};
ghost use Rattle.run_steps.specs.Does.{Does};
ghost use Rattle.run_steps.specs.Views.{part};

use crate::values::truth_of;
use checked_tree::Typed;
use run_steps::inside::Defining;
use run_steps::operands::{as_broken, as_several, as_single};
use run_steps::solvers_of_runs::Built;
use run_steps::state_of_runs::{Outside, State, TermCells};
use run_values::Stop;

/// What a part stands for, as one term.
#[tactic(auto, unfolding(comet_meaning::specs::Parts::term))]
pub fn single_term<O: Outside, W: Defining<O>>(
    s: &mut State,
    out: &mut O,
    inside: &W,
    e: &Typed,
) -> Result<Built, Stop>
    requires defines { W.can_define inside.now }
    ensures did { Does (λ t. t) result (state_seen s.new (O.told out.new))
        (parts.term (level (W.code inside.now) (W.depth inside.now)) (part e.now)
        (state_seen s.old (O.told out.old))) }
{
    as_single(inside.define(s, out, e))
}

/// What a part stands for, as an array of terms.
#[tactic(auto, unfolding(comet_meaning::specs::Parts::terms))]
pub fn term_cells<O: Outside, W: Defining<O>>(
    s: &mut State,
    out: &mut O,
    inside: &W,
    e: &Typed,
) -> Result<TermCells, Stop>
    requires defines { W.can_define inside.now }
    ensures did { Does term_cells_seen result (state_seen s.new (O.told out.new))
        (parts.terms (level (W.code inside.now) (W.depth inside.now)) (part e.now)
        (state_seen s.old (O.told out.old))) }
{
    let term = inside.define(s, out, e);
    as_several(s.alloc, term)
}

/// What a part of a constraint stands for: its term where it holds incremental variables, and else a number that says
/// whether it is violated.
pub fn constraint_part<O: Outside, W: Defining<O>>(
    s: &mut State,
    out: &mut O,
    inside: &W,
    e: &Typed,
) -> Result<Built, Stop>
    requires ready { W.is_ready inside.now }
    requires defines { W.can_define inside.now }
    ensures did { Does (λ t. t) result (state_seen s.new (O.told out.new))
        (parts.constraint (level (W.code inside.now) (W.depth inside.now)) (part e.now)
        (state_seen s.old (O.told out.old))) }
{
    if e.moving {
        single_term(s, out, inside, e)
    } else {
        as_broken(truth_of(s, out, inside, e))
    }
}
