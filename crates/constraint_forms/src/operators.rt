//! Relations, and constraints made of others by operators.
ghost use Rattle.std.specs.Prelude.{◌≡◌, ℕ, List, [], ◌∷◌};
ghost use Rattle.comet_meaning.specs.ConstraintForms as forms;
ghost use Rattle.comet_meaning.specs.Program.{level};
ghost use Rattle.constraint_forms.specs.Steps.{members_node};
ghost use Rattle.run_steps.specs.OfRunState.Views.{state_seen};
ghost use Rattle.run_steps.specs.Does.{Does};
ghost use Rattle.run_steps.specs.Views.{links_seen, part};

use crate::operator_nodes::{combine, negate, relate_with};
use cbl_base::Place;
use checked_tree::{Link, Typed};
use comet_syntax::tree::{ChainOperator, Comparison};
use form_parts::terms::{constraint_part, single_term};
use run_steps::inside::Defining;
use run_steps::solvers_of_runs::Built;
use run_steps::state_of_runs::{Outside, State};
use run_values::Stop;

/// `a == b` and its like.
#[tactic(auto, unfolding(comet_meaning::specs::ConstraintForms::relation_form))]
pub(crate) fn relation_term<O: Outside, W: Defining<O>>(
    s: &mut State,
    out: &mut O,
    inside: &W,
    at: Place,
    comparison: Comparison,
    left: &Typed,
    right: &Typed,
) -> Result<Built, Stop>
    requires defines { W.can_define inside.now }
    ensures did { Does (λ t. t) result (state_seen s.new (O.told out.new))
        (forms.relation_form (level (W.code inside.now) (W.depth inside.now)) at comparison
        (part left.now) (part right.now) (state_seen s.old (O.told out.old))) }
{
    let left = single_term(s, out, inside, left)?;
    let right = single_term(s, out, inside, right);
    relate_with(s.alloc, at, comparison, left, right)
}

/// `!c`
#[tactic(auto, unfolding(comet_meaning::specs::ConstraintForms::negation_form))]
pub(crate) fn negation_term<O: Outside, W: Defining<O>>(
    s: &mut State,
    out: &mut O,
    inside: &W,
    at: Place,
    operand: &Typed,
) -> Result<Built, Stop>
    requires ready { W.is_ready inside.now }
    requires defines { W.can_define inside.now }
    ensures did { Does (λ t. t) result (state_seen s.new (O.told out.new))
        (forms.negation_form (level (W.code inside.now) (W.depth inside.now)) at (part operand.now)
        (state_seen s.old (O.told out.old))) }
{
    let operand = constraint_part(s, out, inside, operand);
    negate(s.alloc, at, operand)
}

/// A chain of `&&` or of `||`.
#[tactic(auto, unfolding(comet_meaning::specs::ConstraintForms::combination_form))]
pub(crate) fn combination_term<O: Outside, W: Defining<O>>(
    s: &mut State,
    out: &mut O,
    inside: &W,
    first: &Typed,
    links: &[Link],
) -> Result<Built, Stop>
    requires ready { W.is_ready inside.now }
    requires defines { W.can_define inside.now }
    ensures did { Does (λ t. t) result (state_seen s.new (O.told out.new))
        (forms.combination_form (level (W.code inside.now) (W.depth inside.now)) (part first.now)
        (links_seen links.now) (state_seen s.old (O.told out.old))) }
{
    let term = constraint_part(s, out, inside, first)?;
    combined_term(s, out, inside, links, term)
}

/// The chain behind its first member, which has this term: one operation at its first operator.
fn combined_term<O: Outside, W: Defining<O>>(
    s: &mut State,
    out: &mut O,
    inside: &W,
    links: &[Link],
    first: Built,
) -> Result<Built, Stop>
    requires ready { W.is_ready inside.now }
    requires defines { W.can_define inside.now }
    ensures did { Does (λ t. t) result (state_seen s.new (O.told out.new))
        (forms.combined_form (level (W.code inside.now) (W.depth inside.now))
        (links_seen links.now) first (state_seen s.old (O.told out.old))) }
{
    match links.first() {
        None => Ok(first),
        Some(link) => members_term(s, out, inside, link.place, link.operator, links, first),
    }
}

/// One operation of all members, at a place.
fn members_term<O: Outside, W: Defining<O>>(
    s: &mut State,
    out: &mut O,
    inside: &W,
    at: Place,
    operator: ChainOperator,
    links: &[Link],
    first: Built,
) -> Result<Built, Stop>
    requires ready { W.is_ready inside.now }
    requires defines { W.can_define inside.now }
    ensures did { Does (λ t. t) result (state_seen s.new (O.told out.new))
        (members_node (level (W.code inside.now) (W.depth inside.now)) at operator
        (links_seen links.now) first (state_seen s.old (O.told out.old))) }
{
    let members = members_of(s, out, inside, links, first);
    combine(at, operator, members)
}

/// The terms of all members, the first of which is known.
fn members_of<O: Outside, W: Defining<O>>(
    s: &mut State,
    out: &mut O,
    inside: &W,
    links: &[Link],
    first: Built,
) -> Result<Vec<Built>, Stop>
    requires ready { W.is_ready inside.now }
    requires defines { W.can_define inside.now }
    ensures did { Does (λ terms. terms.items) result (state_seen s.new (O.told out.new))
        (forms.members_form (level (W.code inside.now) (W.depth inside.now)) (links_seen links.now)
        (first ∷ []) (state_seen s.old (O.told out.old))) }
{
    let mut terms = Vec::new(s.alloc);
    terms.push(first)?;
    for link in links {
        let term = constraint_part(s, out, inside, &link.operand)?;
        terms.push(term)?;
    }
    Ok(terms)
}
