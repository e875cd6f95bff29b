//! Operators in terms.
ghost use Rattle.std.specs.Prelude.{◌≡◌, ℕ, List, [], ◌∷◌};
ghost use Rattle.comet_meaning.specs.Program.{level};
ghost use Rattle.comet_meaning.specs.TermForms as forms;
ghost use Rattle.run_steps.specs.OfRunState.Views.{state_seen};
ghost use Rattle.run_steps.specs.Does.{Does};
ghost use Rattle.run_steps.specs.Views.{links_seen, part};

use cbl_base::Place;
use checked_tree::{Link, Typed};
use comet_syntax::tree::{ChainOperator, Comparison, UnaryOperator};
use form_parts::terms::single_term;
use run_steps::inside::Defining;
use run_steps::solvers_of_runs::Built;
use run_steps::state_of_runs::{Outside, State};
use run_values::Stop;
use term_nodes::nodes::{compare_with, join_all, join_with, unary_of};

/// `-e` and `!e`
#[tactic(auto, unfolding(comet_meaning::specs::TermForms::unary_term))]
pub fn unary_term<O: Outside, W: Defining<O>>(
    s: &mut State,
    out: &mut O,
    inside: &W,
    at: Place,
    operator: UnaryOperator,
    operand: &Typed,
) -> Result<Built, Stop>
    requires defines { W.can_define inside.now }
    ensures did { Does (λ t. t) result (state_seen s.new (O.told out.new))
        (forms.unary_term (level (W.code inside.now) (W.depth inside.now)) at operator
        (part operand.now) (state_seen s.old (O.told out.old))) }
{
    let operand = single_term(s, out, inside, operand);
    unary_of(s.alloc, at, operator, operand)
}

/// `a == b` and its like.
#[tactic(auto, unfolding(comet_meaning::specs::TermForms::compare_term))]
pub fn compare_term<O: Outside, W: Defining<O>>(
    s: &mut State,
    out: &mut O,
    inside: &W,
    at: Place,
    comparison: Comparison,
    left: &Typed,
    right: &Typed,
) -> Result<Built, Stop>
    requires defines { W.can_define inside.now }
    ensures did { Does (λ t. t) result (state_seen s.new (O.told out.new))
        (forms.compare_term (level (W.code inside.now) (W.depth inside.now)) at comparison
        (part left.now) (part right.now) (state_seen s.old (O.told out.old))) }
{
    let left = single_term(s, out, inside, left)?;
    let right = single_term(s, out, inside, right);
    compare_with(s.alloc, at, comparison, left, right)
}

/// Operands joined by operators.
#[tactic(auto, unfolding(comet_meaning::specs::TermForms::chain_term))]
pub fn chain_term<O: Outside, W: Defining<O>>(
    s: &mut State,
    out: &mut O,
    inside: &W,
    first: &Typed,
    links: &[Link],
) -> Result<Built, Stop>
    requires defines { W.can_define inside.now }
    ensures did { Does (λ t. t) result (state_seen s.new (O.told out.new))
        (forms.chain_term (level (W.code inside.now) (W.depth inside.now)) (part first.now)
        (links_seen links.now) (state_seen s.old (O.told out.old))) }
{
    let term = single_term(s, out, inside, first)?;
    links_term(s, out, inside, links, term)
}

/// A chain behind its first operand, which has this term: one operation where its operators are `&&` or `||`, and else an
/// operation for each.
fn links_term<O: Outside, W: Defining<O>>(
    s: &mut State,
    out: &mut O,
    inside: &W,
    links: &[Link],
    first: Built,
) -> Result<Built, Stop>
    requires defines { W.can_define inside.now }
    ensures did { Does (λ t. t) result (state_seen s.new (O.told out.new))
        (forms.links_term (level (W.code inside.now) (W.depth inside.now))
        (links_seen links.now) first (state_seen s.old (O.told out.old))) }
{
    match links.first() {
        None => joined_term(s, out, inside, links, first),
        Some(link) => match link.operator {
            ChainOperator::Or => {
                junction_term(s, out, inside, link.place, ChainOperator::Or, links, first)
            }
            ChainOperator::And => {
                junction_term(s, out, inside, link.place, ChainOperator::And, links, first)
            }
            _ => joined_term(s, out, inside, links, first),
        },
    }
}

/// The operands behind the first, each joined to what stands before it.
fn joined_term<O: Outside, W: Defining<O>>(
    s: &mut State,
    out: &mut O,
    inside: &W,
    links: &[Link],
    first: Built,
) -> Result<Built, Stop>
    requires defines { W.can_define inside.now }
    ensures did { Does (λ t. t) result (state_seen s.new (O.told out.new))
        (forms.joined_form (level (W.code inside.now) (W.depth inside.now))
        (links_seen links.now) first (state_seen s.old (O.told out.old))) }
{
    let mut term = first;
    for link in links {
        term = linked_term(s, out, inside, link, term)?;
    }
    Ok(term)
}

/// One more operand.
#[tactic(auto, unfolding(comet_meaning::specs::TermForms::linked_term))]
fn linked_term<O: Outside, W: Defining<O>>(
    s: &mut State,
    out: &mut O,
    inside: &W,
    link: &Link,
    so_far: Built,
) -> Result<Built, Stop>
    requires defines { W.can_define inside.now }
    ensures did { Does (λ t. t) result (state_seen s.new (O.told out.new))
        (forms.linked_term (level (W.code inside.now)
        (W.depth inside.now)) link.now.place link.now.operator (part link.now.operand) so_far
        (state_seen s.old (O.told out.old))) }
{
    let operand = single_term(s, out, inside, &link.operand);
    join_with(s.alloc, link.place, link.operator, so_far, operand)
}

/// One operation of all operands, at a place.
#[tactic(auto, unfolding(comet_meaning::specs::TermForms::junction_form))]
fn junction_term<O: Outside, W: Defining<O>>(
    s: &mut State,
    out: &mut O,
    inside: &W,
    at: Place,
    operator: ChainOperator,
    links: &[Link],
    first: Built,
) -> Result<Built, Stop>
    requires defines { W.can_define inside.now }
    ensures did { Does (λ t. t) result (state_seen s.new (O.told out.new))
        (forms.junction_form (level (W.code inside.now) (W.depth inside.now)) at operator
        (links_seen links.now) first (state_seen s.old (O.told out.old))) }
{
    let operands = operands_of(s, out, inside, links, first);
    join_all(at, operator, operands)
}

/// The terms of all operands, the first of which is known.
fn operands_of<O: Outside, W: Defining<O>>(
    s: &mut State,
    out: &mut O,
    inside: &W,
    links: &[Link],
    first: Built,
) -> Result<Vec<Built>, Stop>
    requires defines { W.can_define inside.now }
    ensures did { Does (λ terms. terms.items) result (state_seen s.new (O.told out.new))
        (forms.operands_form (level (W.code inside.now) (W.depth inside.now)) (links_seen links.now)
        (first ∷ []) (state_seen s.old (O.told out.old))) }
{
    let mut terms = Vec::new(s.alloc);
    terms.push(first)?;
    for link in links {
        let term = single_term(s, out, inside, &link.operand)?;
        terms.push(term)?;
    }
    Ok(terms)
}
