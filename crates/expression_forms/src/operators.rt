//! What operators give.
ghost use Rattle.std.specs.Prelude.{◌≡◌, ℕ, List, []};
ghost use Rattle.comet_meaning.specs.Operators as operators;
ghost use Rattle.comet_meaning.specs.Program.{level};
ghost use Rattle.run_steps.specs.Does.{Does};
ghost use Rattle.run_steps.specs.Views.{links_seen, part};
ghost use Rattle.run_steps.specs.OfRunState.Views.{state_seen};
ghost use Rattle.run_values.specs.Views.{value_seen};

use crate::expressions::value_as;
use cbl_base::Place;
use checked_tree::{Kind, Link, Typed};
use comet_syntax::tree::{Comparison, UnaryOperator};
use form_parts::values::{number_of, truth_of, value_of};
use run_steps::inside::Within;
use run_steps::operands::{apply_unary, join_operand};
use run_steps::state_of_runs::{Outside, State};
use run_values::operators::{compare, decides};
use run_values::{Bounds, Stop, Value};

/// `-e` and `!e`.
#[tactic(auto, unfolding(comet_meaning::specs::Operators::unary_form))]
pub fn evaluate_unary<O: Outside, W: Within<O>>(
    s: &mut State,
    out: &mut O,
    inside: &W,
    at: Place,
    operator: UnaryOperator,
    operand: &Typed,
) -> Result<Value, Stop>
    requires ready { W.is_ready inside.now }
    ensures did { Does value_seen result (state_seen s.new (O.told out.new))
        (operators.unary_form (level (W.code inside.now) (W.depth inside.now)) at operator
        (part operand.now) (state_seen s.old (O.told out.old))) }
{
    apply_unary(at, operator, value_of(s, out, inside, operand))
}

/// `a == b` and its like.
#[tactic(auto, unfolding(comet_meaning::specs::Operators::compare_form))]
pub fn evaluate_compare<O: Outside, W: Within<O>>(
    s: &mut State,
    out: &mut O,
    inside: &W,
    comparison: Comparison,
    left: &Typed,
    right: &Typed,
) -> Result<Value, Stop>
    requires ready { W.is_ready inside.now }
    ensures did { Does value_seen result (state_seen s.new (O.told out.new))
        (operators.compare_form (level (W.code inside.now) (W.depth inside.now)) comparison
        (part left.now) (part right.now) (state_seen s.old (O.told out.old))) }
{
    let left = number_of(s, out, inside, left)?;
    let right = number_of(s, out, inside, right)?;
    Ok(Value::Truth(compare(comparison, left, right)))
}

/// `a .. b`
#[tactic(auto, unfolding(comet_meaning::specs::Operators::range_form))]
pub fn evaluate_range<O: Outside, W: Within<O>>(
    s: &mut State,
    out: &mut O,
    inside: &W,
    low: &Typed,
    high: &Typed,
) -> Result<Value, Stop>
    requires ready { W.is_ready inside.now }
    ensures did { Does value_seen result (state_seen s.new (O.told out.new))
        (operators.range_form (level (W.code inside.now) (W.depth inside.now)) (part low.now)
        (part high.now) (state_seen s.old (O.told out.old))) }
{
    let low = number_of(s, out, inside, low)?;
    let up = number_of(s, out, inside, high)?;
    Ok(Value::Range(Bounds { low, up }))
}

/// `c ? a : b`, of which one part alone is evaluated.
#[tactic(auto, unfolding(comet_meaning::specs::Operators::conditional_form))]
pub fn evaluate_conditional<O: Outside, W: Within<O>>(
    s: &mut State,
    out: &mut O,
    inside: &W,
    kind: Kind,
    test: &Typed,
    then: &Typed,
    otherwise: &Typed,
) -> Result<Value, Stop>
    requires ready { W.is_ready inside.now }
    ensures did { Does value_seen result (state_seen s.new (O.told out.new))
        (operators.conditional_form (level (W.code inside.now) (W.depth inside.now)) kind
        (part test.now) (part «then».now) (part otherwise.now)
        (state_seen s.old (O.told out.old))) }
{
    if truth_of(s, out, inside, test)? {
        value_as(s, out, inside, kind, then)
    } else {
        value_as(s, out, inside, kind, otherwise)
    }
}

/// Operands joined by operators, from the left.
#[tactic(auto, unfolding(comet_meaning::specs::Operators::chain_form))]
pub fn evaluate_chain<O: Outside, W: Within<O>>(
    s: &mut State,
    out: &mut O,
    inside: &W,
    first: &Typed,
    links: &[Link],
) -> Result<Value, Stop>
    requires ready { W.is_ready inside.now }
    ensures did { Does value_seen result (state_seen s.new (O.told out.new))
        (operators.chain_form (level (W.code inside.now) (W.depth inside.now)) (part first.now)
        (links_seen links.now) (state_seen s.old (O.told out.old))) }
{
    let value = value_of(s, out, inside, first)?;
    evaluate_links(s, out, inside, links, value)
}

/// The value of a chain behind its first operand, which has this value.
fn evaluate_links<O: Outside, W: Within<O>>(
    s: &mut State,
    out: &mut O,
    inside: &W,
    links: &[Link],
    first: Value,
) -> Result<Value, Stop>
    requires ready { W.is_ready inside.now }
    ensures did { Does value_seen result (state_seen s.new (O.told out.new))
        (operators.links_form (level (W.code inside.now) (W.depth inside.now))
        (links_seen links.now) (value_seen first) (state_seen s.old (O.told out.old))) }
{
    let mut value = first;
    for link in links {
        value = evaluate_link(s, out, inside, link, value)?;
    }
    Ok(value)
}

/// The value of a chain so far with one more operand, which is evaluated only where it may decide.
#[tactic(auto, unfolding(comet_meaning::specs::Operators::link_form))]
fn evaluate_link<O: Outside, W: Within<O>>(
    s: &mut State,
    out: &mut O,
    inside: &W,
    link: &Link,
    value: Value,
) -> Result<Value, Stop>
    requires ready { W.is_ready inside.now }
    ensures did { Does value_seen result (state_seen s.new (O.told out.new))
        (operators.link_form (level (W.code inside.now)
        (W.depth inside.now)) link.now.place link.now.operator (part link.now.operand)
        (value_seen value) (state_seen s.old (O.told out.old))) }
{
    if decides(link.operator, &value) {
        return Ok(value);
    }
    let operand = value_of(s, out, inside, &link.operand);
    join_operand(link, &value, operand)
}
