//! What a constraint keeps beside its places: arrays and sets, as they are when the statement runs.
ghost use Rattle.std.specs.Prelude.{◌≡◌, ℕ, List};
ghost use Rattle.comet_meaning.specs.Cells.{cells};
ghost use Rattle.comet_meaning.specs.ConstraintForms as forms;
ghost use Rattle.comet_meaning.specs.Outcome.{give};
ghost use Rattle.comet_meaning.specs.Program.{level};
ghost use Rattle.comet_meaning.specs.State as states;
ghost use Rattle.comet_meaning.specs.Values.{members_of};
ghost use Rattle.run_steps.specs.OfRunOutside.Told.{Told};
ghost use Rattle.run_steps.specs.OfRunState.Views.{state_seen};
ghost use Rattle.run_steps.specs.Does.{Does};
ghost use Rattle.run_steps.specs.Following.{Follows};
ghost use Rattle.run_steps.specs.Views.{part};
ghost use Rattle.run_values.specs.Views.{cells_seen, value_seen};

use cbl_base::IntSet;
use checked_tree::Typed;
use form_parts::values::value_of;
use run_steps::inside::Within;
use run_steps::state_of_runs::{Outside, State};
use run_values::{Cells, Stop, Value};
use std::alloc::Global;

/// An array that is kept.
#[tactic(auto, unfolding(comet_meaning::specs::ConstraintForms::kept_cells))]
pub(crate) fn kept_cells<O: Outside, W: Within<O>>(
    s: &mut State,
    out: &mut O,
    inside: &W,
    e: &Typed,
) -> Result<Cells, Stop>
    requires ready { W.is_ready inside.now }
    ensures did { Does cells_seen result (state_seen s.new (O.told out.new))
        (forms.kept_cells (level (W.code inside.now) (W.depth inside.now)) (part e.now)
        (state_seen s.old (O.told out.old))) }
{
    let value = value_of(s, out, inside, e);
    as_cells(s, value)
}

/// A value as the cells of an array.
fn as_cells(s: &State, value: Result<Value, Stop>) -> Result<Cells, Stop>
    ensures did { (told : Told) → Follows value_seen cells_seen value result (state_seen s.now told)
        (state_seen s.now told) cells }
{
    match value {
        Err(stop) => Err(stop),
        Ok(value) => s.copied_cells(&value),
    }
}

/// A set that is kept.
#[tactic(auto, unfolding(comet_meaning::specs::ConstraintForms::kept_set))]
pub(crate) fn kept_set<O: Outside, W: Within<O>>(
    s: &mut State,
    out: &mut O,
    inside: &W,
    e: &Typed,
) -> Result<IntSet, Stop>
    requires ready { W.is_ready inside.now }
    ensures did { Does (λ set. set) result (state_seen s.new (O.told out.new))
        (forms.kept_set (level (W.code inside.now) (W.depth inside.now)) (part e.now)
        (state_seen s.old (O.told out.old))) }
{
    let value = value_of(s, out, inside, e);
    as_set(s.alloc, value)
}

/// A value as a set.
fn as_set(alloc: Global, value: Result<Value, Stop>) -> Result<IntSet, Stop>
    ensures did { (s : states.State) →
        Follows value_seen (λ set. set) value result s s (λ v. give (members_of v)) }
{
    match value {
        Err(stop) => Err(stop),
        Ok(value) => Ok(set_or_empty(alloc, value)),
    }
}

/// The set that a value is, and the empty set of what is none.
fn set_or_empty(alloc: Global, value: Value) -> IntSet
    ensures { result ≡ members_of (value_seen value) }
{
    match value {
        Value::Set(set) => set,
        _ => IntSet::new(alloc),
    }
}
