//! What an id comes to in its turn of a trial.
ghost use Rattle.std.specs.Prelude.{◌≡◌, ℕ, ◌+◌, ◌-◌, ◌<◌, ◌≤◌, true, false, List, [], ◌∷◌, length, map, nat_lt, slice_index_or, slice_get, Some, IfOk, option_copied};
ghost use Rattle.std.specs.BTreeMap.{get};
ghost use Rattle.std.specs.Ordering.{nat_cmp};
ghost use Rattle.cbl_base.specs.declared.input.Change.{Change};
ghost use Rattle.cbl_base.specs.Changes.{AreChanges, after_changes};
ghost use Rattle.store_turns.specs.Meaning.{outcome_of, rule_value, inputs_in};
ghost use Rattle.store_turns.specs.Waits.{taken_of};
ghost use Rattle.store_turns.specs.Touch.{cost};
ghost use Rattle.store_turns.specs.declared.outcome.Outcome.TheVariants.{Value};
ghost use Rattle.inc_store.specs.Course.{lost_by};
ghost use Rattle.inc_store.specs.Views.{IsUsable, value_at, count_of, first_of, inputs_at, rules_in};
ghost use Rattle.trial.specs.Overlays.{asked, new_or, root_by, root_steps};

use crate::overlay::Overlay;
use cbl_base::{Change, NoMemory, NodeFault, NodeId, NodeRule, NodeValue, RunFault, Steps};
use inc_store::{NodeChange, Store};
use std::sync::ledger::Ledger;
use store_turns::{Frame, Outcome, copy_of};

/// What an id comes to in its turn, by what waited for it, which is taken. At most as many steps as there are
/// changes, and one more, with that of `root_of`.
pub(crate) fn came_to<N: NodeRule, L: Ledger>(
    store: &Store<N>,
    frame: &Frame,
    overlay: &Overlay,
    id: u32,
    old: &NodeValue,
    steps: &mut Steps<L>,
) -> Result<Outcome, NoMemory>
    requires usable { IsUsable N.rule N.held N.ready store.now }
    requires frame { frame.now ≡ store.now.frame }
    requires within { id < count_of store.now }
    requires old { old.now ≡ value_at store.now id }
    requires one { nat_lt id (first_of store.now) ≡ true →
        (i : ℕ) × (inputs_at store.now id ≡ i ∷ []) }
    requires changes { nat_lt id (first_of store.now) ≡ false → (cs : List Change) →
        taken_of overlay.now.waiting ≡ Some cs →
        AreChanges (map (value_at store.now) (inputs_at store.now id)) cs }
    ensures outcome { IfOk result (λ r.
        r ≡ asked (rules_in N.rule store.now) store.now.frame store.now.cells overlay.now id
        (taken_of overlay.now.waiting)) }
    ensures spare { IfOk result (λ r. steps.new + root_steps r + 3 ≤
        steps.old + cost (Some (taken_of overlay.now.waiting))) }
    ensures steps { steps.new + 3 ≤ steps.old + cost (Some (taken_of overlay.now.waiting)) }
{
    match overlay.waiting.taken() {
        None => Ok(Outcome::Missing),
        Some(changes) => {
            if id < frame.first {
                copied(frame, overlay, id, old, steps)
            } else {
                probed(store, id, changes, steps)
            }
        }
    }
}

/// The failing node on which an id stands that has come to this outcome. One step where an input has no value.
pub(crate) fn root_of<L: Ledger>(
    overlay: &Overlay,
    id: u32,
    outcome: &Outcome,
    steps: &mut Steps<L>,
) -> Option<(u32, RunFault)>
    ensures root { result ≡
        root_by id (lost_by outcome.now) (get nat_cmp overlay.now.roots id) }
    ensures steps { steps.new ≡ steps.old + root_steps outcome.now }
{
    match outcome {
        Outcome::Value(_) => None,
        Outcome::Fails(fault) => Some((id, *fault)),
        Outcome::Missing => overlay.root(id, steps),
    }
}

/// What a defined variable comes to: the value of the one node in its list. One step.
fn copied<L: Ledger>(
    frame: &Frame,
    overlay: &Overlay,
    id: u32,
    old: &NodeValue,
    steps: &mut Steps<L>,
) -> Result<Outcome, NoMemory>
    requires within { id < length frame.now.inputs.items }
    requires one { (i : ℕ) × (inputs_in frame.now id ≡ i ∷ []) }
    ensures outcome { IfOk result (λ r.
        r ≡ Value (new_or (get nat_cmp overlay.now.changes
        (slice_index_or (inputs_in frame.now id) 0 0)) old.now)) }
    ensures steps { steps.new ≡ steps.old + 1 }
{
    let input = frame.inputs[id as usize][0];
    let value = copy_of(newest(overlay.changed(input.0, steps), old))?;
    Ok(Outcome::Value(value))
}

/// The new value, where there is one.
pub(crate) fn newest<'a>(change: Option<&'a NodeChange>, old: &'a NodeValue) -> &'a NodeValue
    ensures { result.now ≡ new_or (option_copied change.entry) old.now }
{
    match change {
        Some(change) => &change.new,
        None => old,
    }
}

/// What a node answers to these changes of what it holds. A step for each change, and one more.
fn probed<N: NodeRule, L: Ledger>(
    store: &Store<N>,
    id: u32,
    changes: &[Change],
    steps: &mut Steps<L>,
) -> Result<Outcome, NoMemory>
    requires usable { IsUsable N.rule N.held N.ready store.now }
    requires within { id < count_of store.now }
    requires past { first_of store.now ≤ id }
    requires changes { AreChanges (map (value_at store.now) (inputs_at store.now id)) changes.now }
    ensures outcome { IfOk result (λ r.
        r ≡ outcome_of (rule_value (slice_get (rules_in N.rule store.now)
        (id - first_of store.now)) (after_changes
        (map (value_at store.now) (inputs_at store.now id)) changes.now))) }
    ensures steps { steps.new ≡ steps.old + (length changes.now + 1) }
{
    tick_each(changes, steps);
    steps.tick();
    match store.node(NodeId(id)).probe(changes) {
        Ok(value) => Ok(Outcome::Value(value)),
        Err(NodeFault::Run(fault)) => Ok(Outcome::Fails(fault)),
        Err(NodeFault::NoMemory) => Err(NoMemory),
    }
}

/// A step for each change.
fn tick_each<L: Ledger>(changes: &[Change], steps: &mut Steps<L>)
    ensures { steps.new ≡ steps.old + length changes.now }
{
    for _change in changes {
        steps.tick();
    }
}
