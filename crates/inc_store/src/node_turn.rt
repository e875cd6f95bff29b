//! One id takes the changes that wait for it.
ghost use Rattle.std.specs.Prelude.{◌≡◌, ◌≢◌, ℕ, ◌+◌, ◌-◌, ◌<◌, ◌≤◌, true, false, List, [], ◌∷◌, length, map, cond, nat_lt, slice_set, slice_index_or, slice_get, Some, vec_len, IfOk, OnOk, All};
ghost use Rattle.cbl_base.specs.declared.input.Change.{Change};
ghost use Rattle.cbl_base.specs.Changes.{AreChanges, after_changes};
ghost use Rattle.store_turns.specs.Meaning.{outcome_of, rule_value, inputs_in};
ghost use Rattle.store_turns.specs.Waits.{taken_of};
ghost use Rattle.store_turns.specs.Touch.{cost};
ghost use Rattle.store_turns.specs.declared.outcome.Outcome.TheVariants.{Value};
ghost use Rattle.store_build.specs.Frames.{cell_of};
ghost use Rattle.inc_store.specs.Course.{turn_outcome, helds_after};

use crate::cells::Cells;
use cbl_base::{Change, NoMemory, NodeRule, Steps};
use std::sync::ledger::Ledger;
use store_build::value_of;
use store_turns::{Frame, Outcome, Waiting};

/// What an id comes to in its turn, by what waited for it, which is taken. At most as many steps as there
/// are changes, and one more.
pub(crate) fn outcome_of<N: NodeRule, L: Ledger>(
    frame: &Frame,
    nodes: &mut Vec<N>,
    cells: &Cells,
    id: u32,
    waiting: &Waiting,
    steps: &mut Steps<L>,
) -> Result<Outcome, NoMemory>
    requires ready { All N.ready nodes.old.items }
    requires within { id < length frame.now.inputs.items }
    requires cells { length cells.now ≡ length frame.now.inputs.items }
    requires count { frame.now.first + vec_len nodes.old ≡ length frame.now.inputs.items }
    requires one { nat_lt id frame.now.first ≡ true →
        (i : ℕ) × (inputs_in frame.now id ≡ i ∷ []) × (i < length frame.now.inputs.items) }
    requires changes { nat_lt id frame.now.first ≡ false → (cs : List Change) →
        taken_of waiting.now ≡ Some cs → AreChanges
        (slice_index_or (map N.held nodes.old.items) (id - frame.now.first) []) cs }
    ensures ready { OnOk result (All N.ready nodes.new.items) }
    ensures rules { OnOk result (map N.rule nodes.new.items ≡ map N.rule nodes.old.items) }
    ensures held { OnOk result (map N.held nodes.new.items ≡
        helds_after frame.now id (taken_of waiting.now) (map N.held nodes.old.items)) }
    ensures outcome { IfOk result (λ o.
        o ≡ turn_outcome (map N.rule nodes.old.items)
        (map N.held nodes.old.items) frame.now cells.now id (taken_of waiting.now)) }
    ensures steps { steps.new + 3 ≤ steps.old + cost (Some (taken_of waiting.now)) }
{
    match waiting.taken() {
        None => Ok(Outcome::Missing),
        Some(changes) => {
            if id < frame.first {
                copied(frame, cells, id, steps)
            } else {
                apply_to(nodes, (id - frame.first) as usize, changes, steps)
            }
        }
    }
}

/// The value of a defined variable: that of the one node in its list. One step.
fn copied<L: Ledger>(
    frame: &Frame,
    cells: &Cells,
    id: u32,
    steps: &mut Steps<L>,
) -> Result<Outcome, NoMemory>
    requires within { id < length frame.now.inputs.items }
    requires one { (i : ℕ) × (inputs_in frame.now id ≡ i ∷ []) × (i < length cells.now) }
    ensures outcome { IfOk result (λ o.
        o ≡ Value (cell_of cells.now (slice_index_or (inputs_in frame.now id) 0 0))) }
    ensures steps { steps.new ≡ steps.old + 1 }
{
    let input = frame.inputs[id as usize][0];
    let value = cells.read(input.0, steps).clone()?;
    Ok(Outcome::Value(value))
}

/// What a node comes to after these changes of what it holds. A step for each change, and one more.
fn apply_to<N: NodeRule, L: Ledger>(
    nodes: &mut Vec<N>,
    at: usize,
    changes: &[Change],
    steps: &mut Steps<L>,
) -> Result<Outcome, NoMemory>
    requires within { at < vec_len nodes.old }
    requires ready { All N.ready nodes.old.items }
    requires changes { AreChanges (slice_index_or (map N.held nodes.old.items) at []) changes.now }
    ensures ready { OnOk result (All N.ready nodes.new.items) }
    ensures rules { OnOk result (map N.rule nodes.new.items ≡ map N.rule nodes.old.items) }
    ensures held { OnOk result (map N.held nodes.new.items ≡
        slice_set (map N.held nodes.old.items) at
        (after_changes (slice_index_or (map N.held nodes.old.items) at []) changes.now)) }
    ensures value { IfOk result (λ o. o ≡
        outcome_of (rule_value (slice_get (map N.rule nodes.old.items) at)
        (after_changes (slice_index_or (map N.held nodes.old.items) at []) changes.now))) }
    ensures steps { steps.new ≤ steps.old + (length changes.now + 1) }
{
    tick_each(changes, steps);
    nodes[at].apply(changes)?;
    steps.tick();
    let value = value_of(&nodes[at])?;
    Ok(value)
}

/// A step for each change.
fn tick_each<L: Ledger>(changes: &[Change], steps: &mut Steps<L>)
    ensures { steps.new ≡ steps.old + length changes.now }
{
    for _change in changes {
        steps.tick();
    }
}
