//! What a commit has come to so far.
ghost use Rattle.std.specs.Prelude.{◌≡◌, ◌≢◌, ℕ, ◌+◌, ◌*◌, ◌<◌, ◌≤◌, cond, length, OnOk, All, Some, None};
ghost use Rattle.std.specs.BTreeMap.{get};
ghost use Rattle.std.specs.Ordering.{nat_cmp};
ghost use Rattle.cbl_base.specs.Inputs.{kind_of};
ghost use Rattle.cbl_base.specs.declared.input.Input.{Input};
ghost use Rattle.store_turns.specs.declared.outcome.Outcome.TheVariants.{Value};
ghost use Rattle.store_turns.specs.Meaning.{layer_of, uses_in};
ghost use Rattle.store_turns.specs.Waits.{waits};
ghost use Rattle.store_turns.specs.Touch.{differs};
ghost use Rattle.store_turns.specs.Telling.{IsTold};
ghost use Rattle.store_build.specs.Frames.{cell_of};
ghost use Rattle.inc_store.specs.Course.{with_outcome, KeepsLost, KeepsChange};

use crate::cells::Cells;
use crate::changed::NodeChange;
use cbl_base::{NoMemory, NodeId, NodeValue, RunFault, Steps};
use std::alloc::Global;
use std::collections::BTreeMap;
use std::sync::ledger::Ledger;
use store_turns::{Frame, Outcome, Waiting, copy_of, tell};

/// What a commit has come to so far.
#[derive(Drop)]
pub struct Course {
    pub(crate) waiting: Waiting,
    /// The ids without a value, each with its fault where that is its own.
    pub(crate) lost: BTreeMap<u32, Option<RunFault>>,
    /// The values that are others.
    pub(crate) changes: BTreeMap<u32, NodeChange>,
}

impl Course {
    /// Nothing was done yet.
    pub(crate) fn new(alloc: Global) -> Course
        ensures waiting { (l i : ℕ) → waits result.waiting l i ≡ None }
        ensures lost { (j : ℕ) → get nat_cmp result.lost j ≡ None }
        ensures changes { (j : ℕ) → get nat_cmp result.changes j ≡ None }
    {
        Course {
            waiting: Waiting::new(alloc),
            lost: BTreeMap::new(alloc),
            changes: BTreeMap::new(alloc),
        }
    }
}

/// An id has come to this outcome: its cell takes a value that is another, and those that use it are
/// told. Two steps, and two more a use where it is another.
pub(crate) fn settle<L: Ledger>(
    frame: &Frame,
    cells: &mut Cells,
    course: &mut Course,
    id: u32,
    outcome: Outcome,
    steps: &mut Steps<L>,
) -> Result<(), NoMemory>
    requires within { id < length cells.old }
    requires lists { id < length frame.now.uses.items }
    requires users { All (λ u. u.0.0 < length frame.now.layers.items) (uses_in frame.now id) }
    requires kinds { (x : Input) → outcome ≡ Value x → kind_of x ≡ kind_of (cell_of cells.old id) }
    requires unlost { get nat_cmp course.old.lost id ≡ None }
    ensures told { OnOk result (IsTold (layer_of frame.now) (uses_in frame.now id)
        (cell_of cells.old id) outcome (waits course.old.waiting) (waits course.new.waiting)) }
    ensures cells { OnOk result (cells.new ≡ with_outcome cells.old id outcome) }
    ensures lost { OnOk result (KeepsLost id outcome course.old.lost course.new.lost) }
    ensures change { OnOk result (KeepsChange id outcome (cell_of cells.old id)
        course.old.changes course.new.changes) }
    ensures steps { steps.new ≤ steps.old + 2 + 2 * cond (differs outcome (cell_of cells.old id))
        (length (uses_in frame.now id)) 0 }
{
    let uses = frame.uses[id as usize].as_slice();
    let other = tell(
        &mut course.waiting,
        &frame.layers,
        uses,
        &[],
        cells.read(id, steps),
        &outcome,
        steps,
    )?;
    keep(cells, course, id, outcome, other, steps)?;
    Ok(())
}

/// Keeps the outcome of an id, of which is told whether it is another than its value.
fn keep<L: Ledger>(
    cells: &mut Cells,
    course: &mut Course,
    id: u32,
    outcome: Outcome,
    other: bool,
    steps: &mut Steps<L>,
) -> Result<(), NoMemory>
    requires within { id < length cells.old }
    requires told { other ≡ differs outcome (cell_of cells.old id) }
    requires unlost { get nat_cmp course.old.lost id ≡ None }
    ensures waiting { OnOk result (course.new.waiting ≡ course.old.waiting) }
    ensures cells { OnOk result (cells.new ≡ with_outcome cells.old id outcome) }
    ensures lost { OnOk result (KeepsLost id outcome course.old.lost course.new.lost) }
    ensures change { OnOk result (KeepsChange id outcome (cell_of cells.old id)
        course.old.changes course.new.changes) }
    ensures steps { steps.new ≤ steps.old + 1 }
{
    match outcome {
        Outcome::Value(value) => keep_value(cells, course, id, value, other, steps),
        Outcome::Fails(fault) => {
            course.lost.insert(id, Some(fault))?;
            Ok(())
        }
        Outcome::Missing => {
            course.lost.insert(id, None)?;
            Ok(())
        }
    }
}

/// Keeps the value of an id, of which is told whether it is another than it has.
fn keep_value<L: Ledger>(
    cells: &mut Cells,
    course: &mut Course,
    id: u32,
    value: NodeValue,
    other: bool,
    steps: &mut Steps<L>,
) -> Result<(), NoMemory>
    requires within { id < length cells.old }
    requires told { other ≡ differs (Value value) (cell_of cells.old id) }
    ensures waiting { OnOk result (course.new.waiting ≡ course.old.waiting) }
    ensures lost { OnOk result (course.new.lost ≡ course.old.lost) }
    ensures cells { OnOk result (cells.new ≡ with_outcome cells.old id (Value value)) }
    ensures change { OnOk result (KeepsChange id (Value value) (cell_of cells.old id)
        course.old.changes course.new.changes) }
    ensures steps { steps.new ≤ steps.old + 1 }
{
    if other {
        let new = copy_of(&value)?;
        let old = cells.write(id, value, steps);
        let node = NodeId(id);
        course.changes.insert(id, NodeChange { node, old, new })?;
    }
    Ok(())
}
