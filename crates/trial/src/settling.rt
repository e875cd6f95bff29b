//! An id comes to another outcome in a trial, and those that use it are told.
ghost use Rattle.std.specs.Prelude.{◌≡◌, ◌≢◌, ℕ, ◌+◌, ◌*◌, ◌<◌, ◌≤◌, true, false, cond, length, IfOk, OnOk, All, Some, None, slice_index_or};
ghost use Rattle.std.specs.BTreeMap.{get};
ghost use Rattle.std.specs.Ordering.{nat_cmp};
ghost use Rattle.cbl_base.specs.Inputs.{kind_of};
ghost use Rattle.cbl_base.specs.declared.input.Input.{Input};
ghost use Rattle.store_turns.specs.declared.outcome.Outcome.TheVariants.{Value};
ghost use Rattle.store_turns.specs.Meaning.{layer_of, uses_in};
ghost use Rattle.store_turns.specs.Waits.{waits};
ghost use Rattle.store_turns.specs.Touch.{differs};
ghost use Rattle.store_turns.specs.Cones.{has};
ghost use Rattle.store_turns.specs.Telling.{IsTold, AreBlocked, users_among};
ghost use Rattle.inc_store.specs.Course.{KeepsLost, KeepsChange};
ghost use Rattle.trial.specs.Overlays.{AreNoted};

use crate::overlay::Overlay;
use cbl_base::{NoMemory, NodeId, NodeValue, RunFault, Steps};
use std::sync::ledger::Ledger;
use store_turns::{Frame, Outcome, Turn, copy_of, has, tell};

/// An id whose value is the old one has come to this outcome: it is kept where it is another, and those members
/// that use it are told, also on which failing node they stand. One step, and two more for each such use where it
/// is another.
#[inline(always)]
pub(crate) fn settle<L: Ledger>(
    frame: &Frame,
    members: &[bool],
    overlay: &mut Overlay,
    id: u32,
    old: &NodeValue,
    outcome: Outcome,
    root: Option<(u32, RunFault)>,
    steps: &mut Steps<L>,
) -> Result<(), NoMemory>
    requires lists { id < length frame.now.uses.items }
    requires users { All (λ u. u.0.0 < length frame.now.layers.items) (uses_in frame.now id) }
    requires kinds { (x : Input) → outcome ≡ Value x → kind_of x ≡ kind_of old.now }
    requires found { (x : Input) → outcome ≡ Value x → root ≡ None }
    requires unlost { get nat_cmp overlay.old.lost id ≡ None }
    ensures told { OnOk result (IsTold (layer_of frame.now)
        (users_among members.now (uses_in frame.now id)) old.now outcome
        (waits overlay.old.waiting) (waits overlay.new.waiting)) }
    ensures lost { OnOk result (KeepsLost id outcome overlay.old.lost overlay.new.lost) }
    ensures change { OnOk result (KeepsChange id outcome old.now
        overlay.old.changes overlay.new.changes) }
    ensures roots { OnOk result (AreNoted (users_among members.now (uses_in frame.now id)) root
        overlay.old.roots overlay.new.roots) }
    ensures steps { steps.new ≤ steps.old + 1 + 2 * cond (differs outcome old.now)
        (length (users_among members.now (uses_in frame.now id))) 0 }
{
    let uses = frame.uses[id as usize].as_slice();
    let other = spread(frame, members, overlay, uses, old, &outcome, root, steps)?;
    keep(overlay, id, old, outcome, other, steps)?;
    Ok(())
}

/// Tells those members that use an id that it came to the outcome, where its value was the old one, and answers
/// whether the outcome is another. At most two steps for each such use, and none where it isn't.
fn spread<L: Ledger>(
    frame: &Frame,
    members: &[bool],
    overlay: &mut Overlay,
    uses: &[(NodeId, u32)],
    old: &NodeValue,
    outcome: &Outcome,
    root: Option<(u32, RunFault)>,
    steps: &mut Steps<L>,
) -> Result<bool, NoMemory>
    requires users { All (λ u. u.0.0 < length frame.now.layers.items) uses.now }
    requires kinds { (x : Input) → outcome.now ≡ Value x → kind_of x ≡ kind_of old.now }
    requires found { (x : Input) → outcome.now ≡ Value x → root ≡ None }
    ensures answer { IfOk result (λ r. r ≡ differs outcome.now old.now) }
    ensures told { OnOk result (IsTold (layer_of frame.now)
        (users_among members.now uses.now) old.now outcome.now
        (waits overlay.old.waiting) (waits overlay.new.waiting)) }
    ensures lost { OnOk result (overlay.new.lost ≡ overlay.old.lost) }
    ensures changes { OnOk result (overlay.new.changes ≡ overlay.old.changes) }
    ensures roots { OnOk result (AreNoted (users_among members.now uses.now) root
        overlay.old.roots overlay.new.roots) }
    ensures steps { steps.new ≤ steps.old + 2 * cond (differs outcome.now old.now)
        (length (users_among members.now uses.now)) 0 }
{
    match outcome {
        Outcome::Value(_) => tell(
            &mut overlay.waiting,
            &frame.layers,
            uses,
            members,
            old,
            outcome,
            steps,
        ),
        Outcome::Fails(_) => block_users(frame, members, overlay, uses, root, steps),
        Outcome::Missing => block_users(frame, members, overlay, uses, root, steps),
    }
}

/// Each use of an id by a member hears that it has no value, and on which failing node it stands. Two steps each.
fn block_users<L: Ledger>(
    frame: &Frame,
    members: &[bool],
    overlay: &mut Overlay,
    uses: &[(NodeId, u32)],
    root: Option<(u32, RunFault)>,
    steps: &mut Steps<L>,
) -> Result<bool, NoMemory>
    requires users { All (λ u. u.0.0 < length frame.now.layers.items) uses.now }
    ensures answer { IfOk result (λ r. r ≡ true) }
    ensures told { OnOk result (AreBlocked (layer_of frame.now) (users_among members.now uses.now)
        (waits overlay.old.waiting) (waits overlay.new.waiting)) }
    ensures lost { OnOk result (overlay.new.lost ≡ overlay.old.lost) }
    ensures changes { OnOk result (overlay.new.changes ≡ overlay.old.changes) }
    ensures roots { OnOk result (AreNoted (users_among members.now uses.now) root
        overlay.old.roots overlay.new.roots) }
    ensures steps { steps.new ≤ steps.old + 2 * length (users_among members.now uses.now) }
{
    for (id, _) in uses {
        if !has(members, *id) {
            continue;
        }
        overlay.waiting.block(turn_of(frame, *id), steps)?;
        overlay.note(id.0, root, steps)?;
    }
    Ok(true)
}

/// The turn of an id.
pub(crate) fn turn_of(frame: &Frame, id: NodeId) -> Turn
    requires { id.0 < length frame.now.layers.items }
    ensures layer { result.layer ≡ layer_of frame.now id.0 }
    ensures id { result.id ≡ id.0 }
{
    Turn {
        layer: frame.layers[id.0 as usize],
        id: id.0,
    }
}

/// Keeps the outcome of an id, of which is told whether it is another than its old value. One step at most.
fn keep<L: Ledger>(
    overlay: &mut Overlay,
    id: u32,
    old: &NodeValue,
    outcome: Outcome,
    other: bool,
    steps: &mut Steps<L>,
) -> Result<(), NoMemory>
    requires told { other ≡ differs outcome old.now }
    requires unlost { get nat_cmp overlay.old.lost id ≡ None }
    ensures waiting { OnOk result (overlay.new.waiting ≡ overlay.old.waiting) }
    ensures roots { OnOk result (overlay.new.roots ≡ overlay.old.roots) }
    ensures lost { OnOk result (KeepsLost id outcome overlay.old.lost overlay.new.lost) }
    ensures change { OnOk result (KeepsChange id outcome old.now
        overlay.old.changes overlay.new.changes) }
    ensures steps { steps.new ≤ steps.old + 1 }
{
    match outcome {
        Outcome::Value(value) => keep_value(overlay, id, old, value, other, steps),
        Outcome::Fails(fault) => {
            overlay.lose(id, Some(fault), steps)?;
            Ok(())
        }
        Outcome::Missing => {
            overlay.lose(id, None, steps)?;
            Ok(())
        }
    }
}

/// Keeps the value of an id, of which is told whether it is another than the old one. One step at most.
fn keep_value<L: Ledger>(
    overlay: &mut Overlay,
    id: u32,
    old: &NodeValue,
    value: NodeValue,
    other: bool,
    steps: &mut Steps<L>,
) -> Result<(), NoMemory>
    requires told { other ≡ differs (Value value) old.now }
    ensures waiting { OnOk result (overlay.new.waiting ≡ overlay.old.waiting) }
    ensures lost { OnOk result (overlay.new.lost ≡ overlay.old.lost) }
    ensures roots { OnOk result (overlay.new.roots ≡ overlay.old.roots) }
    ensures change { OnOk result (KeepsChange id (Value value) old.now
        overlay.old.changes overlay.new.changes) }
    ensures steps { steps.new ≤ steps.old + 1 }
{
    if other {
        let before = copy_of(old)?;
        overlay.change(id, before, value, steps)?;
    }
    Ok(())
}
