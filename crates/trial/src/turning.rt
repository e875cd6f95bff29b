//! The turns of a trial.
ghost use Rattle.std.specs.Prelude.{◌≡◌, ℕ, true, ◌+◌, ◌*◌, ◌<◌, ◌≤◌, nat_lt, length, IfOk, OnOk, MatchOption, None};
ghost use Rattle.std.specs.BTreeMap.{get};
ghost use Rattle.std.specs.Ordering.{nat_cmp};
ghost use Rattle.store_turns.specs.Cones.{has};
ghost use Rattle.store_turns.specs.Meaning.{layer_of};
ghost use Rattle.store_turns.specs.Waits.{waits};
ghost use Rattle.store_turns.specs.Turns.{rank};
ghost use Rattle.inc_store.specs.Course.{NotBefore, first_front};
ghost use Rattle.inc_store.specs.Views.{IsUsable, rules_in, count_of};
ghost use Rattle.trial.specs.Parts.{Query, InQuery, IsFound, IsPart, IsPaid};

use crate::asking::{came_to, root_of};
use crate::overlay::Overlay;
use crate::settling::{settle, turn_of};
use cbl_base::{NoMemory, NodeId, NodeRule, Steps};
use inc_store::Store;
use std::sync::ledger::Ledger;
use store_turns::Turn;

/// The first that waits has its turn, if that is not past the target's. It answers whose turn that was, and
/// `None` where nothing waits up to there.
fn turn<N: NodeRule, L: Ledger>(
    store: &Store<N>,
    members: &[bool],
    overlay: &mut Overlay,
    target: Turn,
    front: u128,
    steps: &mut Steps<L>,
) -> Result<Option<Turn>, NoMemory>
    ghost query: { Query }
    requires usable { IsUsable N.rule N.held N.ready store.now }
    requires part { IsPart (rules_in N.rule store.now) store.now.frame store.now.cells
        (has members.now) query.part }
    requires course { InQuery query overlay.old
        (NotBefore front (layer_of query.part.frame)) (steps.old + 4) }
    requires front { first_front ≤ front }
    ensures course { IfOk result (λ r. MatchOption r (Unit {0}) (λ t.
        InQuery query overlay.new
        (NotBefore (rank (layer_of query.part.frame) t.id + 1) (layer_of query.part.frame))
        (steps.new + 4))) }
    ensures limit { IsPaid query steps.new }
    ensures turn { IfOk result (λ r. MatchOption r (Unit {0}) (λ t.
        (t.layer ≡ layer_of query.part.frame t.id) × (t.id < count_of store.now) ×
        (front ≤ rank (layer_of query.part.frame) t.id) ×
        (rank (layer_of query.part.frame) t.id ≤ target.layer * 4294967296 + target.id))) }
    ensures over { IfOk result (λ r. MatchOption r (((j : ℕ) → j < count_of store.now →
        rank (layer_of query.part.frame) j ≤ target.layer * 4294967296 + target.id →
        waits overlay.old.waiting (layer_of query.part.frame j) j ≡ None) ×
        (overlay.new.lost ≡ overlay.old.lost) × (overlay.new.changes ≡ overlay.old.changes) ×
        (overlay.new.roots ≡ overlay.old.roots) × (steps.new ≡ steps.old + 1)) (λ t. Unit {0})) }
{
    let Some(turn) = overlay.waiting.pop(steps) else {
        return Ok(None);
    };
    if is_past(turn, target) {
        return Ok(None);
    }
    let frame = store.frame();
    let old = store.read(NodeId(turn.id), steps);
    let outcome = came_to(store, frame, overlay, turn.id, old, steps)?;
    let root = root_of(overlay, turn.id, &outcome, steps);
    settle(frame, members, overlay, turn.id, old, outcome, root, steps)?;
    Ok(Some(turn))
}

/// Whether a turn comes after another.
fn is_past(turn: Turn, other: Turn) -> bool
    ensures { result ≡ nat_lt (other.layer * 4294967296 + other.id)
        (turn.layer * 4294967296 + turn.id) }
{
    rank_of(other) < rank_of(turn)
}

/// The place of a turn in the order of all.
fn rank_of(turn: Turn) -> u64
    ensures { result ≡ turn.layer * 4294967296 + turn.id }
{
    u64::from(turn.layer) * 4294967296 + u64::from(turn.id)
}

/// Each node that waits has its turn, by layer and then by id, up to the target's.
pub(crate) fn run<N: NodeRule, L: Ledger>(
    store: &Store<N>,
    members: &[bool],
    overlay: &mut Overlay,
    target: NodeId,
    steps: &mut Steps<L>,
) -> Result<(), NoMemory>
    ghost query: { Query }
    requires usable { IsUsable N.rule N.held N.ready store.now }
    requires part { IsPart (rules_in N.rule store.now) store.now.frame store.now.cells
        (has members.now) query.part }
    requires target { target.0 < count_of store.now }
    requires member { has members.now target.0 ≡ true }
    requires course { InQuery query overlay.old
        (NotBefore first_front (layer_of query.part.frame)) (steps.old + 4) }
    ensures known { OnOk result (IsFound query overlay.new target.0) }
    ensures spare { OnOk result (IsPaid query (steps.new + 3)) }
    ensures limit { IsPaid query steps.new }
{
    let last = turn_of(store.frame(), target);
    let mut front: u128 = 4294967296;
    loop {
        let Some(turn) = turn(store, members, overlay, last, front, steps)? else {
            return Ok(());
        };
        front = u128::from(rank_of(turn)) + 1;
    }
}
