//! The turns of a commit.
ghost use Rattle.std.specs.Prelude.{◌≡◌, ◌≢◌, ℕ, ◌+◌, ◌*◌, ◌<◌, ◌≤◌, List, length, map, IfOk, OnOk, All, MatchOption, None};
ghost use Rattle.store_turns.specs.Meaning.{graph_of, layer_of, uses_in};
ghost use Rattle.store_turns.specs.Waits.{waits};
ghost use Rattle.store_turns.specs.Turns.{rank};
ghost use Rattle.store_build.specs.Frames.{IsFrame};
ghost use Rattle.inc_store.specs.Course.{InCourse, IsOver, Trace, NotBefore, first_front};
ghost use Rattle.inc_store.specs.Stores.{IsInTime};

use crate::cells::Cells;
use crate::course::{Course, settle};
use crate::node_turn::outcome_of;
use cbl_base::{NoMemory, NodeRule, Steps};
use std::sync::ledger::Ledger;
use store_turns::{Frame, Turn};

/// The first that waits has its turn. It answers whose turn that was, and `None` where nothing waits.
fn turn<N: NodeRule, L: Ledger>(
    frame: &Frame,
    nodes: &mut Vec<N>,
    cells: &mut Cells,
    course: &mut Course,
    front: u128,
    steps: &mut Steps<L>,
) -> Result<Option<Turn>, NoMemory>
    ghost trace: { Trace }
    requires ready { All N.ready nodes.old.items }
    requires frame { IsFrame (map N.rule nodes.old.items) frame.now trace.kinds }
    requires course { InCourse (map N.rule nodes.old.items)
        (map N.held nodes.old.items) frame.now trace cells.old course.old
        (NotBefore front (layer_of frame.now)) (steps.old + 1) }
    requires front { first_front ≤ front }
    ensures ready { OnOk result (All N.ready nodes.new.items) }
    ensures rules { OnOk result (map N.rule nodes.new.items ≡ map N.rule nodes.old.items) }
    ensures course { IfOk result (λ r.
        MatchOption r (Unit {0}) (λ t. InCourse (map N.rule nodes.old.items)
        (map N.held nodes.new.items) frame.now trace cells.new course.new
        (NotBefore (rank (layer_of frame.now) t.id + 1) (layer_of frame.now)) (steps.new + 1))) }
    ensures limit { IsInTime (map N.rule nodes.old.items) frame.now trace steps.new }
    ensures over { IfOk result (λ r. MatchOption r (((l i : ℕ) →
        waits course.old.waiting l i ≡ None) ×
        (map N.held nodes.new.items ≡ map N.held nodes.old.items) × (cells.new ≡ cells.old) ×
        (course.new.lost ≡ course.old.lost) × (course.new.changes ≡ course.old.changes) ×
        (steps.new ≡ steps.old + 1)) (λ t. (t.layer ≡ layer_of frame.now t.id) ×
        (t.id < length frame.now.inputs.items) × (front ≤ rank (layer_of frame.now) t.id))) }
{
    let Some(turn) = course.waiting.pop(steps) else {
        return Ok(None);
    };
    let outcome = outcome_of(frame, nodes, cells, turn.id, &course.waiting, steps)?;
    settle(frame, cells, course, turn.id, outcome, steps)?;
    Ok(Some(turn))
}

/// Each node that waits has its turn, by layer and then by id.
pub(crate) fn run<N: NodeRule, L: Ledger>(
    frame: &Frame,
    nodes: &mut Vec<N>,
    cells: &mut Cells,
    course: &mut Course,
    steps: &mut Steps<L>,
) -> Result<(), NoMemory>
    ghost trace: { Trace }
    requires ready { All N.ready nodes.old.items }
    requires frame { IsFrame (map N.rule nodes.old.items) frame.now trace.kinds }
    requires course { InCourse (map N.rule nodes.old.items)
        (map N.held nodes.old.items) frame.now trace cells.old course.old
        (NotBefore first_front (layer_of frame.now)) (steps.old + 1) }
    ensures ready { OnOk result (All N.ready nodes.new.items) }
    ensures rules { OnOk result (map N.rule nodes.new.items ≡ map N.rule nodes.old.items) }
    ensures limit { IsInTime (map N.rule nodes.old.items) frame.now trace steps.new }
    ensures over { OnOk result (IsOver (map N.rule nodes.old.items)
        (map N.held nodes.new.items) frame.now trace cells.new course.new steps.new) }
{
    let mut front: u128 = 4294967296;
    loop {
        let Some(turn) = turn(frame, nodes, cells, course, front, steps)? else {
            return Ok(());
        };
        front = u128::from(turn.layer) * 4294967296 + u128::from(turn.id) + 1;
    }
}
