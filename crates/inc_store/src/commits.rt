//! A commit, over the parts of a store.
ghost use Rattle.std.specs.Prelude.{◌≡◌, ℕ, ◌+◌, ◌*◌, ◌-◌, ◌<◌, ◌≤◌, true, List, length, map, IfOk, IfErr, OnOk, All, vec_len};
ghost use Rattle.std.specs.BTreeMap.{IsOrdered};
ghost use Rattle.std.specs.Ordering.{nat_cmp};
ghost use Rattle.cbl_base.specs.declared.input.Input.TheVariants.{Int};
ghost use Rattle.store_turns.specs.declared.outcome.Outcome.TheVariants.{Value};
ghost use Rattle.store_turns.specs.Meaning.{graph_of, layer_of, inputs_in, uses_in};
ghost use Rattle.store_turns.specs.Touch.{touch, differs};
ghost use Rattle.store_build.specs.Frames.{IsFrame, cell_of};
ghost use Rattle.inc_store.specs.Course.{InCourse, Given, NotBefore, first_front};
ghost use Rattle.inc_store.specs.Faults.{first_failing, and_later, IsDone, EndsBy};
ghost use Rattle.inc_store.specs.Moves.{AreMoves, LaterThanMoves, moved_to, trace_of};
ghost use Rattle.store_build.specs.Kept.{IsKept};
ghost use Rattle.store_build.specs.Stops.{IsStop};
ghost use Rattle.inc_store.specs.Stores.{IsInTime, changes_between};

use crate::cells::Cells;
use crate::changed::{Changed, NodeChange};
use crate::course::{Course, settle};
use crate::turns::run;
use cbl_base::{Input, NoMemory, NodeId, NodeRule, RunFault, Steps, VarId};
use std::alloc::Global;
use std::collections::BTreeMap;
use std::sync::ledger::Ledger;
use store_build::StoreFault;
use store_turns::{Frame, Outcome};

/// Moves free cells, and goes on to all that stands on them.
pub(crate) fn commit_moves<N: NodeRule, L: Ledger>(
    alloc: Global,
    frame: &Frame,
    nodes: &mut Vec<N>,
    cells: &mut Cells,
    moves: &[(VarId, i64)],
    steps: &mut Steps<L>,
) -> Result<Changed, StoreFault>
    ghost given: { Given }
    requires ready { All N.ready nodes.old.items }
    requires rules { given.rules ≡ map N.rule nodes.old.items }
    requires helds { given.helds ≡ map N.held nodes.old.items }
    requires trace { given.trace ≡ trace_of cells.old moves.now steps.old }
    requires kept { IsKept given.rules given.helds frame.now cells.old }
    requires moves { AreMoves (graph_of given.rules frame.now) moves.now }
    requires some { 0 < length moves.now }
    ensures ready { OnOk result (All N.ready nodes.new.items) }
    ensures rules { OnOk result (map N.rule nodes.new.items ≡ map N.rule nodes.old.items) }
    ensures kept { OnOk result (IsKept given.rules
        (map N.held nodes.new.items) frame.now cells.new) }
    ensures moved { OnOk result ((j : ℕ) → j < length frame.now.inputs.items →
        (graph_of given.rules frame.now).is_free j ≡ true →
        cell_of cells.new j ≡ given.trace.target j) }
    ensures changed { IfOk result (λ changed.
        changed.list.items ≡ changes_between 0 cells.old cells.new) }
    ensures fault { IfErr result (λ stop.
        IsStop (graph_of given.rules frame.now) given.trace.target stop) }
    ensures steps { IsInTime given.rules frame.now given.trace steps.new }
{
    let mut course = Course::new(alloc);
    move_all(frame, cells, &mut course, moves, steps)?;
    run(frame, nodes, cells, &mut course, steps)?;
    finish(alloc, course)
}

/// What a commit gives that is over: the first fault, or the changes in order of id.
fn finish(alloc: Global, course: Course) -> Result<Changed, StoreFault>
    ensures done { IfOk result (λ changed. IsDone course changed.list.items) }
    ensures fault { IfErr result (λ stop. EndsBy course stop) }
{
    let lost = course.lost;
    let changes = course.changes;
    if let Some((id, fault)) = first_fault(lost) {
        return Err(StoreFault::Node(NodeId(id), fault));
    }
    let changed = listed(alloc, changes)?;
    Ok(changed)
}

/// Each moved cell takes its number.
fn move_all<L: Ledger>(
    frame: &Frame,
    cells: &mut Cells,
    course: &mut Course,
    moves: &[(VarId, i64)],
    steps: &mut Steps<L>,
) -> Result<(), NoMemory>
    ghost given: { Given }
    requires frame { IsFrame given.rules frame.now given.trace.kinds }
    requires moves { AreMoves (graph_of given.rules frame.now) moves.now }
    requires target { (j : ℕ) → given.trace.target j ≡ moved_to moves.now given.trace.before j }
    requires course { InCourse given.rules given.helds frame.now given.trace cells.old course.old
        (LaterThanMoves frame.now moves.now) (steps.old + 2 * length moves.now + 1) }
    ensures course { OnOk result (InCourse given.rules given.helds frame.now given.trace cells.new
        course.new (NotBefore first_front (layer_of frame.now)) (steps.new + 1)) }
    ensures limit { IsInTime given.rules frame.now given.trace steps.new }
{
    for (var, number) in moves {
        settle(
            frame,
            cells,
            course,
            var.index,
            number_outcome(number),
            steps,
        )?;
    }
    Ok(())
}

/// A free cell comes to its number.
fn number_outcome(number: &i64) -> Outcome
    ensures { result ≡ Value (Int number.now) }
{
    Outcome::Value(Input::Int(*number))
}

/// The least of the ids without a value whose fault is its own, with that fault.
fn first_fault(lost: BTreeMap<u32, Option<RunFault>>) -> Option<(u32, RunFault)>
    ensures first { result ≡ first_failing lost.entries }
    ensures ordered { IsOrdered nat_cmp lost }
{
    let mut first = None;
    for (id, own) in lost {
        first = and_later(first, id, own);
    }
    first
}

/// The first fault that is an id's own, of those so far and the next.
fn and_later(
    first: Option<(u32, RunFault)>,
    id: u32,
    own: Option<RunFault>,
) -> Option<(u32, RunFault)>
    ensures { result ≡ and_later first (id, own) }
{
    match (first, own) {
        (Some(found), _) => Some(found),
        (None, Some(fault)) => Some((id, fault)),
        (None, None) => None,
    }
}

/// The changes in order of id.
fn listed(alloc: Global, changes: BTreeMap<u32, NodeChange>) -> Result<Changed, NoMemory>
    ensures list { IfOk result (λ changed. changed.list.items ≡ map (λ e. e.1) changes.entries) }
    ensures ordered { OnOk result (IsOrdered nat_cmp changes) }
{
    let mut list = Vec::new(alloc);
    for (_, change) in changes {
        list.push(change)?;
    }
    Ok(Changed { list })
}
