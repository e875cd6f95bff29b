//! Commits one after another, each beside what is computed from scratch.
ghost use Rattle.std.specs.Prelude.{◌≡◌, ◌<◌, IsTrue};
ghost use Rattle.inc_store.specs.Moves.{AreMoves};
ghost use Rattle.inc_store.specs.Views.{IsUsable, graph_in};

use crate::draws::Draws;
use crate::fresh::{Came, Touch, all_came, came_at, least_failing, moved, touch_of};
use crate::graphs::{Graph, moves_of, target_of};
use crate::moves::fits;
use cbl_base::{Input, NoMemory, NodeId, NodeRule, RunFault, Steps, VarId};
use inc_store::{Changed, Store, StoreFault};
use std::alloc::Global;
use std::sync::atomic::{AtomicU64, Ordering};
use std::sync::ledger::Ledger;
use trial::{Trial, TrialFault};

/// The target that each store is told to keep. In graphs that are drawn it is asked now and then; that of
/// the nodes under another is one that isn't kept.
const KEPT: u32 = 20;

/// What was seen in the graphs of a shape.
#[derive(Clone, Copy, Drop)]
pub(crate) struct Counts {
    pub(crate) stores: u64,
    /// Builds over numbers under which a node fails.
    pub(crate) failed: u64,
    pub(crate) commits: u64,
    /// Commits that met a fault and ended their store.
    pub(crate) ended: u64,
    pub(crate) probes: u64,
    /// Probes that met a fault.
    pub(crate) refused: u64,
    /// Of the last commit that met none: what it touched, the values that it changed, those of variables
    /// among them, and how often it called nodes.
    pub(crate) touch: u64,
    pub(crate) entries: usize,
    pub(crate) variables: u64,
    pub(crate) commit_calls: u64,
    /// How often the last probe called nodes.
    pub(crate) probe_calls: u64,
    /// Answers that weren't those from scratch.
    pub(crate) differences: u64,
}

/// What goes on from store to store.
#[derive(Drop)]
pub(crate) struct Play<'a> {
    pub(crate) trial: Trial,
    pub(crate) draws: Draws,
    pub(crate) calls: &'a AtomicU64,
    pub(crate) counts: Counts,
    /// The numbers of the variables.
    pub(crate) numbers: Vec<i64>,
    /// The numbers under which a node failed, where the last commit met that fault.
    pub(crate) failing: Option<Vec<i64>>,
    /// How many commits are left.
    pub(crate) left: u32,
    /// Stores whose values were others behind probes.
    pub(crate) moved: u64,
}

/// Moves, the numbers after them, and what each id comes to before and after.
#[derive(Drop)]
struct Round {
    moves: Vec<(VarId, i64)>,
    numbers: Vec<i64>,
    before: Vec<Came>,
    after: Vec<Came>,
}

/// Draws the moves of a commit over these numbers.
fn round_of(
    alloc: Global,
    graph: &Graph,
    numbers: &[i64],
    draws: &mut Draws,
) -> Result<Round, NoMemory> {
    let moves = moves_of(alloc, graph.shape, draws)?;
    let before = all_came(alloc, graph, numbers)?;
    let numbers = moved(alloc, numbers, &moves)?;
    let after = all_came(alloc, graph, &numbers)?;
    Ok(Round {
        moves,
        numbers,
        before,
        after,
    })
}

/// Whether a value is the number that an id came to.
fn is_number(value: &Input, came: Came) -> bool {
    match (value, came) {
        (Input::Int(value), Ok(number)) => *value == number,
        _ => false,
    }
}

/// The difference of a target's two values from scratch, or the node whose fault counts.
fn difference_of(round: &Round, target: u32) -> Came {
    match came_at(&round.after, target) {
        Err(least) => Err(least),
        Ok(new) => match came_at(&round.before, target) {
            Err(least) => Err(least),
            Ok(old) => new.checked_sub(old).ok_or(target),
        },
    }
}

/// Whether the store has these values.
fn has_values<N: NodeRule, L: Ledger>(
    store: &Store<N>,
    values: &[Came],
    steps: &mut Steps<L>,
) -> bool
    requires { IsUsable N.rule N.held N.ready store.now }
{
    let Ok(count) = u32::try_from(store.frame().inputs.len()) else {
        return false;
    };
    for id in 0..count {
        if !is_number(store.read(NodeId(id), steps), came_at(values, id)) {
            return false;
        }
    }
    count as usize == values.len()
}

/// What a trial answers of a target: the difference, or the node that overflows.
fn ask<N: NodeRule, L: Ledger>(
    store: &Store<N>,
    trial: &mut Trial,
    moves: &[(VarId, i64)],
    target: u32,
    steps: &mut Steps<L>,
) -> Option<Came>
    requires usable { IsUsable N.rule N.held N.ready store.now }
    requires moves { AreMoves (graph_in N.rule store.now) moves.now }
{
    if target as usize >= store.frame().inputs.len() {
        return None;
    }
    match store.read(NodeId(target), steps) {
        Input::Int(_) => match trial.probe(store, moves, NodeId(target), steps) {
            Ok(difference) => Some(Ok(difference)),
            Err(TrialFault::Node(node, RunFault::Overflow)) => Some(Err(node.0)),
            Err(_) => None,
        },
        Input::Set(_) => None,
    }
}

/// Notes how a probe went, and how often it called nodes.
fn note_probe(counts: &mut Counts, answer: Option<Came>, wanted: Came, calls: u64) {
    counts.probes = counts.probes.saturating_add(1);
    counts.probe_calls = calls;
    if wanted.is_err() {
        counts.refused = counts.refused.saturating_add(1);
    }
    if answer != Some(wanted) {
        counts.differences = counts.differences.saturating_add(1);
    }
}

/// Asks what a round makes of some targets.
fn ask_some<N: NodeRule, L: Ledger>(
    store: &Store<N>,
    graph: &Graph,
    round: &Round,
    play: &mut Play<'_>,
    steps: &mut Steps<L>,
)
    requires usable { IsUsable N.rule N.held N.ready store.now }
    requires moves { AreMoves (graph_in N.rule store.now) round.now.moves.items }
{
    for _target in 0..3 {
        let target = target_of(graph.shape, &mut play.draws);
        let before = play.calls.load(Ordering::SeqCst);
        let answer = ask(store, &mut play.trial, &round.moves, target, steps);
        let calls = play.calls.load(Ordering::SeqCst).wrapping_sub(before);
        note_probe(
            &mut play.counts,
            answer,
            difference_of(round, target),
            calls,
        );
    }
    if !has_values(store, &round.before, steps) {
        play.moved = play.moved.saturating_add(1);
    }
}

/// Notes what a commit changed. It tells whether that are the changes between the values of a round, in
/// order of id.
fn note_changes(counts: &mut Counts, graph: &Graph, round: &Round, changed: &Changed) -> bool {
    let Touch { touch, differing } = touch_of(graph, &round.moves, &round.before, &round.after);
    counts.touch = touch;
    counts.entries = changed.list.len();
    counts.variables = 0;
    let mut next: u32 = 0;
    for change in &changed.list {
        let id = change.node.0;
        let (old, new) = (came_at(&round.before, id), came_at(&round.after, id));
        if id < next || old == new || !is_number(&change.old, old) || !is_number(&change.new, new) {
            return false;
        }
        if (id as usize) < round.numbers.len() {
            counts.variables = counts.variables.saturating_add(1);
        }
        next = id.saturating_add(1);
    }
    counts.entries == differing
}

/// Commits a round. It tells whether the store can be used on.
fn commit<N: NodeRule, L: Ledger>(
    store: &mut Store<N>,
    graph: &Graph,
    round: Round,
    play: &mut Play<'_>,
    steps: &mut Steps<L>,
) -> bool
    requires usable { IsUsable N.rule N.held N.ready store.old }
    requires moves { AreMoves (graph_in N.rule store.old) round.moves.items }
    ensures { IsTrue result → IsUsable N.rule N.held N.ready store.new }
{
    let before = play.calls.load(Ordering::SeqCst);
    let answer = store.commit(&round.moves, steps);
    let calls = play.calls.load(Ordering::SeqCst).wrapping_sub(before);
    match answer {
        Ok(changed) => {
            play.counts.commit_calls = calls;
            let is_told = note_changes(&mut play.counts, graph, &round, &changed);
            if !is_told || !has_values(store, &round.after, steps) {
                play.counts.differences = play.counts.differences.saturating_add(1);
            }
            play.numbers = round.numbers;
            true
        }
        Err(StoreFault::Node(node, RunFault::Overflow))
            if least_failing(&round.after) == node.0 && !store.usable() => {
            play.counts.ended = play.counts.ended.saturating_add(1);
            play.failing = Some(round.numbers);
            false
        }
        Err(_) => {
            play.counts.differences = play.counts.differences.saturating_add(1);
            false
        }
    }
}

/// Draws a round, asks what it makes of some targets, and commits it. It tells whether the store can be
/// used on.
fn go_on<N: NodeRule, L: Ledger>(
    alloc: Global,
    graph: &Graph,
    store: &mut Store<N>,
    play: &mut Play<'_>,
    steps: &mut Steps<L>,
) -> bool
    requires usable { IsUsable N.rule N.held N.ready store.old }
    ensures { IsTrue result → IsUsable N.rule N.held N.ready store.new }
{
    play.left = play.left.saturating_sub(1);
    play.counts.commits = play.counts.commits.saturating_add(1);
    match round_of(alloc, graph, &play.numbers, &mut play.draws) {
        Ok(round) if fits(store, &round.moves) => {
            ask_some(store, graph, &round, play, steps);
            commit(store, graph, round, play, steps)
        }
        _ => {
            play.counts.differences = play.counts.differences.saturating_add(1);
            false
        }
    }
}

/// Commits rounds to a store, to the first fault or until none is left. The store keeps one more target.
pub(crate) fn follow<N: NodeRule, L: Ledger>(
    alloc: Global,
    graph: &Graph,
    store: Store<N>,
    play: &mut Play<'_>,
    steps: &mut Steps<L>,
)
    requires { IsUsable N.rule N.held N.ready store }
{
    let mut store = store;
    if store.frame().inputs.len() <= KEPT as usize || store.keep(NodeId(KEPT)).is_err() {
        play.counts.differences = play.counts.differences.saturating_add(1);
        return;
    }
    for _round in 0..play.left {
        if !go_on(alloc, graph, &mut store, play, steps) {
            return;
        }
    }
}
