//! How long probes and commits take.
ghost use Rattle.std.specs.Prelude.{◌≡◌, ◌<◌, ◌≤◌, true, IfOk, OnOk, All};
ghost use Rattle.cbl_base.specs.Inputs.{number_kind, kind_of};
ghost use Rattle.inc_store.specs.Moves.{AreMoves};
ghost use Rattle.bench.specs.Lists.{moves_in};
ghost use Rattle.inc_store.specs.Views.{IsUsable, graph_in, value_at, count_of};

use crate::draws::Draws;
use crate::stop::Stop;
use crate::store::linking::store_of;
use crate::store::moves::{Shape, lists_of};
use crate::store::one_list::Moves;
use crate::store::pieces::Piece;
use crate::store::queens::start_of;
use cbl_base::{Input, NodeId, NodeRule, Steps};
use inc_store::Store;
use node_base::OverNumbers;
use std::alloc::Global;
use std::marker::Brand;
use std::sync::ledger::{Blank, Ledger};
use std::time::{CpuClock, Duration};
use trial::Trial;

/// How often all lists of moves are gone through.
const ROUNDS: u32 = 32;

/// Nanoseconds of a probe of an assignment, of a probe of a swap, and of a commit of an assignment.
#[derive(Clone, Copy)]
struct Times {
    assignment: u64,
    swap: u64,
    commit: u64,
}

/// A store, and the lists of moves with which it is timed.
#[derive(Drop)]
struct Scene {
    assignments: Vec<Moves>,
    swaps: Vec<Moves>,
    store: Store<OverNumbers<Piece>>,
}

/// Prints a line of how long a store takes over so many queens.
pub(crate) fn time_queens<R: CpuClock + Print + AllocGlobal>(
    rt: &R,
    count: u32,
) -> Result<(), Stop> {
    if count < 2 || count > 1_000_000 {
        return Err(Stop::Words);
    }
    let alloc = rt.alloc();
    let mut trial = Trial::new(alloc);
    let mut scene = scene_of(alloc, count)?;
    let times = time_store::<R, OverNumbers<Piece>, Brand>(
        Blank::new(1),
        rt,
        &mut scene.store,
        &mut trial,
        NodeId(4 * count + 3),
        &scene.assignments,
        &scene.swaps,
    )?;
    print_times(rt, count, times)
}

/// A store over so many queens, and lists of moves.
fn scene_of(alloc: Global, count: u32) -> Result<Scene, Stop>
    requires some { 2 ≤ count }
    requires few { count ≤ 1000000 }
    ensures usable { IfOk result (λ s. IsUsable ⟦<OverNumbers<Piece> as NodeRule>⟧.rule ⟦<OverNumbers<Piece> as NodeRule>⟧.held ⟦<OverNumbers<Piece> as NodeRule>⟧.ready s.store) }
    ensures assignments { IfOk result (λ s. All (λ v. AreMoves (graph_in ⟦<OverNumbers<Piece> as NodeRule>⟧.rule s.store) (moves_in v)) s.assignments.items) }
    ensures swaps { IfOk result (λ s. All (λ v. AreMoves (graph_in ⟦<OverNumbers<Piece> as NodeRule>⟧.rule s.store) (moves_in v)) s.swaps.items) }
{
    let mut draws = Draws::new();
    let start = start_of(alloc, &mut draws, count)?;
    let numbers = start.as_slice();
    let assignments = lists_of(alloc, &mut draws, Shape::Assignment, numbers, count)?;
    let swaps = lists_of(alloc, &mut draws, Shape::Swap, numbers, count)?;
    let store = store_of(alloc, count, numbers)?;
    Ok(Scene {
        assignments,
        swaps,
        store,
    })
}

/// Prints the line of so many queens.
fn print_times<R: Print>(rt: &R, count: u32, times: Times) -> Result<(), Stop> {
    println!(rt;
        "{count:>8} queens, nanoseconds: assignment {:>6}, swap {:>6}, commit {:>6}",
        times.assignment, times.swap, times.commit
    )?;
    Ok(())
}

/// How long this store takes.
fn time_store<R: CpuClock, N: NodeRule, L: Ledger>(
    blank: Blank,
    rt: &R,
    store: &mut Store<N>,
    trial: &mut Trial,
    target: NodeId,
    assignments: &[Moves],
    swaps: &[Moves],
) -> Result<Times, Stop>
    requires name { blank.name ≡ L.name }
    requires parts { blank.parts ≡ L.parts }
    requires some { 0 < L.parts }
    requires usable { IsUsable N.rule N.held N.ready store.old }
    requires assignments { All (λ v. AreMoves (graph_in N.rule store.old) (moves_in v)) assignments.now }
    requires swaps { All (λ v. AreMoves (graph_in N.rule store.old) (moves_in v)) swaps.now }
{
    let mut steps = Steps::<L>::new(blank);
    if target.0 as usize >= store.frame().inputs.len() {
        return Err(Stop::Store);
    }
    if !is_number(store.read(target, &mut steps)) {
        return Err(Stop::Store);
    }
    let assignment = time_probes(rt, store, trial, target, assignments, &mut steps)?;
    let swap = time_probes(rt, store, trial, target, swaps, &mut steps)?;
    let commit = time_commits(rt, store, assignments, &mut steps)?;
    Ok(Times {
        assignment,
        swap,
        commit,
    })
}

/// Whether a value is a number.
fn is_number(value: &Input) -> bool
    ensures { result ≡ true → kind_of value.now ≡ number_kind }
{
    matches!(value, Input::Int(_))
}

/// Nanoseconds of one of these probes.
fn time_probes<R: CpuClock, N: NodeRule, L: Ledger>(
    rt: &R,
    store: &Store<N>,
    trial: &mut Trial,
    target: NodeId,
    lists: &[Moves],
    steps: &mut Steps<L>,
) -> Result<u64, Stop>
    requires usable { IsUsable N.rule N.held N.ready store.now }
    requires moves { All (λ v. AreMoves (graph_in N.rule store.now) (moves_in v)) lists.now }
    requires target { target.0 < count_of store.now }
    requires number { kind_of (value_at store.now target.0) ≡ number_kind }
{
    let start = rt.process_cpu_time()?;
    let mut sum: i64 = 0;
    for _round in 0..ROUNDS {
        sum = sum.wrapping_add(probe_all(store, trial, target, lists, steps)?);
    }
    let spent = rt.process_cpu_time()?.saturating_sub(start);
    Ok(each_of(spent, lists.len(), sum))
}

/// The sum of the differences of these probes.
fn probe_all<N: NodeRule, L: Ledger>(
    store: &Store<N>,
    trial: &mut Trial,
    target: NodeId,
    lists: &[Moves],
    steps: &mut Steps<L>,
) -> Result<i64, Stop>
    requires usable { IsUsable N.rule N.held N.ready store.now }
    requires moves { All (λ v. AreMoves (graph_in N.rule store.now) (moves_in v)) lists.now }
    requires target { target.0 < count_of store.now }
    requires number { kind_of (value_at store.now target.0) ≡ number_kind }
{
    let mut sum: i64 = 0;
    for moves in lists {
        let difference = trial.probe(store, moves.as_slice(), target, steps)?;
        sum = sum.wrapping_add(difference);
    }
    Ok(sum)
}

/// Nanoseconds of one of these commits.
fn time_commits<R: CpuClock, N: NodeRule, L: Ledger>(
    rt: &R,
    store: &mut Store<N>,
    lists: &[Moves],
    steps: &mut Steps<L>,
) -> Result<u64, Stop>
    requires usable { IsUsable N.rule N.held N.ready store.old }
    requires moves { All (λ v. AreMoves (graph_in N.rule store.old) (moves_in v)) lists.now }
{
    let start = rt.process_cpu_time()?;
    let mut sum: i64 = 0;
    for _round in 0..ROUNDS {
        sum = sum.wrapping_add(commit_all(store, lists, steps)?);
    }
    let spent = rt.process_cpu_time()?.saturating_sub(start);
    Ok(each_of(spent, lists.len(), sum))
}

/// How many values these commits change.
fn commit_all<N: NodeRule, L: Ledger>(
    store: &mut Store<N>,
    lists: &[Moves],
    steps: &mut Steps<L>,
) -> Result<i64, Stop>
    requires usable { IsUsable N.rule N.held N.ready store.old }
    requires moves { All (λ v. AreMoves (graph_in N.rule store.old) (moves_in v)) lists.now }
    ensures usable { OnOk result (IsUsable N.rule N.held N.ready store.new) }
    ensures graph { OnOk result (graph_in N.rule store.new ≡ graph_in N.rule store.old) }
{
    let mut sum: i64 = 0;
    for moves in lists {
        let changed = store.commit(moves.as_slice(), steps)?;
        sum = sum.wrapping_add(changed.list.len() as i64);
    }
    Ok(sum)
}

/// Nanoseconds for each of so many calls in all rounds. The sum of what they answered is looked at, so that
/// none is left out.
fn each_of(spent: Duration, calls: usize, sum: i64) -> u64 {
    let all = (u128::from(ROUNDS) * calls as u128).max(1);
    let each = u64::try_from(spent.as_nanos() / all).unwrap_or(u64::MAX);
    if sum == i64::MIN { 0 } else { each }
}
