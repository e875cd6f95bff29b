//! Commits moves to stores and asks a trial before each, and says whether all answers are those from scratch: the values of
//! all ids, what changed, each difference, each fault. Where a commit meets a fault, a store over the same numbers is to
//! meet it, too. What is compared is computed by plain recursion over the graphs.
//!
//! The draws are the same in each run. It claims nothing of graphs that aren't drawn, and counts no steps: that these are at
//! most four times the touch is proved.
#![tactic(auto)]

ghost use Rattle.std.specs.Prelude.{◌≡◌, ◌<◌};

mod counted;
mod draws;
mod fresh;
mod graphs;
mod moves;
mod rounds;
mod stores;

use crate::draws::Draws;
use crate::fresh::{all_came, least_failing};
use crate::graphs::{Graph, Shape, graph_of, numbers_of};
use crate::rounds::{Counts, Play, follow};
use crate::stores::{NoStore, counted_sums, store_of};
use cbl_base::Steps;
use std::alloc::Global;
use std::marker::Brand;
use std::sync::atomic::AtomicU64;
use std::sync::ledger::{Blank, Ledger};
use trial::Trial;

/// Nothing was seen yet.
const NOTHING_SEEN: Counts = Counts {
    stores: 0,
    failed: 0,
    commits: 0,
    ended: 0,
    probes: 0,
    refused: 0,
    touch: 0,
    entries: 0,
    variables: 0,
    commit_calls: 0,
    probe_calls: 0,
    differences: 0,
};

/// Builds a store over numbers under which a node fails, and notes whether the fault is that of the least
/// one that does.
fn build_failing(
    alloc: Global,
    graph: &Graph,
    numbers: &[i64],
    play: &mut Play<'_>,
) -> Result<(), NoStore> {
    let least = least_failing(&all_came(alloc, graph, numbers)?);
    play.counts.failed = play.counts.failed.saturating_add(1);
    let count = graph.lists.len().saturating_sub(numbers.len());
    let nodes = counted_sums(alloc, count, play.calls)?;
    match store_of(alloc, nodes, &graph.lists, numbers) {
        Err(NoStore::Overflow(node)) if node == least => {}
        _ => play.counts.differences = play.counts.differences.saturating_add(1),
    }
    Ok(())
}

/// Draws a graph of a shape, and makes so many commits in it, in one store after another. Where a commit
/// ends a store, none can be built of the numbers after it.
fn play_graph<L: Ledger>(
    alloc: Global,
    shape: Shape,
    commits: u32,
    play: &mut Play<'_>,
    steps: &mut Steps<L>,
) -> Result<(), NoStore> {
    let graph = graph_of(alloc, shape, &mut play.draws)?;
    play.numbers = numbers_of(alloc, shape, &mut play.draws)?;
    play.left = commits;
    for _store in 0..=commits {
        if play.left == 0 {
            return Ok(());
        }
        let count = graph.lists.len().saturating_sub(play.numbers.len());
        let nodes = counted_sums(alloc, count, play.calls)?;
        let store = store_of(alloc, nodes, &graph.lists, &play.numbers)?;
        play.counts.stores = play.counts.stores.saturating_add(1);
        follow(alloc, &graph, store, play, steps);
        if let Some(numbers) = play.failing.take() {
            build_failing(alloc, &graph, &numbers, play)?;
        }
    }
    Ok(())
}

/// Draws graphs of a shape, makes commits in each, and prints what was seen.
fn play_shape<R: Print + AllocGlobal, L: Ledger>(
    rt: &R,
    shape: Shape,
    play: &mut Play<'_>,
    steps: &mut Steps<L>,
) {
    let (name, graphs, commits) = match shape {
        Shape::Chain => ("chain of 1,000", 1, 1),
        Shape::Apart => ("10,000 apart", 1, 1),
        Shape::Beside => ("64 beside each other", 1, 1),
        Shape::Under => ("64 under another each", 1, 1),
        Shape::Drawn => ("drawn", 25, 200),
    };
    play.counts = NOTHING_SEEN;
    for _graph in 0..graphs {
        if play_graph(rt.alloc(), shape, commits, play, steps).is_err() {
            play.counts.differences = play.counts.differences.saturating_add(1);
        }
    }
    print_seen(rt, name, &play.counts);
}

/// Prints what was seen.
fn print_seen<R: Print>(rt: &R, name: &str, seen: &Counts) {
    let _told = println!(rt;
        "{name}: {} stores, {} builds into faults, {} commits, {} into faults, {} probes, {} into faults; the last: touch {}, steps at most {}, entries {}, of variables {}, calls {}, by a probe {}; differences: {}",
        seen.stores,
        seen.failed,
        seen.commits,
        seen.ended,
        seen.probes,
        seen.refused,
        seen.touch,
        seen.touch.saturating_mul(4),
        seen.entries,
        seen.variables,
        seen.commit_calls,
        seen.probe_calls,
        seen.differences
    );
}

/// Makes commits in graphs of all shapes, with one trial for all.
fn play_all<R: Print + AllocGlobal, L: Ledger>(blank: Blank, rt: &R)
    requires name { blank.name ≡ L.name }
    requires parts { blank.parts ≡ L.parts }
    requires some { 0 < L.parts }
{
    let calls = AtomicU64::new(0);
    let mut steps = Steps::<L>::new(blank);
    let mut play = Play {
        trial: Trial::new(rt.alloc()),
        draws: Draws::new(2_026),
        calls: &calls,
        counts: NOTHING_SEEN,
        numbers: Vec::new(rt.alloc()),
        failing: None,
        left: 0,
        moved: 0,
    };
    for index in 0..5 {
        let shape = match index {
            0 => Shape::Chain,
            1 => Shape::Apart,
            2 => Shape::Beside,
            3 => Shape::Under,
            _ => Shape::Drawn,
        };
        play_shape(rt, shape, &mut play, &mut steps);
    }
    let _told = println!(rt; "one trial for all: stores that it moved {}", play.moved);
}

fn main(rt: HostRuntime) {
    play_all::<HostRuntime, Brand>(Blank::new(1), &rt);
}
