//! Stores over plain lists of ids.
ghost use Rattle.std.specs.Prelude.{◌≡◌, length, map, All, IsTrue, IfOk};
ghost use Rattle.inc_store.specs.Views.{IsUsable};
ghost use Rattle.store_turns.specs.Meaning.{ids_of, lists_of};
ghost use Rattle.store_runs.specs.Linked.{AreLists, AreWithin};
ghost use Rattle.store_runs.specs.Numbers.{IsOfNumbers};

use crate::counted::Counted;
use cbl_base::{NoMemory, NodeId, NodeRule, RunFault};
use inc_store::{Links, PlainEval, Store, StoreFault};
use layer_plan::{PlanStop, plan};
use node_base::OverNumbers;
use node_num::Sum;
use std::alloc::Global;
use std::sync::atomic::AtomicU64;

/// A sum, each call of which is counted.
pub(crate) type CountedSum<'a> = Counted<'a, OverNumbers<Sum>>;

/// There is no store.
#[derive(Clone, Copy, Drop)]
pub(crate) enum NoStore {
    /// This node's sum doesn't fit 64 bits.
    Overflow(u32),
    /// A node fails otherwise, there is no memory, or the lists aren't those of a graph.
    Other,
}

impl From<NoMemory> for NoStore {
    fn from(_error: NoMemory) -> NoStore {
        NoStore::Other
    }
}

impl From<PlanStop> for NoStore {
    fn from(_stop: PlanStop) -> NoStore {
        NoStore::Other
    }
}

impl From<StoreFault> for NoStore {
    fn from(fault: StoreFault) -> NoStore {
        match fault {
            StoreFault::Node(node, RunFault::Overflow) => NoStore::Overflow(node.0),
            _ => NoStore::Other,
        }
    }
}

/// Most ids that a graph has.
const MOST: usize = 1_000_000;

/// A node that sums its inputs, and counts its calls here.
fn counted_sum<'a>(alloc: Global, calls: &'a AtomicU64) -> CountedSum<'a>
    ensures { IsOfNumbers (⟦<CountedSum<'a> as NodeRule>⟧.rule result) }
{
    Counted::new(OverNumbers::new(alloc, Sum::new(alloc)), calls)
}

/// So many nodes, whose calls are counted here.
pub(crate) fn counted_sums<'a>(
    alloc: Global,
    count: usize,
    calls: &'a AtomicU64,
) -> Result<Vec<CountedSum<'a>>, NoMemory>
    ensures { IfOk result (λ v. All (λ n.
        IsOfNumbers (⟦<CountedSum<'a> as NodeRule>⟧.rule n)) v.items) }
{
    let mut nodes = Vec::new(alloc);
    for _node in 0..count {
        nodes.push(counted_sum(alloc, calls))?;
    }
    Ok(nodes)
}

/// A store of these nodes, over these numbers in its cells.
pub(crate) fn store_of<N: NodeRule>(
    alloc: Global,
    nodes: Vec<N>,
    lists: &[Vec<u32>],
    numbers: &[i64],
) -> Result<Store<N>, NoStore>
    requires { All (λ n. IsOfNumbers (N.rule n)) nodes.items }
    ensures { IfOk result (λ s. IsUsable N.rule N.held N.ready s) }
{
    if !are_lists(lists, numbers.len(), nodes.len()) {
        return Err(NoStore::Other);
    }
    let layers = plan(alloc, lists)?;
    let links = links_of(alloc, lists)?;
    let store = Store::build(alloc, nodes, links, numbers, &layers, &PlainEval)?;
    Ok(store)
}

/// Whether a store can be built of these lists, of which the first are those of cells.
fn are_lists(lists: &[Vec<u32>], cells: usize, nodes: usize) -> bool
    ensures { IsTrue result → AreLists lists.now cells nodes }
{
    if lists.len() > MOST {
        return false;
    }
    if cells > lists.len() {
        return false;
    }
    if lists.len() - cells != nodes {
        return false;
    }
    if !are_within(lists, lists.len(), 1000) {
        return false;
    }
    are_within(&lists[..cells], lists.len(), 1)
}

/// Whether none of these lists is longer than this, and all in them are below the count.
fn are_within(lists: &[Vec<u32>], count: usize, most: usize) -> bool
    ensures { IsTrue result → AreWithin count most lists.now }
{
    for list in lists {
        if list.len() > most {
            return false;
        }
        for id in list {
            if *id as usize >= count {
                return false;
            }
        }
    }
    true
}

/// The same lists, of ids.
fn links_of(alloc: Global, lists: &[Vec<u32>]) -> Result<Links, NoMemory>
    ensures { IfOk result (λ l. map (λ v. ids_of v.items) l.inputs.items ≡ lists_of lists.now) }
{
    let mut inputs = Vec::with_capacity(alloc, lists.len())?;
    for list in lists {
        inputs.push(ids_of(alloc, list.as_slice())?)?;
    }
    Ok(Links { inputs })
}

/// A list of ids.
fn ids_of(alloc: Global, list: &[u32]) -> Result<Vec<NodeId>, NoMemory>
    ensures { IfOk result (λ ids. ids_of ids.items ≡ list.now) }
{
    let mut ids = Vec::with_capacity(alloc, list.len())?;
    for id in list {
        ids.push(NodeId(*id))?;
    }
    Ok(ids)
}
