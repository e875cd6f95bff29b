//! A store is built of parts over plain lists of ids.
ghost use Rattle.std.specs.Prelude.{◌≡◌, ◌+◌, ◌≤◌, true, length, map, IfOk};
ghost use Rattle.std.specs.List.{list_all};
ghost use Rattle.store_turns.specs.Meaning.{ids_of, lists_of};
ghost use Rattle.inc_store.specs.Views.{IsUsable, graph_in};
ghost use Rattle.bench.specs.Parts.{AreLists, FreeBelow, is_below, AreTaken, is_list, is_none};

use crate::stop::Stop;
use crate::store::parts::{Part, nodes_of, takes};
use crate::store::pieces::Piece;
use crate::store::queens::queens;
use cbl_base::{NoMemory, NodeId, NodeRule};
use inc_store::Store;
use layer_plan::plan;
use node_base::OverNumbers;
use std::alloc::Global;
use store_build::{Links as Inputs, PlainEval};

/// A store over so many queens, whose cells start with these numbers.
pub(crate) fn store_of(
    alloc: Global,
    count: u32,
    start: &[i64],
) -> Result<Store<OverNumbers<Piece>>, Stop>
    requires few { count ≤ 1000000 }
    ensures usable { IfOk result (λ s. IsUsable ⟦<OverNumbers<Piece> as NodeRule>⟧.rule ⟦<OverNumbers<Piece> as NodeRule>⟧.held ⟦<OverNumbers<Piece> as NodeRule>⟧.ready s) }
    ensures free { IfOk result (λ s. FreeBelow (length start.now)
        (graph_in ⟦<OverNumbers<Piece> as NodeRule>⟧.rule s)) }
{
    let links = queens(alloc, count)?;
    let lists = links.lists.as_slice();
    let parts = links.parts.as_slice();
    if !are_lists(lists, start.len(), parts) {
        return Err(Stop::Store);
    }
    let nodes = nodes_of(alloc, parts)?;
    let layers = plan(alloc, lists)?;
    let inputs = inputs_of(alloc, lists)?;
    let store = Store::build(alloc, nodes, inputs, start, &layers, &PlainEval)?;
    Ok(store)
}

/// Whether a store can be built of these lists, of which the first are those of free cells.
fn are_lists(lists: &[Vec<u32>], cells: usize, parts: &[Part]) -> bool
    ensures { result ≡ true → AreLists lists.now cells parts.now }
{
    if lists.len() > 10_000_000 {
        return false;
    }
    if cells > lists.len() {
        return false;
    }
    if lists.len() - cells != parts.len() {
        return false;
    }
    if !are_within(lists, lists.len()) {
        return false;
    }
    if !are_empty(&lists[..cells]) {
        return false;
    }
    are_taken(parts, lists, cells)
}

/// Whether none of these lists is long, and all in them are below the count.
fn are_within(lists: &[Vec<u32>], count: usize) -> bool
    ensures { result ≡ list_all (λ v. is_list count v.items) lists.now }
{
    lists.iter().all(|list| is_list(list, count))
}

/// Whether each of these lists is empty.
fn are_empty(lists: &[Vec<u32>]) -> bool
    ensures { result ≡ list_all (λ v. is_none v.items) lists.now }
{
    lists.iter().all(|list| is_none(list))
}

/// Whether each part takes as many numbers as there are in its list, of those behind the cells.
fn are_taken(parts: &[Part], lists: &[Vec<u32>], cells: usize) -> bool
    requires { cells + length parts.now ≡ length lists.now }
    ensures { result ≡ true → AreTaken parts.now lists.now cells }
{
    for (place, part) in parts.iter().enumerate() {
        if !takes(*part, lists[cells + place].len()) {
            return false;
        }
    }
    true
}

fn is_list(list: &Vec<u32>, count: usize) -> bool
    ensures { result ≡ is_list count list.now.items }
{
    list.len() <= 10_000_000 && are_below(list.as_slice(), count)
}

fn is_none(list: &Vec<u32>) -> bool
    ensures { result ≡ is_none list.now.items }
{
    list.len() == 0
}

fn are_below(list: &[u32], count: usize) -> bool
    ensures { result ≡ list_all (is_below count) list.now }
{
    list.iter().all(|id| is_below(*id, count))
}

fn is_below(id: u32, count: usize) -> bool
    ensures { result ≡ is_below count id }
{
    (id as usize) < count
}

/// The same lists, of ids.
fn inputs_of(alloc: Global, lists: &[Vec<u32>]) -> Result<Inputs, NoMemory>
    ensures { IfOk result (λ links. map (λ v. ids_of v.items) links.inputs.items ≡
        lists_of lists.now) }
{
    let mut inputs = Vec::with_capacity(alloc, lists.len())?;
    for list in lists {
        inputs.push(ids_of(alloc, list.as_slice())?)?;
    }
    Ok(Inputs { inputs })
}

/// A list of ids.
fn ids_of(alloc: Global, list: &[u32]) -> Result<Vec<NodeId>, NoMemory>
    ensures { IfOk result (λ ids. ids_of ids.items ≡ list.now) }
{
    let mut ids = Vec::with_capacity(alloc, list.len())?;
    for id in list {
        ids.push(NodeId(*id))?;
    }
    Ok(ids)
}
