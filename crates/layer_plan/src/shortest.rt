//! The shortest cycle through an item, along the items that are nearer and nearer to it.
ghost use Rattle.std.specs.Prelude.{◌≡◌, ℕ, ◌<◌, List, length, slice_index, IfOk};
ghost use Rattle.std.specs.Bool.{OnTrue, OnFalse};
ghost use Rattle.layer_plan.specs.Dependencies.{list_of, DependsOn, AreItems};
ghost use Rattle.layer_plan.specs.NamedCycle.{IsNamedCycle};
ghost use Rattle.layer_plan.specs.Nearness.{IsNear, IsLeastOnCycle, ComesFirst};

use crate::search::{entry, list_of};
use cbl_base::NoMemory;
use std::alloc::Global;

/// Whether the one item is nearer than the other, or as near and less.
fn comes_first(near: &[u32], item: u32, other: u32) -> bool
    requires item { item < length near.now }
    requires other { other < length near.now }
    ensures yes { OnTrue result (ComesFirst (slice_index near.now) item other) }
    ensures no { OnFalse result (ComesFirst (slice_index near.now) other item) }
{
    let steps = near[item as usize];
    let others = near[other as usize];
    steps < others || steps == others && item < other
}

/// Among the items that the item depends on, at least one, the nearest, and the least of those.
fn nearest(deps: &[Vec<u32>], near: &[u32], item: u32) -> u32
    requires items { AreItems deps.now }
    requires near { length near.now ≡ length deps.now }
    requires item { item < length deps.now }
    requires some { 0 < length (list_of deps.now item) }
    ensures depends { DependsOn deps.now item result }
    ensures first { (w : ℕ) → DependsOn deps.now item w →
        ComesFirst (slice_index near.now) result w }
{
    let mut best = entry(deps, item, 0);
    for place in 1..list_of(deps, item).len() {
        let next = entry(deps, item, place);
        if comes_first(near, next, best) {
            best = next;
        }
    }
    best
}

/// The shortest cycle through the root, the first in the order of lists among equally short ones.
pub(crate) fn shortest_cycle(
    alloc: Global,
    deps: &[Vec<u32>],
    near: &[u32],
    root: u32,
) -> Result<Vec<u32>, NoMemory>
    requires items { AreItems deps.now }
    requires count { length near.now ≡ length deps.now }
    requires near { IsNear deps.now (slice_index near.now) root }
    requires root { IsLeastOnCycle deps.now root }
    ensures { IfOk result (λ list. IsNamedCycle deps.now list.items) }
{
    let mut list = vec![in alloc; root]?;
    let mut item = nearest(deps, near, root);
    while item != root {
        list.push(item)?;
        item = nearest(deps, near, item);
    }
    Ok(list)
}
