//! The ids of each layer.
ghost use Rattle.std.specs.Prelude.{◌≡◌, ◌≢◌, ℕ, ◌+◌, ◌<◌, ◌++◌, [], ◌∷◌, length, map, slice_index_or, IfOk, OnOk, vec_len};
ghost use Rattle.store_build.specs.Groups.{IsGrouped};
ghost use Rattle.store_build.specs.Lists.{list_in};

use crate::lists::{grow, put};
use cbl_base::{NoMemory, NodeRule};
use layer_plan::Layers;
use std::alloc::Global;

/// An id, with its node where it isn't a cell.
#[derive(Drop)]
pub(crate) struct Item<N: NodeRule> {
    pub(crate) id: u32,
    pub(crate) node: Option<N>,
}

/// The layer of each id.
pub(crate) fn layers_of(alloc: Global, layers: &Layers) -> Result<Vec<u32>, NoMemory>
    requires few { length layers.now < 4294967296 }
    ensures { IfOk result (λ list. list.items ≡ layers.now) }
{
    let mut list = Vec::with_capacity(alloc, layers.len())?;
    for id in 0..layers.len() as u32 {
        list.push(layers.layer(id))?;
    }
    Ok(list)
}

/// One id more, in the group of its layer.
fn add_item<N: NodeRule>(
    alloc: Global,
    groups: &mut Vec<Vec<Item<N>>>,
    layers: &[u32],
    item: Item<N>,
) -> Result<(), NoMemory>
    requires within { item.id < length layers.now }
    ensures here { OnOk result (list_in groups.new.items (slice_index_or layers.now item.id 0) ≡
        list_in groups.old.items (slice_index_or layers.now item.id 0) ++ item ∷ []) }
    ensures elsewhere { OnOk result ((i : ℕ) → i ≢ slice_index_or layers.now item.id 0 →
        list_in groups.new.items i ≡ list_in groups.old.items i) }
{
    let layer = layers[item.id as usize] as usize;
    grow(alloc, groups, layer + 1)?;
    put(groups, layer, item)
}

/// The ids of each layer, each with its node where it isn't a cell: the cells are below `first`.
pub(crate) fn groups_of<N: NodeRule>(
    alloc: Global,
    nodes: Vec<N>,
    first: u32,
    layers: &[u32],
) -> Result<Vec<Vec<Item<N>>>, NoMemory>
    requires count { first + vec_len nodes ≡ length layers.now }
    requires few { length layers.now < 4294967296 }
    ensures { IfOk result (λ groups. IsGrouped N.rule (map N.rule nodes.items) first layers.now
        (length layers.now) groups.items) }
{
    let mut groups = Vec::new(alloc);
    for id in 0..first {
        add_item(alloc, &mut groups, layers, Item { id, node: None })?;
    }
    let mut id = first;
    for node in nodes {
        let node = Some(node);
        add_item(alloc, &mut groups, layers, Item { id, node })?;
        id += 1;
    }
    Ok(groups)
}
