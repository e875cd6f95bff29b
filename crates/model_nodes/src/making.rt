//! Nodes that are made one after another.
ghost use Rattle.std.specs.Prelude.{◌≡◌, ◌+◌, length, map, IfOk, OnOk};
ghost use Rattle.model_nodes.specs.Making.{About, AreMade, Fits};
ghost use Rattle.model_nodes.specs.CellLists.{AreCellLists};

use cbl_base::{NoMemory, NodeId, NodeRule, Place};
use std::alloc::Global;

/// The nodes so far, and the inputs and the place of each id.
#[derive(Drop)]
pub(crate) struct Making<N: NodeRule> {
    pub(crate) nodes: Vec<N>,
    pub(crate) lists: Vec<Vec<NodeId>>,
    pub(crate) places: Vec<Place>,
}

/// No place.
pub(crate) const NOWHERE: Place = Place { line: 0, col: 0 };

/// So many ids there may be, and inputs of each.
const MOST: usize = 4_294_967_295;

/// The cells, and no node yet.
pub(crate) fn cells_alone<N: NodeRule>(
    alloc: Global,
    lists: Vec<Vec<NodeId>>,
) -> Result<Making<N>, NoMemory>
    ensures made { IfOk result (λ made. (about : About) → AreCellLists about.model lists.items →
        AreMade about (map N.rule made.nodes.items) made.lists.items made.places.items) }
    ensures count { IfOk result (λ made. length made.lists.items ≡ length lists.items) }
{
    if lists.len() > MOST {
        return Err(NoMemory);
    }
    let places = vec![in alloc; NOWHERE; lists.len()]?;
    Ok(Making {
        nodes: Vec::new(alloc),
        lists,
        places,
    })
}

/// A node behind the others, with its inputs and its place.
pub(crate) fn put<N: NodeRule>(
    making: &mut Making<N>,
    node: N,
    inputs: Vec<NodeId>,
    place: Place,
) -> Result<(), NoMemory>
    ghost about: { About }
    requires made { AreMade about (map N.rule making.old.nodes.items)
        making.old.lists.items making.old.places.items }
    requires fits { Fits about (length making.old.lists.items) (N.rule node)
        inputs.items place }
    ensures made { OnOk result (AreMade about (map N.rule making.new.nodes.items)
        making.new.lists.items making.new.places.items) }
    ensures count { OnOk result (length making.new.lists.items ≡
        length making.old.lists.items + 1) }
{
    if making.lists.len() >= MOST {
        return Err(NoMemory);
    }
    if inputs.len() > MOST {
        return Err(NoMemory);
    }
    making.nodes.push(node)?;
    making.lists.push(inputs)?;
    making.places.push(place)?;
    Ok(())
}
