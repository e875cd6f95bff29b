//! The inputs of a model's cells.
ghost use Rattle.std.specs.Prelude.{◌≡◌, length, IfOk, OnOk};
ghost use Rattle.graph_values.specs.Members.{cells_of};
ghost use Rattle.model_nodes.specs.PostedIds.{ArePostedIds};
ghost use Rattle.model_nodes.specs.CellLists.{AreCellLists, IsDefinedBy};

use crate::lists::{empty_lists, set_one};
use cbl_base::{NoMemory, NodeId};
use std::alloc::Global;
use term_model::{Definition, Model, Posted};

/// The id of what was posted is the one input of its variable, where it is a definition.
fn define(
    definitions: &[Definition],
    lists: &mut Vec<Vec<NodeId>>,
    posted: Posted,
    id: NodeId,
) -> Result<(), NoMemory>
    ensures count { OnOk result (length lists.new.items ≡ length lists.old.items) }
    ensures defined { OnOk result (IsDefinedBy definitions.now posted id
        lists.old.items lists.new.items) }
{
    let Posted::Define(number) = posted else {
        return Ok(());
    };
    let Some(definition) = definitions.get(number as usize) else {
        return Ok(());
    };
    let var = definition.var.index as usize;
    if var < lists.len() {
        return set_one(lists, var, id);
    }
    Ok(())
}

/// The inputs of all cells: for a defined variable its definition's term, and for no other cell any.
pub(crate) fn cell_lists(
    alloc: Global,
    model: &Model,
    cells: usize,
    ids: &[NodeId],
) -> Result<Vec<Vec<NodeId>>, NoMemory>
    requires cells { cells ≡ cells_of model.now }
    requires ids { ArePostedIds model.now (cells_of model.now) model.now.posted.items ids.now }
    ensures { IfOk result (λ lists. AreCellLists model.now lists.items) }
{
    let mut lists = empty_lists(alloc, cells)?;
    for turn in 0..model.posted.len() {
        define(&model.defs, &mut lists, model.posted[turn], ids[turn])?;
    }
    Ok(lists)
}
