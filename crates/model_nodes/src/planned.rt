//! The layers of a model's nodes.
ghost use Rattle.std.specs.Prelude.{◌≡◌, ◌<◌, ◌^◌, length, map, IfOk};
ghost use Rattle.model_nodes.specs.Planned.{ArePlanned, HasLayers};
ghost use Rattle.store_turns.specs.Meaning.{ids_of};

use cbl_base::{NoMemory, NodeId};
use layer_plan::{Layers, plan};
use std::alloc::Global;

/// Ids as numbers.
fn numbers_of_ids(alloc: Global, ids: &[NodeId]) -> Result<Vec<u32>, NoMemory>
    ensures { IfOk result (λ v. v.items ≡ ids_of ids.now) }
{
    let mut numbers = Vec::with_capacity(alloc, ids.len())?;
    for id in ids {
        numbers.push(id.0)?;
    }
    Ok(numbers)
}

/// The same of lists of ids.
fn numbers_of_lists(alloc: Global, lists: &[Vec<NodeId>]) -> Result<Vec<Vec<u32>>, NoMemory>
    ensures { IfOk result (λ v. map (λ n. n.items) v.items ≡ map (λ l. ids_of l.items) lists.now) }
{
    let mut numbers = Vec::with_capacity(alloc, lists.len())?;
    for list in lists {
        numbers.push(numbers_of_ids(alloc, list)?)?;
    }
    Ok(numbers)
}

/// The layer of each id, from the inputs of all, which don't lead in a circle.
pub(crate) fn layers_of(alloc: Global, lists: &[Vec<NodeId>]) -> Result<Layers, NoMemory>
    requires few { length lists.now < 2 ^ 32 }
    requires layers { HasLayers lists.now }
    ensures { IfOk result (λ layers. ArePlanned lists.now layers) }
{
    let numbers = numbers_of_lists(alloc, lists)?;
    match plan(alloc, &numbers) {
        Ok(layers) => Ok(layers),
        Err(_) => Err(NoMemory),
    }
}
