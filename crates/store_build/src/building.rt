//! Layer by layer each id comes to its outcome.
ghost use Rattle.std.specs.Prelude.{◌≡◌, ℕ, ◌-◌, ◌+◌, ◌<◌, ◌≤◌, length, map, slice_set, Some, IfOk, OnOk, All};
ghost use Rattle.std.specs.List.{Contains};
ghost use Rattle.store_turns.specs.Meaning.{AreLayers, Each, graph_of, layer_of, inputs_in, outcome_of};
ghost use Rattle.store_build.specs.Groups.{IsItem, IsGrouped, ids_in};
ghost use Rattle.store_build.specs.Aims.{Aim, IsAim, IsComputed};
ghost use Rattle.store_build.specs.Building.{HasCome, AreTasks, IsFinished, HasPlaces};

use crate::groups::Item;
use crate::jobs::gather;
use crate::layer_eval::LayerEval;
use crate::lists::nothing;
use crate::values::value_of;
use cbl_base::{NoMemory, NodeRule};
use std::alloc::Global;
use store_turns::{Frame, Outcome};

/// What each id came to so far, and the nodes that were reset, each in its place.
#[derive(Drop)]
pub(crate) struct Building<N: NodeRule> {
    pub(crate) outcomes: Vec<Option<Outcome>>,
    pub(crate) nodes: Vec<Option<N>>,
}

/// A node that was reset comes to its outcome, and takes its place.
fn keep_node<N: NodeRule>(
    first: u32,
    id: u32,
    node: N,
    building: &mut Building<N>,
) -> Result<(), NoMemory>
    requires ready { N.ready node }
    requires within { id < length building.old.outcomes.items }
    requires behind { first ≤ id }
    requires place { id - first < length building.old.nodes.items }
    ensures outcomes { OnOk result (building.new.outcomes.items ≡
        slice_set building.old.outcomes.items id
        (Some (outcome_of ((N.rule node).value (N.held node))))) }
    ensures nodes { OnOk result (building.new.nodes.items ≡
        slice_set building.old.nodes.items (id - first) (Some node)) }
{
    let outcome = value_of(&node)?;
    building.outcomes[id as usize] = Some(outcome);
    building.nodes[(id - first) as usize] = Some(node);
    Ok(())
}

/// The nodes of a layer, which were reset, come to their outcomes.
fn keep_nodes<N: NodeRule>(
    frame: &Frame,
    ids: &[u32],
    nodes: Vec<N>,
    building: &mut Building<N>,
) -> Result<(), NoMemory>
    ghost aim: { Aim }
    requires computed { IsComputed aim frame.now }
    requires count { frame.now.first + length aim.rules ≡ length frame.now.inputs.items }
    requires places { HasPlaces aim frame.now building.old }
    requires ready { All N.ready nodes.items }
    requires tasks { AreTasks aim frame.now ids.now (map N.rule nodes.items)
        (map N.held nodes.items) }
    ensures places { OnOk result (HasPlaces aim frame.now building.new) }
    ensures kept { OnOk result ((k : ℕ) →
        IsFinished N.rule N.held N.ready aim frame.now building.old k →
        IsFinished N.rule N.held N.ready aim frame.now building.new k) }
    ensures all { OnOk result ((k : ℕ) → Contains ids.now k →
        IsFinished N.rule N.held N.ready aim frame.now building.new k) }
{
    let mut place = 0;
    for node in nodes {
        keep_node(frame.first, ids[place], node, building)?;
        place += 1;
    }
    Ok(())
}

/// All of a layer comes to its outcomes.
fn build_layer<N: NodeRule, E: LayerEval<N>>(
    alloc: Global,
    frame: &Frame,
    start: &[i64],
    group: Vec<Item<N>>,
    building: &mut Building<N>,
    eval: &E,
) -> Result<(), NoMemory>
    ghost aim: { Aim }
    requires aim { IsAim aim frame.now start.now }
    requires places { HasPlaces aim frame.now building.old }
    requires items { All (λ i. IsItem N.rule aim.rules frame.now.first i ×
        (i.id < length frame.now.inputs.items) ×
        Each (HasCome aim.outcome building.old.outcomes.items)
        (inputs_in frame.now i.id)) group.items }
    ensures places { OnOk result (HasPlaces aim frame.now building.new) }
    ensures kept { OnOk result ((k : ℕ) →
        IsFinished N.rule N.held N.ready aim frame.now building.old k →
        IsFinished N.rule N.held N.ready aim frame.now building.new k) }
    ensures all { OnOk result ((k : ℕ) → Contains (ids_in group.items) k →
        IsFinished N.rule N.held N.ready aim frame.now building.new k) }
{
    let gathered = gather(alloc, frame, start, &mut building.outcomes, group)?;
    let ids = gathered.ids;
    let nodes = eval.reset(alloc, gathered.jobs)?;
    keep_nodes(frame, &ids, nodes, building)
}

/// Layer by layer each id comes to its outcome.
pub(crate) fn build_layers<N: NodeRule, E: LayerEval<N>>(
    alloc: Global,
    frame: &Frame,
    start: &[i64],
    groups: Vec<Vec<Item<N>>>,
    eval: &E,
) -> Result<Building<N>, NoMemory>
    ghost aim: { Aim }
    requires aim { IsAim aim frame.now start.now }
    requires layers { AreLayers (graph_of aim.rules frame.now) (layer_of frame.now) }
    requires groups { IsGrouped N.rule aim.rules frame.now.first frame.now.layers.items
        (length frame.now.inputs.items) groups.items }
    ensures places { IfOk result (λ b. HasPlaces aim frame.now b) }
    ensures all { IfOk result (λ b. (k : ℕ) → k < length frame.now.inputs.items →
        IsFinished N.rule N.held N.ready aim frame.now b k) }
{
    let count = frame.inputs.len();
    let mut building = Building {
        outcomes: nothing(alloc, count)?,
        nodes: nothing(alloc, count - frame.first as usize)?,
    };
    for group in groups {
        build_layer(alloc, frame, start, group, &mut building, eval)?;
    }
    Ok(building)
}
