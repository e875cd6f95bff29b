//! A store is built.
ghost use Rattle.std.specs.Prelude.{◌≡◌, ℕ, ◌<◌, true, length, map, take, vec_len, IfOk, IfErr, All};
ghost use Rattle.cbl_base.specs.declared.input.Input.{Input};
ghost use Rattle.store_turns.specs.declared.outcome.Outcome.{Outcome};
ghost use Rattle.store_turns.specs.Meaning.{IsMeaning, graph_of, uses_in};
ghost use Rattle.store_build.specs.Frames.{cell_of};
ghost use Rattle.store_build.specs.Kept.{IsKept};
ghost use Rattle.store_build.specs.Stops.{IsStop};
ghost use Rattle.store_build.specs.Aims.{Aim, IsAim, IsLaid, AreLinked, Takes, graph_over, start_of};
ghost use Rattle.store_build.specs.declared.cones.TheConstants.{MOST_CONES};
ghost use Rattle.store_build.specs.Unused.{unused_below};

use crate::building::build_layers;
use crate::cones::cones_of;
use crate::groups::{groups_of, layers_of};
use crate::layer_eval::LayerEval;
use crate::links::Links;
use crate::parts::{Parts, StoreFault};
use crate::uses::uses_of;
use crate::whole::{all_there, first_fault, values_there};
use cbl_base::{NodeId, NodeRule};
use layer_plan::Layers;
use std::alloc::Global;
use store_turns::Frame;

/// The nodes of a frame, each reset to its inputs' values, and the value of each id.
fn build_over<N: NodeRule, E: LayerEval<N>>(
    alloc: Global,
    frame: Frame,
    nodes: Vec<N>,
    start: &[i64],
    eval: &E,
) -> Result<Parts<N>, StoreFault>
    ghost aim: { Aim }
    requires rules { aim.rules ≡ map N.rule nodes.items }
    requires laid { IsLaid aim.rules frame }
    requires aim { IsAim aim frame start.now }
    ensures ready { IfOk result (λ p. All N.ready p.nodes.items) }
    ensures rules { IfOk result (λ p. map N.rule p.nodes.items ≡ aim.rules) }
    ensures frame { IfOk result (λ p. p.frame ≡ frame) }
    ensures kept { IfOk result (λ p. IsKept aim.rules
        (map N.held p.nodes.items) frame p.values.items) }
    ensures free { IfOk result (λ p. (j : ℕ) → j < length frame.inputs.items →
        (graph_of aim.rules frame).is_free j ≡ true →
        cell_of p.values.items j ≡ start_of start.now j) }
    ensures fault { IfErr result (λ stop.
        IsStop (graph_of aim.rules frame) (start_of start.now) stop) }
{
    let groups = groups_of(alloc, nodes, frame.first, &frame.layers)?;
    let building = build_layers(alloc, &frame, start, groups, eval)?;
    let outcomes = building.outcomes;
    let places = building.nodes;
    match first_fault(&outcomes) {
        Some((id, fault)) => Err(StoreFault::Node(NodeId(id), fault)),
        None => {
            let values = values_there(alloc, outcomes)?;
            let nodes = all_there(alloc, places)?;
            Ok(Parts {
                nodes,
                frame,
                values,
            })
        }
    }
}

/// The parts of a store: its nodes, each reset to its inputs' values, how they hang together, and the
/// value of each id. `Node` with the least node whose own operation fails though all its inputs have
/// values, exactly where there is one, and its fault.
///
/// There are as many cells as numbers to start with, with the ids from 0, and the nodes come behind them.
/// A cell without inputs is free and starts with its number; another takes the value of the one id in its
/// list. Each id must be in a higher layer than those whose values it takes, as `plan` gives them. The
/// frame has the cones of the ids that nothing uses, at most `MOST_CONES`: those of the greatest ids.
pub fn parts_of<N: NodeRule, E: LayerEval<N>>(
    alloc: Global,
    nodes: Vec<N>,
    links: Links,
    start: &[i64],
    layers: &Layers,
    eval: &E,
) -> Result<Parts<N>, StoreFault>
    requires linked { AreLinked (map N.rule nodes.items)
        (length start.now) links.inputs.items layers.now }
    requires takes { (o : ℕ → Outcome) →
        IsMeaning (graph_over (map N.rule nodes.items) (length start.now) links.inputs.items)
        (start_of start.now) o → Takes (map N.rule nodes.items)
        (length start.now) links.inputs.items o }
    ensures ready { IfOk result (λ p. All N.ready p.nodes.items) }
    ensures rules { IfOk result (λ p. map N.rule p.nodes.items ≡ map N.rule nodes.items) }
    ensures first { IfOk result (λ p. p.frame.first ≡ length start.now) }
    ensures inputs { IfOk result (λ p. p.frame.inputs ≡ links.inputs) }
    ensures layers { IfOk result (λ p. p.frame.layers.items ≡ layers.now) }
    ensures targets { IfOk result (λ p. map (λ c. c.target) p.frame.cones.items ≡
        take MOST_CONES (unused_below (uses_in p.frame) (length p.frame.inputs.items))) }
    ensures kept { IfOk result (λ p. IsKept (map N.rule p.nodes.items)
        (map N.held p.nodes.items) p.frame p.values.items) }
    ensures free { IfOk result (λ p. (j : ℕ) → j < length links.inputs.items →
        (graph_over (map N.rule nodes.items) (length start.now) links.inputs.items).is_free j ≡
        true → cell_of p.values.items j ≡ start_of start.now j) }
    ensures fault { IfErr result (λ stop.
        IsStop (graph_over (map N.rule nodes.items) (length start.now) links.inputs.items)
        (start_of start.now) stop) }
{
    let first = start.len() as u32;
    let list = layers_of(alloc, layers)?;
    let uses = uses_of(alloc, &links.inputs)?;
    let cones = cones_of(alloc, &links.inputs, &uses)?;
    let frame = Frame {
        first,
        inputs: links.inputs,
        layers: list,
        uses,
        cones,
    };
    build_over(alloc, frame, nodes, start, eval)
}
