//! The nodes of a model, part by part.
ghost use Rattle.std.specs.Prelude.{◌≡◌, ◌+◌, ◌-◌, ◌<◌, ◌++◌, length, map, IfOk, OnOk};
ghost use Rattle.std.specs.List.{range_with_len};
ghost use Rattle.graph_values.specs.Graphs.{count_of};
ghost use Rattle.graph_values.specs.Members.{cells_of, members_by};
ghost use Rattle.graph_values.specs.WholeGraphs.{first_objective, first_repeat, first_system};
ghost use Rattle.model_nodes.specs.Gathered.{AreGathered};
ghost use Rattle.model_nodes.specs.Making.{About, AreMade};
ghost use Rattle.model_nodes.specs.Totals.{first_total, first_weight};
ghost use Rattle.model_nodes.specs.Waiting.{AreLeft, AreWaiting};
ghost use Rattle.store_turns.specs.Meaning.{ids_of};
ghost use Rattle.term_graph.specs.Graphs.{HasNode, IsGraphOf};
ghost use Rattle.term_model.specs.Posting.{totals_by};
ghost use Rattle.term_model.specs.Subterms.{distinct_subterms};
ghost use Rattle.term_model.specs.Wellformed.{IsWellFormed};
ghost use Rattle.term_model.specs.declared.posting.Side.TheVariants.{Objectives};

use crate::heads::head_node;
use crate::making::{Making, NOWHERE, put};
use cbl_base::{NoMemory, NodeId, NodeValue};
use node_kinds::SolverNode;
use std::alloc::Global;
use term_graph::Graph;
use term_model::{Model, Side, totals_by};

/// The node of a subterm.
fn put_term<N: SolverNode>(
    alloc: Global,
    graph: &Graph,
    id: NodeId,
    waiting: &mut Vec<Option<N>>,
    making: &mut Making<N>,
) -> Result<(), NoMemory>
    ghost about: { About }
    requires node { HasNode graph.now id }
    requires graph { IsGraphOf graph.now (distinct_subterms about.model) }
    requires cells { graph.now.cells ≡ cells_of about.model }
    requires formed { IsWellFormed about.model }
    requires waiting { AreWaiting N.rule about.users waiting.old.items }
    requires left { AreLeft about.model (id.0 - cells_of about.model) waiting.old.items }
    requires made { AreMade about (map N.rule making.old.nodes.items)
        making.old.lists.items making.old.places.items }
    requires next { length making.old.lists.items ≡ id.0 }
    ensures waiting { OnOk result (AreWaiting N.rule about.users waiting.new.items) }
    ensures left { OnOk result (AreLeft about.model (id.0 - cells_of about.model + 1)
        waiting.new.items) }
    ensures made { OnOk result (AreMade about (map N.rule making.new.nodes.items)
        making.new.lists.items making.new.places.items) }
    ensures count { OnOk result (length making.new.lists.items ≡ id.0 + 1) }
{
    let node = head_node(alloc, graph.head(id), waiting)?;
    let inputs = Vec::from_slice(alloc, graph.inputs(id))?;
    put(making, node, inputs, graph.place(id))
}

/// The nodes of all subterms.
pub(crate) fn put_terms<N: SolverNode>(
    alloc: Global,
    graph: &Graph,
    waiting: &mut Vec<Option<N>>,
    making: &mut Making<N>,
) -> Result<(), NoMemory>
    ghost about: { About }
    requires graph { IsGraphOf graph.now (distinct_subterms about.model) }
    requires cells { graph.now.cells ≡ cells_of about.model }
    requires formed { IsWellFormed about.model }
    requires waiting { AreWaiting N.rule about.users waiting.old.items }
    requires left { AreLeft about.model 0 waiting.old.items }
    requires made { AreMade about (map N.rule making.old.nodes.items)
        making.old.lists.items making.old.places.items }
    requires next { length making.old.lists.items ≡ cells_of about.model }
    ensures made { OnOk result (AreMade about (map N.rule making.new.nodes.items)
        making.new.lists.items making.new.places.items) }
    ensures count { OnOk result (length making.new.lists.items ≡ count_of about.model) }
{
    for place in 0..graph.len() {
        let id = NodeId(graph.cells() + place as u32);
        put_term(alloc, graph, id, waiting, making)?;
    }
    Ok(())
}

/// Constants of the weights of the objectives' members.
pub(crate) fn put_weights<N: SolverNode>(
    alloc: Global,
    weights: &[i64],
    making: &mut Making<N>,
) -> Result<(), NoMemory>
    ghost about: { About }
    requires weights { weights.now ≡ map (λ m. m.weight) (members_by about.model Objectives) }
    requires made { AreMade about (map N.rule making.old.nodes.items)
        making.old.lists.items making.old.places.items }
    requires next { length making.old.lists.items ≡ count_of about.model }
    ensures made { OnOk result (AreMade about (map N.rule making.new.nodes.items)
        making.new.lists.items making.new.places.items) }
    ensures count { OnOk result (length making.new.lists.items ≡ first_system about.model) }
{
    for weight in weights {
        let node = N::of_constant(NodeValue::Int(*weight));
        put(making, node, Vec::new(alloc), NOWHERE)?;
    }
    Ok(())
}

/// The inputs of a total: its members, and behind them as many weights, from this one on.
fn total_inputs(alloc: Global, ids: &[NodeId], first: u32) -> Result<Vec<NodeId>, NoMemory>
    requires { first + length ids.now < 4294967296 }
    ensures { IfOk result (λ v. ids_of v.items ≡
        ids_of ids.now ++ range_with_len first (length ids.now)) }
{
    let mut inputs = Vec::from_slice(alloc, ids)?;
    for place in 0..ids.len() {
        inputs.push(NodeId(first + place as u32))?;
    }
    Ok(inputs)
}

/// The totals of the systems, or of the objectives.
pub(crate) fn put_totals<N: SolverNode>(
    alloc: Global,
    model: &Model,
    side: Side,
    members: &[Vec<NodeId>],
    first: u32,
    making: &mut Making<N>,
) -> Result<(), NoMemory>
    ghost about: { About }
    requires model { about.model ≡ model.now }
    requires members { AreGathered model.now side members.now }
    requires first { first ≡ first_weight model.now side }
    requires room { first + length (members_by model.now side) < 4294967296 }
    requires made { AreMade about (map N.rule making.old.nodes.items)
        making.old.lists.items making.old.places.items }
    requires next { length making.old.lists.items ≡ first_total model.now side }
    ensures made { OnOk result (AreMade about (map N.rule making.new.nodes.items)
        making.new.lists.items making.new.places.items) }
    ensures count { OnOk result (length making.new.lists.items ≡
        first_total model.now side + length (totals_by model.now side)) }
{
    let mut next = first;
    let totals = totals_by(model, side);
    for number in 0..totals.len() {
        let ids = &members[number];
        let count = ids.len() as u32;
        let inputs = total_inputs(alloc, ids, next)?;
        put(
            making,
            N::of_total(alloc, count),
            inputs,
            totals[number].place,
        )?;
        next += count;
    }
    Ok(())
}

/// A node for each objective that repeats its total.
pub(crate) fn put_repeats<N: SolverNode>(
    alloc: Global,
    first: u32,
    count: usize,
    making: &mut Making<N>,
) -> Result<(), NoMemory>
    ghost about: { About }
    requires first { first ≡ first_objective about.model }
    requires count { count ≡ length about.model.objectives.items }
    requires made { AreMade about (map N.rule making.old.nodes.items)
        making.old.lists.items making.old.places.items }
    requires next { length making.old.lists.items ≡ first_repeat about.model }
    ensures made { OnOk result (AreMade about (map N.rule making.new.nodes.items)
        making.new.lists.items making.new.places.items) }
    ensures count { OnOk result (length making.new.lists.items ≡
        first_repeat about.model + count) }
{
    for number in 0..count {
        let mut inputs = Vec::new(alloc);
        inputs.push(NodeId(first + number as u32))?;
        put(making, N::of_repeat(alloc), inputs, NOWHERE)?;
    }
    Ok(())
}
