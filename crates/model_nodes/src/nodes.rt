//! All that a store is given for a model.
ghost use Rattle.std.specs.Prelude.{◌≡◌, ◌+◌, ◌≤◌, ◌^◌, ℕ, length, map, IfOk, OnOk};
ghost use Rattle.cbl_base.specs.declared.limits.TheConstants.{MAX_TERM_NODES};
ghost use Rattle.graph_values.specs.Graphs.{count_of};
ghost use Rattle.graph_values.specs.Members.{cells_of, numbers_of, variables_of};
ghost use Rattle.graph_values.specs.WholeGraphs.{first_system};
ghost use Rattle.model_nodes.specs.Making.{About, AreMade, ArePlaces};
ghost use Rattle.model_nodes.specs.PostedIds.{ArePostedIds};
ghost use Rattle.model_nodes.specs.WholeNodes.{AreWholeNodes};
ghost use Rattle.model_nodes.specs.Waiting.{AreUserNodes};
ghost use Rattle.store_build.specs.Aims.{AreLinked};
ghost use Rattle.store_build.specs.Lists.{list_in};
ghost use Rattle.store_laws.specs.ModelTouch.{many_nodes};
ghost use Rattle.term_graph.specs.Graphs.{IsGraphOf};
ghost use Rattle.term_model.specs.Definitions.{IsAcyclic};
ghost use Rattle.term_model.specs.Naming.{users_posted};
ghost use Rattle.term_model.specs.Subterms.{distinct_subterms};
ghost use Rattle.term_model.specs.Wellformed.{IsWellFormed};

use crate::cells::cell_lists;
use crate::heads::waiting_of;
use crate::making::{Making, cells_alone};
use crate::members::member_ids;
use crate::numbers::{numbers_of, weights_by};
use crate::parts::{put_repeats, put_terms, put_totals, put_weights};
use crate::planned::layers_of;
use crate::terms::terms_of;
use cbl_base::{NoMemory, NodeId, NodeRule, Place};
use inc_store::Links;
use layer_plan::Layers;
use node_kinds::SolverNode;
use std::alloc::Global;
use term_graph::Graph;
use term_model::{Model, Side};

/// What a store is given for a model: the nodes behind its cells, the inputs and the layer of each id, the
/// numbers of the cells, the places by id, and the graph of the model's distinct subterms.
#[derive(Drop)]
pub struct ModelNodes<N: NodeRule> {
    pub nodes: Vec<N>,
    pub links: Links,
    pub start: Vec<i64>,
    pub layers: Layers,
    pub places: Vec<Place>,
    pub graph: Graph,
}

/// All nodes, and the graph of the model's distinct subterms, of which they were made.
#[derive(Drop)]
struct Made<N: NodeRule> {
    making: Making<N>,
    graph: Graph,
}

/// So many cells leave ids for as many terms as there may be.
const MOST_CELLS: usize = 4_292_870_144;

/// The totals of all systems and objectives, and the repeats of these.
fn put_wholes<N: SolverNode>(
    alloc: Global,
    model: &Model,
    ids: &[NodeId],
    counted: u32,
    making: &mut Making<N>,
) -> Result<(), NoMemory>
    ghost about: { About }
    requires model { about.model ≡ model.now }
    requires formed { IsWellFormed model.now }
    requires ids { ArePostedIds model.now (cells_of model.now) model.now.posted.items ids.now }
    requires counted { counted ≡ count_of model.now }
    requires made { AreMade about (map N.rule making.old.nodes.items)
        making.old.lists.items making.old.places.items }
    requires next { length making.old.lists.items ≡ first_system model.now }
    ensures made { OnOk result (AreMade about (map N.rule making.new.nodes.items)
        making.new.lists.items making.new.places.items) }
    ensures count { OnOk result (length making.new.lists.items ≡ many_nodes model.now) }
{
    let systems = member_ids(alloc, model, Side::Systems, ids)?;
    let variables = model.vars.len() as u32;
    put_totals(alloc, model, Side::Systems, &systems, variables, making)?;
    let first = making.lists.len() as u32;
    let objectives = member_ids(alloc, model, Side::Objectives, ids)?;
    put_totals(alloc, model, Side::Objectives, &objectives, counted, making)?;
    put_repeats(alloc, first, model.objectives.len(), making)
}

/// All nodes, behind so many cells, and the graph.
fn all_of<N: SolverNode>(
    alloc: Global,
    model: &Model,
    cells: u32,
    users: Vec<N>,
) -> Result<Made<N>, NoMemory>
    ghost about: { About }
    requires model { about.model ≡ model.now }
    requires formed { IsWellFormed model.now }
    requires cells { cells ≡ cells_of model.now }
    requires low { cells + MAX_TERM_NODES ≤ 2 ^ 32 }
    requires users { AreUserNodes N.rule about.users users.items }
    requires posted { length users.items ≡
        length (users_posted model.now model.now.posted.items) }
    ensures made { IfOk result (λ made. AreMade about (map N.rule made.making.nodes.items)
        made.making.lists.items made.making.places.items) }
    ensures count { IfOk result (λ made. length made.making.lists.items ≡ many_nodes model.now) }
    ensures graph { IfOk result (λ made. IsGraphOf made.graph (distinct_subterms model.now)) }
    ensures cells { IfOk result (λ made. made.graph.cells ≡ cells_of model.now) }
{
    let terms = terms_of(alloc, model, cells)?;
    let lists = cell_lists(alloc, model, cells as usize, &terms.ids)?;
    let mut waiting = waiting_of(alloc, users)?;
    let mut making = cells_alone(alloc, lists)?;
    put_terms(alloc, &terms.graph, &mut waiting, &mut making)?;
    let counted = making.lists.len() as u32;
    let weights = weights_by(alloc, model, Side::Objectives)?;
    put_weights(alloc, &weights, &mut making)?;
    put_wholes(alloc, model, &terms.ids, counted, &mut making)?;
    Ok(Made {
        making,
        graph: terms.graph,
    })
}

/// The nodes of a model with its totals, behind the cells of its variables and of its systems' weights:
/// for each distinct subterm that of its operation, or the user's with its number, which is taken over;
/// and all else that a store of them is given. `NoMemory` also where there would be more than 2^32 ids.
pub fn nodes_of<N: SolverNode>(
    alloc: Global,
    model: &Model,
    assignment: &[i64],
    users: Vec<N>,
) -> Result<ModelNodes<N>, NoMemory>
    ghost about: { About }
    requires model { about.model ≡ model.now }
    requires formed { IsWellFormed model.now }
    requires acyclic { IsAcyclic model.now }
    requires numbers { length assignment.now ≡ variables_of model.now }
    requires users { AreUserNodes N.rule about.users users.items }
    requires posted { length users.items ≡
        length (users_posted model.now model.now.posted.items) }
    ensures nodes { IfOk result (λ made. AreWholeNodes about.users model.now
        (map N.rule made.nodes.items) made.links.inputs.items) }
    ensures start { IfOk result (λ made. made.start.items ≡ numbers_of model.now assignment.now) }
    ensures linked { IfOk result (λ made. AreLinked (map N.rule made.nodes.items)
        (cells_of model.now) made.links.inputs.items made.layers) }
    ensures places { IfOk result (λ made. ArePlaces model.now made.places.items) }
    ensures placed { IfOk result (λ made. length made.places.items ≡ many_nodes model.now) }
    ensures short { IfOk result (λ made. (id : ℕ) →
        length (list_in made.links.inputs.items id) ≤ 4294967296) }
    ensures graph { IfOk result (λ made. IsGraphOf made.graph (distinct_subterms model.now)) }
    ensures cells { IfOk result (λ made. made.graph.cells ≡ cells_of model.now) }
{
    let start = numbers_of(alloc, model, assignment)?;
    if start.len() > MOST_CELLS {
        return Err(NoMemory);
    }
    let made = all_of(alloc, model, start.len() as u32, users)?;
    let making = made.making;
    let layers = layers_of(alloc, &making.lists)?;
    Ok(ModelNodes {
        nodes: making.nodes,
        links: Links {
            inputs: making.lists,
        },
        start,
        layers,
        places: making.places,
        graph: made.graph,
    })
}
