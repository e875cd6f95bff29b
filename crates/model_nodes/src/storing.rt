//! A store of a model.
ghost use Rattle.std.specs.Prelude.{◌≡◌, ◌-◌, ◌<◌, ◌≤◌, ℕ, ℤ, Err, IfErr, IfOk, List, Ok, length, slice_get};
ghost use Rattle.cbl_base.specs.NumberRule.{NumberRule};
ghost use Rattle.graph_values.specs.Links.{IsModelStop};
ghost use Rattle.graph_values.specs.WholeGraphs.{total_id};
ghost use Rattle.graph_values.specs.Members.{cells_of};
ghost use Rattle.inc_store.specs.Views.{graph_in, inputs_at, rules_in};
ghost use Rattle.model_nodes.specs.Making.{ArePlaces};
ghost use Rattle.model_nodes.specs.StopPlaces.{IsBehind};
ghost use Rattle.model_nodes.specs.Waiting.{AreUserNodes};
ghost use Rattle.model_nodes.specs.WholeNodes.{rule_in_whole};
ghost use Rattle.model_store.specs.ModelStores.{IsStoreOf, values_in};
ghost use Rattle.model_store.specs.Settings.{IsSetting, Setting, fresh_in, users_in};
ghost use Rattle.model_values.specs.Fresh.{IsFresh, fresh_of};
ghost use Rattle.store_laws.specs.ModelTouch.{IsWhole, many_nodes};
ghost use Rattle.term_graph.specs.Graphs.{IsGraphOf};
ghost use Rattle.term_model.specs.Naming.{users_posted};
ghost use Rattle.term_model.specs.Subterms.{distinct_subterms};
ghost use Rattle.term_model.specs.declared.model.Model.{Model};

use crate::nodes::nodes_of;
use cbl_base::{NodeRule, Place};
use inc_store::{PlainEval, Store, StoreFault};
use model_values::ModelStop;
use node_kinds::SolverNode;
use std::alloc::Global;
use term_graph::Graph;
use term_model::Model;

/// A store of a model's nodes, the place of each, and the graph of the model's distinct subterms.
#[derive(Drop)]
pub struct Built<N: NodeRule> {
    pub store: Store<N>,
    pub places: Vec<Place>,
    pub graph: Graph,
}

/// The place of an id.
fn place_at(places: &[Place], id: u32) -> Option<Place>
    ensures { result ≡ slice_get places.now id }
{
    places.get(id as usize).copied()
}

/// A store's fault at its node's place.
pub fn stop_of(places: &[Place], stop: StoreFault) -> ModelStop
    ensures { (users : ℕ → NumberRule) (M : Model) (a : List ℤ) →
        length places.now ≡ many_nodes M → ArePlaces M places.now → IsBehind M stop →
        IsModelStop users M a (total_id M) stop → IsFresh (fresh_of users M a) (Err result) }
{
    let StoreFault::Node(node, fault) = stop else {
        return ModelStop::NoMemory;
    };
    match place_at(places, node.0) {
        Some(place) => ModelStop::Fault(place, fault),
        None => ModelStop::NoMemory,
    }
}

/// A store of a model with its totals, whose nodes for the users' constraints are these, by number. It has
/// the values that evaluating the model afresh gives; `Fault` exactly where that has a fault, which is then
/// this one, with its place.
pub fn build<N: SolverNode>(
    alloc: Global,
    model: &Model,
    assignment: &[i64],
    users: Vec<N>,
) -> Result<Built<N>, ModelStop>
    ghost setting: { Setting }
    requires model { setting.model ≡ model.now }
    requires assignment { setting.assignment ≡ assignment.now }
    requires total { setting.total ≡ total_id model.now }
    requires given { IsSetting setting }
    requires users { AreUserNodes N.rule (users_in setting) users.items }
    requires posted { length users.items ≡
        length (users_posted model.now model.now.posted.items) }
    ensures store { IfOk result (λ b. IsStoreOf N.rule N.held N.ready setting b.store) }
    ensures values { IfOk result (λ b. fresh_in setting ≡ Ok (values_in setting b.store)) }
    ensures whole { IfOk result (λ b.
        IsWhole (users_in setting) model.now (graph_in N.rule b.store)) }
    ensures rules { IfOk result (λ b. (id : ℕ) → cells_of model.now ≤ id → id < many_nodes model.now →
        slice_get (rules_in N.rule b.store) (id - cells_of model.now) ≡
        rule_in_whole (users_in setting) model.now id) }
    ensures short { IfOk result (λ b. (id : ℕ) →
        length (inputs_at b.store id) ≤ 4294967296) }
    ensures graph { IfOk result (λ b. IsGraphOf b.graph (distinct_subterms model.now)) }
    ensures cells { IfOk result (λ b. b.graph.cells ≡ cells_of model.now) }
    ensures places { IfOk result (λ b. ArePlaces model.now b.places.items) }
    ensures placed { IfOk result (λ b. length b.places.items ≡ many_nodes model.now) }
    ensures fault { IfErr result (λ stop. IsFresh (fresh_in setting) (Err stop)) }
{
    let made = nodes_of(alloc, model, assignment, users)?;
    let links = made.links;
    match model_store::build(
        alloc,
        made.nodes,
        links,
        &made.start,
        &made.layers,
        &PlainEval,
    ) {
        Ok(store) => Ok(Built {
            store,
            places: made.places,
            graph: made.graph,
        }),
        Err(stop) => Err(stop_of(&made.places, stop)),
    }
}
