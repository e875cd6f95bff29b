//! Stores of models.
ghost use Rattle.std.specs.Prelude.{◌≡◌, Ok, length, map, IfOk, IfErr, OnOk, is_ok};
ghost use Rattle.store_build.specs.Aims.{AreLinked, graph_over};
ghost use Rattle.inc_store.specs.Moves.{AreMoves};
ghost use Rattle.inc_store.specs.Stores.{changes_between};
ghost use Rattle.inc_store.specs.Views.{KeepsNodes, graph_in, rules_in};
ghost use Rattle.model_store.specs.ModelStores.{Agrees, AreFewSteps, IsFaultOf, IsStoreOf};
ghost use Rattle.model_store.specs.ModelStores.{StopsAt, StopsMoved, values_in};
ghost use Rattle.model_store.specs.Settings.{AreNodesOf, AreOfVariables, AreStartsOf, IsSetting};
ghost use Rattle.model_store.specs.Settings.{Setting, after, fresh_in};

use cbl_base::{NodeRule, Steps, VarId};
use inc_store::{Changed, LayerEval, Links, Store, StoreFault};
use layer_plan::Layers;
use std::alloc::Global;
use std::sync::ledger::Ledger;

/// A store of these nodes, which are a model's, behind the cells of the model's variables and of its
/// systems' weights. It has the values that evaluating the model afresh gives. `Node` exactly where that has a fault, which is then
/// this one, at the node's place: the least node whose own operation fails though all its inputs have
/// values. It takes what `Store::build` takes.
pub fn build<N: NodeRule, E: LayerEval<N>>(
    alloc: Global,
    nodes: Vec<N>,
    links: Links,
    start: &[i64],
    layers: &Layers,
    eval: &E,
) -> Result<Store<N>, StoreFault>
    ghost setting: { Setting }
    requires given { IsSetting setting }
    requires nodes { AreNodesOf setting (map N.rule nodes.items) links.inputs.items }
    requires start { AreStartsOf setting (map N.rule nodes.items) start.now links.inputs.items }
    requires layers { AreLinked (map N.rule nodes.items)
        (length start.now) links.inputs.items layers.now }
    ensures store { IfOk result (λ s. IsStoreOf N.rule N.held N.ready setting s) }
    ensures values { IfOk result (λ s. fresh_in setting ≡ Ok (values_in setting s)) }
    ensures fault { IfErr result (λ stop. IsFaultOf setting stop) }
    ensures least { IfErr result (λ stop.
        StopsAt (map N.rule nodes.items) start.now links.inputs.items stop) }
    ensures agrees { Agrees result (fresh_in setting) }
    ensures graph { IfOk result (λ s. graph_in N.rule s ≡
        graph_over (map N.rule nodes.items) (length start.now) links.inputs.items) }
    ensures rules { IfOk result (λ s. rules_in N.rule s ≡ map N.rule nodes.items) }
{
    Store::build(alloc, nodes, links, start, layers, eval)
}

/// Moves variables in a store of a model, and gives all values that are others then, in order of id.
/// The store has the values that evaluating the model afresh after the moves gives. `Node` exactly where
/// that has a fault, which is then this one, at the node's place: the least node whose own operation
/// fails though all its inputs have values. After any `Err` the store isn't usable, and only then.
pub fn commit<N: NodeRule, L: Ledger>(
    store: &mut Store<N>,
    moves: &[(VarId, i64)],
    steps: &mut Steps<L>,
) -> Result<Changed, StoreFault>
    ghost setting: { Setting }
    requires store { IsStoreOf N.rule N.held N.ready setting store.old }
    requires moves { AreMoves (graph_in N.rule store.old) moves.now }
    requires variables { AreOfVariables setting.model moves.now }
    ensures usable { store.new.is_usable ≡ is_ok result }
    ensures store { OnOk result (IsStoreOf N.rule N.held N.ready
        (after moves.now setting) store.new) }
    ensures nodes { OnOk result (KeepsNodes N.rule store.old store.new) }
    ensures values { OnOk result (fresh_in (after moves.now setting) ≡
        Ok (values_in setting store.new)) }
    ensures changed { IfOk result (λ c.
        c.list.items ≡ changes_between 0 store.old.cells store.new.cells) }
    ensures fault { IfErr result (λ stop. IsFaultOf (after moves.now setting) stop) }
    ensures least { IfErr result (λ stop. StopsMoved N.rule store.old moves.now stop) }
    ensures agrees { Agrees result (fresh_in (after moves.now setting)) }
    ensures steps { AreFewSteps N.rule store.old moves.now steps.old steps.new }
{
    store.commit(moves, steps)
}
