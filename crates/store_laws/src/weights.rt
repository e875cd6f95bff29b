//! Weights in stores of a model, by what they touch of the model.
ghost use Rattle.std.specs.Prelude.{◌≡◌, ◌+◌, ◌*◌, ◌≤◌, Ok, IfErr, IfOk, OnOk, is_ok};
ghost use Rattle.inc_store.specs.Moves.{AreMoves, is_moved};
ghost use Rattle.inc_store.specs.Stores.{changes_between};
ghost use Rattle.inc_store.specs.Views.{KeepsNodes, graph_in};
ghost use Rattle.model_store.specs.ModelStores.{IsFaultOf, IsStoreOf, StopsMoved, values_in};
ghost use Rattle.model_store.specs.Settings.{fresh_in, users_in};
ghost use Rattle.model_store.specs.Weights.{AreWeightMoves, Weighing, weighed};
ghost use Rattle.store_laws.specs.ModelTouch.{IsWhole, model_touch};

use cbl_base::{NodeRule, Steps, VarId};
use inc_store::{Changed, Store, StoreFault};
use std::sync::ledger::Ledger;

/// Moves cells in a store of a model so that it is one of another model over the same graph, as of the model with other
/// weights, and gives all values that are others then, in order of id. The store has the values that evaluating the other
/// model afresh gives, and the same nodes and graph; or the fault is that model's. The steps are at most four times what
/// the change from the one model to the other touches, whatever the answer.
pub fn set_weights<N: NodeRule, L: Ledger>(
    store: &mut Store<N>,
    moves: &[(VarId, i64)],
    steps: &mut Steps<L>,
) -> Result<Changed, StoreFault>
    ghost weighing: { Weighing }
    requires store { IsStoreOf N.rule N.held N.ready weighing.setting store.old }
    requires moves { AreMoves (graph_in N.rule store.old) moves.now }
    requires weights { AreWeightMoves weighing (graph_in N.rule store.old) moves.now }
    requires graph { IsWhole (users_in weighing.setting) weighing.setting.model
        (graph_in N.rule store.old) }
    requires same { IsWhole (users_in weighing.setting) weighing.model
        (graph_in N.rule store.old) }
    ensures usable { store.new.is_usable ≡ is_ok result }
    ensures store { OnOk result (IsStoreOf N.rule N.held N.ready
        (weighed weighing) store.new) }
    ensures nodes { OnOk result (KeepsNodes N.rule store.old store.new) }
    ensures whole { OnOk result (IsWhole (users_in weighing.setting) weighing.model
        (graph_in N.rule store.new)) }
    ensures values { OnOk result (fresh_in (weighed weighing) ≡
        Ok (values_in (weighed weighing) store.new)) }
    ensures changed { IfOk result (λ c.
        c.list.items ≡ changes_between 0 store.old.cells store.new.cells) }
    ensures fault { IfErr result (λ stop. IsFaultOf (weighed weighing) stop) }
    ensures least { IfErr result (λ stop. StopsMoved N.rule store.old moves.now stop) }
    ensures steps { steps.new ≤ steps.old + 4 * model_touch (users_in weighing.setting)
        weighing.setting.model weighing.setting.assignment
        weighing.model weighing.setting.assignment (is_moved moves.now) }
{
    model_store::set_weights(store, moves, steps)
}
