//! Weights in stores of models.
ghost use Rattle.std.specs.Prelude.{◌≡◌, Ok, IfOk, IfErr, OnOk, is_ok};
ghost use Rattle.inc_store.specs.Moves.{AreMoves};
ghost use Rattle.inc_store.specs.Stores.{changes_between};
ghost use Rattle.inc_store.specs.Views.{KeepsNodes, graph_in};
ghost use Rattle.model_store.specs.ModelStores.{Agrees, AreFewSteps, IsFaultOf, IsStoreOf};
ghost use Rattle.model_store.specs.ModelStores.{StopsMoved, values_in};
ghost use Rattle.model_store.specs.Settings.{fresh_in};
ghost use Rattle.model_store.specs.Weights.{AreWeightMoves, Weighing, weighed};

use cbl_base::{NodeRule, Steps, VarId};
use inc_store::{Changed, Store, StoreFault};
use std::sync::ledger::Ledger;

/// Moves cells in a store of a model so that it is one of another model over the same graph, as of the model with other
/// weights, and gives all values that are others then, in order of id. The store has the values that evaluating the other
/// model afresh gives. `Node` exactly where that has a fault, which is then this one, at the node's place. After any `Err`
/// the store isn't usable, and only then.
pub fn set_weights<N: NodeRule, L: Ledger>(
    store: &mut Store<N>,
    moves: &[(VarId, i64)],
    steps: &mut Steps<L>,
) -> Result<Changed, StoreFault>
    ghost weighing: { Weighing }
    requires store { IsStoreOf N.rule N.held N.ready weighing.setting store.old }
    requires moves { AreMoves (graph_in N.rule store.old) moves.now }
    requires weights { AreWeightMoves weighing (graph_in N.rule store.old) moves.now }
    ensures usable { store.new.is_usable ≡ is_ok result }
    ensures store { OnOk result (IsStoreOf N.rule N.held N.ready
        (weighed weighing) store.new) }
    ensures nodes { OnOk result (KeepsNodes N.rule store.old store.new) }
    ensures values { OnOk result (fresh_in (weighed weighing) ≡
        Ok (values_in (weighed weighing) store.new)) }
    ensures changed { IfOk result (λ c.
        c.list.items ≡ changes_between 0 store.old.cells store.new.cells) }
    ensures fault { IfErr result (λ stop. IsFaultOf (weighed weighing) stop) }
    ensures least { IfErr result (λ stop. StopsMoved N.rule store.old moves.now stop) }
    ensures agrees { Agrees result (fresh_in (weighed weighing)) }
    ensures steps { AreFewSteps N.rule store.old moves.now steps.old steps.new }
{
    store.commit(moves, steps)
}
