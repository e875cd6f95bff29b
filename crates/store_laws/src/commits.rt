//! Commits to a store of a model, by what they touch of the model.
ghost use Rattle.std.specs.Prelude.{◌≡◌, ◌+◌, ◌*◌, ◌≤◌, Ok, IfErr, IfOk, OnOk, is_ok};
ghost use Rattle.inc_store.specs.Moves.{AreMoves, is_moved};
ghost use Rattle.inc_store.specs.Stores.{changes_between};
ghost use Rattle.inc_store.specs.Views.{KeepsNodes, graph_in};
ghost use Rattle.model_store.specs.ModelStores.{IsFaultOf, IsStoreOf, StopsMoved, values_in};
ghost use Rattle.model_store.specs.Settings.{AreOfVariables, Setting, after, fresh_in, numbers_after};
ghost use Rattle.model_store.specs.Settings.{users_in};
ghost use Rattle.store_laws.specs.ModelTouch.{IsWhole, model_touch};

use cbl_base::{NodeRule, Steps, VarId};
use inc_store::{Changed, Store, StoreFault};
use std::sync::ledger::Ledger;

/// Moves variables in a store of a model, and gives all values that are others then, in order of id. The store has
/// the values that evaluating the model afresh after the moves gives, and the same nodes and graph; or the fault is
/// the model's. The steps are at most four times what the moves touch of the model,
/// whatever the answer.
pub fn commit<N: NodeRule, L: Ledger>(
    store: &mut Store<N>,
    moves: &[(VarId, i64)],
    steps: &mut Steps<L>,
) -> Result<Changed, StoreFault>
    ghost setting: { Setting }
    requires store { IsStoreOf N.rule N.held N.ready setting store.old }
    requires moves { AreMoves (graph_in N.rule store.old) moves.now }
    requires variables { AreOfVariables setting.model moves.now }
    requires graph { IsWhole (users_in setting) setting.model (graph_in N.rule store.old) }
    ensures usable { store.new.is_usable ≡ is_ok result }
    ensures store { OnOk result (IsStoreOf N.rule N.held N.ready
        (after moves.now setting) store.new) }
    ensures nodes { OnOk result (KeepsNodes N.rule store.old store.new) }
    ensures whole { OnOk result (IsWhole (users_in setting) setting.model
        (graph_in N.rule store.new)) }
    ensures values { OnOk result (fresh_in (after moves.now setting) ≡
        Ok (values_in setting store.new)) }
    ensures changed { IfOk result (λ c.
        c.list.items ≡ changes_between 0 store.old.cells store.new.cells) }
    ensures fault { IfErr result (λ stop. IsFaultOf (after moves.now setting) stop) }
    ensures least { IfErr result (λ stop. StopsMoved N.rule store.old moves.now stop) }
    ensures steps { steps.new ≤ steps.old + 4 * model_touch (users_in setting) setting.model
        setting.assignment setting.model (numbers_after moves.now setting.assignment)
        (is_moved moves.now) }
{
    model_store::commit(store, moves, steps)
}
