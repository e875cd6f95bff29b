//! Deltas of systems and objectives, asked of a store of a model.
ghost use Rattle.std.specs.Prelude.{◌+◌, ◌*◌, ◌≤◌};
ghost use Rattle.inc_store.specs.Moves.{is_moved};
ghost use Rattle.inc_store.specs.Views.{graph_in};
ghost use Rattle.model_store.specs.Settings.{users_in};
ghost use Rattle.model_values.specs.Delta.{moved};
ghost use Rattle.model_store.specs.ModelStores.{IsStoreOf};
ghost use Rattle.store_laws.specs.ModelTouch.{IsWhole, model_touch};
ghost use Rattle.store_laws.specs.Deltas.{IsAsked, IsTarget, IsTold, Question, delta_asked};

use cbl_base::{NodeId, NodeRule, Steps, VarId};
use inc_store::Store;
use std::sync::ledger::Ledger;
use trial::{DifferenceFault, Trial};

/// The model's delta of a move of free variables, of two where it is a swap, for a system or an objective of
/// which the target is the total, or repeats it; or its fault, at the node's place; or that of the difference.
/// The steps are at most four times what the move touches, whatever the answer.
pub fn delta<N: NodeRule, L: Ledger>(
    trial: &mut Trial,
    store: &Store<N>,
    moves: &[(VarId, i64)],
    target: NodeId,
    steps: &mut Steps<L>,
) -> Result<i64, DifferenceFault>
    ghost question: { Question }
    requires store { IsStoreOf N.rule N.held N.ready question.setting store.now }
    requires asked { IsAsked question moves.now }
    requires target { IsTarget (graph_in N.rule store.now) question.setting.total
        question.whole target.0 }
    requires graph { IsWhole (users_in question.setting) question.setting.model
        (graph_in N.rule store.now) }
    ensures told { IsTold question.setting.model question.setting.total
        (delta_asked question) result }
    ensures steps { steps.new ≤ steps.old + 4 * model_touch (users_in question.setting)
        question.setting.model question.setting.assignment question.setting.model
        (moved question.setting.assignment question.change) (is_moved moves.now) }
{
    trial.difference(store, moves, target, steps)
}
