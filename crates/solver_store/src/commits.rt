//! Commits.
ghost use Rattle.std.specs.Prelude.{◌≡◌, ◌+◌, ◌*◌, ◌≤◌, Err, IfErr, IfOk, OnOk, filter_map};
ghost use Rattle.std.specs.List.{range_with_len};
ghost use Rattle.graph_values.specs.Members.{variables_of};
ghost use Rattle.inc_store.specs.Moves.{is_moved};
ghost use Rattle.inc_store.specs.Views.{rules_in};
ghost use Rattle.model_store.specs.Settings.{Setting, after, fresh_in, numbers_after, users_in};
ghost use Rattle.model_values.specs.Fresh.{IsFresh};
ghost use Rattle.solver_models.specs.KeptChanges.{change_in};
ghost use Rattle.solver_store.specs.Closed.{IsClosed, vars_in};
ghost use Rattle.solver_store.specs.FreeMoves.{AreFree};
ghost use Rattle.store_laws.specs.ModelTouch.{model_touch};

use crate::changes::variable_changes;
use crate::closed::Closed;
use cbl_base::{NoMemory, NodeRule, Steps, VarId};
use ls_events::VarChange;
use model_nodes::stop_of;
use model_values::ModelStop;
use std::alloc::Global;
use std::sync::ledger::Ledger;

impl<N: NodeRule> Closed<N> {
    /// Gives free variables, of the first so many ids, new numbers, all at once, and tells the whole-number variables whose
    /// values changed, in order. `Fault` is exactly the fault of the whole model; after it, and after `NoMemory`, this
    /// can't be used any more.
    pub fn commit<L: Ledger>(
        &mut self,
        alloc: Global,
        solver: u32,
        variables: u32,
        moves: &[(VarId, i64)],
        steps: &mut Steps<L>,
    ) -> Result<Vec<VarChange>, ModelStop>
        ghost setting: { Setting }
        requires closed { IsClosed N.rule N.held N.ready setting self.old }
        requires variables { variables ≡ variables_of setting.model }
        requires moves { AreFree setting.model moves.now }
        ensures closed { OnOk result (IsClosed N.rule N.held N.ready (after moves.now setting) self.new) }
        ensures rules { OnOk result (rules_in N.rule self.new.store ≡
            rules_in N.rule self.old.store) }
        ensures changes { IfOk result (λ changes. changes.items ≡ filter_map
            (change_in solver (vars_in setting.model self.old) (vars_in setting.model self.new))
            (range_with_len 0 (variables_of setting.model))) }
        ensures fault { IfErr result (λ stop.
            IsFresh (fresh_in (after moves.now setting)) (Err stop)) }
        ensures steps { steps.new ≤ steps.old + 4 * model_touch (users_in setting) setting.model
            setting.assignment setting.model (numbers_after moves.now setting.assignment)
            (is_moved moves.now) }
    {
        match store_laws::commit(&mut self.store, moves, steps) {
            Ok(changed) => match variable_changes(alloc, solver, variables, &changed.list) {
                Ok(changes) => Ok(changes),
                Err(NoMemory) => Err(ModelStop::NoMemory),
            },
            Err(stop) => Err(stop_of(&self.places, stop)),
        }
    }
}
