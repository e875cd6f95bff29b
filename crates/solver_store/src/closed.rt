//! A model is closed.
ghost use Rattle.std.specs.Prelude.{◌≡◌, ◌<◌, ◌^◌, Err, IfErr, IfOk, length};
ghost use Rattle.std.specs.List.{All};
ghost use Rattle.graph_values.specs.Outcomes.{IsGiven};
ghost use Rattle.inc_store.specs.Views.{rules_in};
ghost use Rattle.model_values.specs.Fresh.{IsFresh, fresh_of};
ghost use Rattle.posted_users.specs.KeptOf.{IsUserRule};
ghost use Rattle.posted_users.specs.KeptRule.{users_of};
ghost use Rattle.solver_store.specs.Closed.{IsClosed, setting_of};
ghost use Rattle.solver_store.specs.KeptRules.{kept_rules, waiting_rules};
ghost use Rattle.term_model.specs.Naming.{users_posted};
ghost use Rattle.term_model.specs.Wellformed.{HasDefinedSets};

use crate::ids::shares_of;
use cbl_base::{NodeRule, Place};
use inc_store::Store;
use model_nodes::build;
use model_values::ModelStop;
use node_kinds::SolverNode;
use std::alloc::Global;
use store_shares::Shares;
use term_model::Model;

/// A store of a solver's model, the place of each id, and what is kept for the violations of its variables.
#[derive(Drop)]
pub struct Closed<N: NodeRule> {
    pub(crate) store: Store<N>,
    pub(crate) places: Vec<Place>,
    pub(crate) shares: Shares,
}

/// Closes a model under an assignment, whose users' constraints have these nodes, by number. `Fault` is exactly the fault
/// of the whole model.
pub fn close<N: SolverNode>(
    alloc: Global,
    model: &Model,
    assignment: &[i64],
    users: Vec<N>,
) -> Result<Closed<N>, ModelStop>
    requires given { IsGiven model.now assignment.now }
    requires few { length model.now.vars.items < 2 ^ 32 }
    requires sets { HasDefinedSets model.now }
    requires rules { All (λ n. IsUserRule (N.rule n)) users.items }
    requires posted { length users.items ≡
        length (users_posted model.now model.now.posted.items) }
    ensures closed { IfOk result (λ c. IsClosed N.rule N.held N.ready
        (setting_of model.now assignment.now (waiting_rules N.rule users.items)) c) }
    ensures rules { IfOk result (λ c. kept_rules model.now (rules_in N.rule c.store) ≡
        waiting_rules N.rule users.items) }
    ensures fault { IfErr result (λ stop. IsFresh (fresh_of
        (users_of (waiting_rules N.rule users.items)) model.now assignment.now) (Err stop)) }
{
    let built = build(alloc, model, assignment, users)?;
    let shares = shares_of(alloc, model, built.graph)?;
    Ok(Closed {
        store: built.store,
        places: built.places,
        shares,
    })
}
