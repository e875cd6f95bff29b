//! The violations of a variable in a system.
ghost use Rattle.std.specs.Prelude.{◌≡◌, ◌<◌, length};
ghost use Rattle.cbl_base.specs.Inputs.{number_of};
ghost use Rattle.model_store.specs.Settings.{Setting, users_in};
ghost use Rattle.model_values.specs.Asked.{IsAnswer};
ghost use Rattle.solver_store.specs.Closed.{IsClosed};
ghost use Rattle.violation_shares.specs.VariableViolations.{variable_violations_of};

use crate::closed::Closed;
use crate::reads::read;
use cbl_base::{Input, NodeId, NodeRule, NodeValue};
use inc_store::Store;
use model_values::AskStop;
use store_shares::Held;
use term_model::{Model, Total};

/// The number of a value, and 0 for a set.
fn number_of(value: &NodeValue) -> i64
    ensures { result ≡ number_of value.now }
{
    match value {
        Input::Int(number) => *number,
        Input::Set(_) => 0,
    }
}

/// Who reads a store, and the weights of systems.
#[derive(Drop)]
struct Reader<'a, N: NodeRule> {
    store: &'a Store<N>,
    systems: &'a [Total],
}

impl<'a, N: NodeRule> Held for Reader<'a, N> {
    ghost use Rattle.std.specs.Prelude.{ℕ, ◌≤◌, length};
    ghost use Rattle.inc_store.specs.Views.{IsUsable, inputs_at};
    ghost use Rattle.solver_store.specs.Reads.{number_in, violation_in, weight_in};

    ghost is_ready = { λ r. IsUsable N.rule N.held N.ready r.store.now × ((id : ℕ) → length (inputs_at r.store.now id) ≤ 4294967296) };

    ghost number_of = { λ r id. number_in r.store.now id };

    ghost violation_of = { λ r id place. violation_in N.rule r.store.now id place };

    ghost weight_of = { λ r system member. weight_in r.systems.now system member };

    fn number(&self, id: u32) -> i64 {
        if (id as usize) < self.store.frame().inputs.len() {
            return number_of(read(self.store, id));
        }
        0
    }

    fn violation(&self, id: u32, place: usize) -> i64 {
        let frame = self.store.frame();
        if id < frame.first || id as usize >= frame.inputs.len() {
            return 0;
        }
        if place >= self.store.inputs(NodeId(id)).len() {
            return 0;
        }
        self.store.node(NodeId(id)).place_violation(place as u32)
    }

    fn weight(&self, system: usize, member: usize) -> i64 {
        let Some(total) = self.systems.get(system) else {
            return 0;
        };
        match total.members.get(member) {
            Some(member) => member.weight,
            None => 0,
        }
    }
}

impl<N: NodeRule> Closed<N> {
    /// How much of a system's violations is a variable's. `Run` exactly where a total doesn't fit 64 bits. It never wants
    /// memory.
    pub fn share(&self, model: &Model, system: u32, variable: u32) -> Result<i64, AskStop>
        ghost setting: { Setting }
        requires closed { IsClosed N.rule N.held N.ready setting self.now }
        requires model { setting.model ≡ model.now }
        requires system { system < length model.now.systems.items }
        requires variable { variable < length model.now.vars.items }
        ensures { IsAnswer (variable_violations_of (users_in setting) setting.model
            setting.assignment system variable) result }
    {
        let reader = Reader {
            store: &self.store,
            systems: &model.systems,
        };
        match self.shares.variable_violations(&reader, system, variable) {
            Ok(number) => Ok(number),
            Err(fault) => Err(AskStop::Run(fault)),
        }
    }
}
