//! What is read of what is closed. None of it wants memory.
ghost use Rattle.std.specs.Prelude.{◌≡◌, ◌<◌, ◌≤◌, ◌+◌, length};
ghost use Rattle.cbl_base.specs.Inputs.{kind_of, number_kind, set_kind};
ghost use Rattle.cbl_base.specs.declared.input.Input.TheVariants.{Int, Set};
ghost use Rattle.graph_values.specs.WholeGraphs.{total_id};
ghost use Rattle.inc_store.specs.Views.{IsUsable, count_of, value_at};
ghost use Rattle.model_values.specs.Fresh.{whole_by};
ghost use Rattle.solver_store.specs.Asking.{target_of};
ghost use Rattle.store_laws.specs.ModelTouch.{many_nodes};
ghost use Rattle.term_model.specs.Posting.{totals_by};

use crate::closed::Closed;
use cbl_base::{Input, IntSet, NodeId, NodeRule, NodeValue, Steps};
use inc_store::Store;
use std::marker::Brand;
use std::sync::ledger::{Blank, Ledger};
use term_model::{Model, Side};

/// The value of an id, with a count of steps of its own.
fn read_by<L: Ledger, N: NodeRule>(store: &Store<N>, id: u32, blank: Blank) -> &NodeValue
    requires name { blank.name ≡ L.name }
    requires parts { blank.parts ≡ L.parts }
    requires some { 0 < L.parts }
    requires usable { IsUsable N.rule N.held N.ready store.now }
    requires within { id < count_of store.now }
    ensures { result.now ≡ value_at store.now id }
{
    let mut steps = Steps::<L>::new(blank);
    store.read(NodeId(id), &mut steps)
}

/// The value of an id. The step that a store makes isn't counted.
pub(crate) fn read<N: NodeRule>(store: &Store<N>, id: u32) -> &NodeValue
    requires usable { IsUsable N.rule N.held N.ready store.now }
    requires within { id < count_of store.now }
    ensures { result.now ≡ value_at store.now id }
{
    read_by::<Brand, N>(store, id, Blank::new(1))
}

/// Which number is the first of so many, behind others, where these are all.
fn first_of(all: u32, count: usize) -> u32
    requires { count ≤ all }
    ensures { result + count ≡ all }
{
    all - count as u32
}

impl<N: NodeRule> Closed<N> {
    /// The number of an id that has one.
    pub fn number(&self, id: u32) -> i64
        requires usable { IsUsable N.rule N.held N.ready self.now.store }
        requires within { id < count_of self.now.store }
        requires kind { kind_of (value_at self.now.store id) ≡ number_kind }
        ensures { value_at self.now.store id ≡ Int result }
    {
        match read(&self.store, id) {
            Input::Int(number) => *number,
            Input::Set(_) => unreachable!(),
        }
    }

    /// The set of an id that has one.
    pub fn set(&self, id: u32) -> &IntSet
        requires usable { IsUsable N.rule N.held N.ready self.now.store }
        requires within { id < count_of self.now.store }
        requires kind { kind_of (value_at self.now.store id) ≡ set_kind }
        ensures { value_at self.now.store id ≡ Set result.now }
    {
        match read(&self.store, id) {
            Input::Int(_) => unreachable!(),
            Input::Set(set) => set,
        }
    }

    /// The id of the total of a system or an objective.
    pub fn total_id(&self, model: &Model, side: Side, index: u32) -> u32
        requires placed { length self.now.places.items ≡ many_nodes model.now }
        requires small { length self.now.places.items < 4294967296 }
        requires there { index < length (totals_by model.now side) }
        ensures { result ≡ total_id model.now (whole_by side index) }
    {
        let repeats = first_of(self.places.len() as u32, model.objectives.len());
        let objectives = first_of(repeats, model.objectives.len());
        match side {
            Side::Objectives => objectives + index,
            Side::Systems => first_of(objectives, model.systems.len()) + index,
        }
    }

    /// At which id a system or an objective is asked: at a system's total, or the node that repeats an objective's.
    pub(crate) fn target(&self, model: &Model, side: Side, index: u32) -> u32
        requires placed { length self.now.places.items ≡ many_nodes model.now }
        requires small { length self.now.places.items < 4294967296 }
        requires there { index < length (totals_by model.now side) }
        ensures { result ≡ target_of model.now side index }
    {
        match side {
            Side::Systems => self.total_id(model, side, index),
            Side::Objectives => {
                first_of(self.places.len() as u32, model.objectives.len()) + index
            }
        }
    }
}
