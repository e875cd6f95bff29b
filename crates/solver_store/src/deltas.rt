//! Deltas.
ghost use Rattle.std.specs.Prelude.{◌≡◌, ◌+◌, ◌*◌, ◌<◌, ◌≤◌, ℤ, Result, length, false};
ghost use Rattle.graph_values.specs.WholeGraphs.{total_id};
ghost use Rattle.inc_store.specs.Moves.{is_moved};
ghost use Rattle.inc_store.specs.Views.{graph_in};
ghost use Rattle.model_nodes.specs.Making.{ArePlaces};
ghost use Rattle.model_store.specs.Settings.{users_in};
ghost use Rattle.model_values.specs.Asked.{IsAnswer};
ghost use Rattle.model_values.specs.Delta.{moved, moves_defined};
ghost use Rattle.model_values.specs.Fresh.{whole_by};
ghost use Rattle.model_values.specs.declared.asked.AskStop.{AskStop};
ghost use Rattle.solver_store.specs.Asking.{cell, moves_by};
ghost use Rattle.solver_store.specs.Closed.{IsClosed};
ghost use Rattle.store_laws.specs.Deltas.{IsAsked, IsProper, IsTarget, IsTold, Question, delta_asked};
ghost use Rattle.store_laws.specs.ModelTouch.{model_touch};
ghost use Rattle.term_model.specs.Posting.{totals_by};
ghost use Rattle.term_model.specs.declared.model.Model.{Model};

use crate::closed::Closed;
use cbl_base::{NodeId, NodeRule, Place, Steps, VarId};
use model_values::{AskStop, Move};
use std::sync::ledger::Ledger;
use term_model::{Model, Side};
use trial::{DifferenceFault, Trial};

/// What a trial told, at the place of its node.
fn answer_of(places: &[Place], told: Result<i64, DifferenceFault>) -> Result<i64, AskStop>
    ensures { (M : Model) (answer : Result ℤ AskStop) → ArePlaces M places.now →
        IsTold M (total_id M) answer told → IsAnswer answer result }
{
    match told {
        Ok(number) => Ok(number),
        Err(DifferenceFault::Node(node, fault)) => match places.get(node.0 as usize) {
            Some(place) => Err(AskStop::Fault(*place, fault)),
            None => Err(AskStop::NoMemory),
        },
        Err(DifferenceFault::Difference(fault)) => Err(AskStop::Run(fault)),
        Err(DifferenceFault::NoMemory) => Err(AskStop::NoMemory),
    }
}

/// A cell by its number.
fn cell(index: u32) -> VarId
    ensures { result ≡ cell index }
{
    VarId { solver: 0, index }
}

impl<N: NodeRule> Closed<N> {
    /// What a trial of these moves tells at an id.
    fn told<L: Ledger>(
        &self,
        trial: &mut Trial,
        moves: &[(VarId, i64)],
        target: u32,
        steps: &mut Steps<L>,
    ) -> Result<i64, AskStop>
        ghost question: { Question }
        requires closed { IsClosed N.rule N.held N.ready question.setting self.now }
        requires asked { IsAsked question moves.now }
        requires target { IsTarget (graph_in N.rule self.now.store) question.setting.total
            question.whole target }
        ensures answer { IsAnswer (delta_asked question) result }
        ensures steps { steps.new ≤ steps.old + 4 * model_touch (users_in question.setting)
            question.setting.model question.setting.assignment question.setting.model
            (moved question.setting.assignment question.change) (is_moved moves.now) }
    {
        answer_of(
            &self.places,
            store_laws::delta(trial, &self.store, moves, NodeId(target), steps),
        )
    }

    /// How the value of a system or an objective would change with a move of free variables, of two of them where it is a
    /// swap. `Fault` is exactly that of the system or objective after the move, with its place; `Run` exactly where the
    /// difference doesn't fit 64 bits.
    pub fn delta<L: Ledger>(
        &self,
        model: &Model,
        assignment: &[i64],
        trial: &mut Trial,
        side: Side,
        index: u32,
        change: Move,
        steps: &mut Steps<L>,
    ) -> Result<i64, AskStop>
        ghost question: { Question }
        requires closed { IsClosed N.rule N.held N.ready question.setting self.now }
        requires model { question.setting.model ≡ model.now }
        requires assignment { question.setting.assignment ≡ assignment.now }
        requires whole { question.whole ≡ whole_by side index }
        requires change { question.change ≡ change }
        requires there { index < length (totals_by model.now side) }
        requires proper { IsProper model.now change }
        requires undefined { moves_defined model.now change ≡ false }
        ensures answer { IsAnswer (delta_asked question) result }
        ensures steps { steps.new ≤ steps.old + 4 * model_touch (users_in question.setting)
            question.setting.model question.setting.assignment question.setting.model
            (moved question.setting.assignment question.change)
            (is_moved (moves_by question.setting.assignment question.change)) }
    {
        let target = self.target(model, side, index);
        match change {
            Move::Assign { var, value } => {
                self.told(trial, &[(cell(var), value)], target, steps)
            }
            Move::Swap { left, right } => {
                let first = (cell(right), assignment[left as usize]);
                let second = (cell(left), assignment[right as usize]);
                self.told(trial, &[first, second], target, steps)
            }
        }
    }
}
