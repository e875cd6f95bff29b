//! Trials.
ghost use Rattle.std.specs.Prelude.{◌≡◌, ℕ, ◌+◌, ◌*◌, ◌<◌, ◌≤◌, true, not, IfOk, IfErr, length};
ghost use Rattle.cbl_base.specs.Inputs.{number_kind, kind_of};
ghost use Rattle.store_turns.specs.Cones.{IsCone, has};
ghost use Rattle.store_turns.specs.Meaning.{uses_in, is_empty};
ghost use Rattle.inc_store.specs.Moves.{AreMoves};
ghost use Rattle.inc_store.specs.Views.{IsUsable, graph_in, rules_in, value_at, count_of, inputs_at};
ghost use Rattle.trial.specs.Differences.{IsDifference, IsStopped};
ghost use Rattle.trial.specs.Overlays.{IsEmpty};
ghost use Rattle.trial.specs.Parts.{Query, IsPart, IsPaid, Tells, TellsApart, after_in, moves_of, part_graph, value_in};

use crate::ending::conclude;
use crate::fault::{DifferenceFault, TrialFault, fault_at};
use crate::moving::move_all;
use crate::overlay::Overlay;
use crate::turning::run;
use cbl_base::{NodeId, NodeRule, Steps, VarId};
use inc_store::Store;
use std::alloc::Global;
use std::sync::ledger::Ledger;
use store_build::find_cone;
use store_turns::{Cone, has};

/// What is needed to ask stores for differences. It serves any store, and between two calls its overlay is
/// empty.
#[derive(Drop)]
pub struct Trial {
    overlay: Overlay,
    found: Cone,
    stack: Vec<u32>,
    ghost empty: { IsEmpty overlay },
}

impl Trial {
    /// A trial, in which nothing is another.
    pub fn new(alloc: Global) -> Trial {
        Trial {
            overlay: Overlay::new(alloc),
            found: Cone {
                target: 0,
                members: Vec::new(alloc),
            },
            stack: Vec::new(alloc),
        }
    }

    /// The target's number after the moves less its number now; the store stays as it is. `Node` with the
    /// least node on which the target stands whose own operation fails after the moves though all its inputs
    /// have values, and its fault; or with the target and `Overflow`, where the difference doesn't fit. The
    /// field `solver` of a variable isn't looked at.
    ///
    /// Only ids on which the target stands are followed: whatever the answer, the steps are at most four
    /// times what is touched among them. Where the store doesn't keep which these are, they are searched
    /// first, which makes no step, but looks at each of them, and at a byte for each id. `Store::build` keeps
    /// them for at most 64 targets that nothing uses, `Store::keep` for any other.
    pub fn probe<N: NodeRule, L: Ledger>(
        &mut self,
        store: &Store<N>,
        moves: &[(VarId, i64)],
        target: NodeId,
        steps: &mut Steps<L>,
    ) -> Result<i64, TrialFault>
        requires usable { IsUsable N.rule N.held N.ready store.now }
        requires moves { AreMoves (graph_in N.rule store.now) moves.now }
        requires target { target.0 < count_of store.now }
        requires number { kind_of (value_at store.now target.0) ≡ number_kind }
        ensures { Tells (graph_in N.rule store.now) (uses_in store.now.frame)
            (value_at store.now) moves.now target.0 result steps.old steps.new }
    {
        match self.difference(store, moves, target, steps) {
            Ok(number) => Ok(number),
            Err(fault) => Err(fault_at(target, fault)),
        }
    }

    /// The same, but that a difference that doesn't fit is told apart from the fault of a node.
    pub fn difference<N: NodeRule, L: Ledger>(
        &mut self,
        store: &Store<N>,
        moves: &[(VarId, i64)],
        target: NodeId,
        steps: &mut Steps<L>,
    ) -> Result<i64, DifferenceFault>
        requires usable { IsUsable N.rule N.held N.ready store.now }
        requires moves { AreMoves (graph_in N.rule store.now) moves.now }
        requires target { target.0 < count_of store.now }
        requires number { kind_of (value_at store.now target.0) ≡ number_kind }
        ensures { TellsApart (graph_in N.rule store.now) (uses_in store.now.frame)
            (value_at store.now) moves.now target.0 result steps.old steps.new }
    {
        let frame = store.frame();
        let overlay = &mut self.overlay;
        if let Some(cone) = frame.cone(target) {
            return told(store, cone, overlay, moves, steps);
        }
        find_cone(&mut self.found, &mut self.stack, &frame.inputs, target.0)?;
        told(store, &self.found, overlay, moves, steps)
    }
}

/// What a trial tells of the target of a cone, in an overlay that is empty before and after.
fn told<N: NodeRule, L: Ledger>(
    store: &Store<N>,
    cone: &Cone,
    overlay: &mut Overlay,
    moves: &[(VarId, i64)],
    steps: &mut Steps<L>,
) -> Result<i64, DifferenceFault>
    requires usable { IsUsable N.rule N.held N.ready store.now }
    requires cone { IsCone (inputs_at store.now) (count_of store.now) cone.now }
    requires empty { IsEmpty overlay.old }
    requires moves { AreMoves (graph_in N.rule store.now) moves.now }
    requires target { cone.now.target < count_of store.now }
    requires number { kind_of (value_at store.now cone.now.target) ≡ number_kind }
    ensures told { TellsApart (graph_in N.rule store.now) (uses_in store.now.frame)
        (value_at store.now) moves.now cone.now.target result steps.old steps.new }
    ensures empty { IsEmpty overlay.new }
{
    let members = cone.members.as_slice();
    if !any_moves(members, moves) {
        return Ok(0);
    }
    let target = NodeId(cone.target);
    let found = answer(store, members, overlay, moves, target, steps);
    overlay.clear();
    found
}

/// Whether one of the moves is of a member.
fn any_moves(members: &[bool], moves: &[(VarId, i64)]) -> bool
    ensures { result ≡ not (is_empty (moves_of (has members.now) moves.now)) }
{
    for (var, _) in moves {
        if has(members, NodeId(var.index)) {
            return true;
        }
    }
    false
}

/// The answer of a trial, in an overlay that is empty before.
fn answer<N: NodeRule, L: Ledger>(
    store: &Store<N>,
    members: &[bool],
    overlay: &mut Overlay,
    moves: &[(VarId, i64)],
    target: NodeId,
    steps: &mut Steps<L>,
) -> Result<i64, DifferenceFault>
    ghost query: { Query }
    requires usable { IsUsable N.rule N.held N.ready store.now }
    requires empty { IsEmpty overlay.old }
    requires part { IsPart (rules_in N.rule store.now) store.now.frame store.now.cells
        (has members.now) query.part }
    requires asked { query.ask.moves ≡ moves_of (has members.now) moves.now }
    requires base { query.ask.base ≡ steps.old }
    requires moves { AreMoves (part_graph query.part) query.ask.moves }
    requires some { 0 < length query.ask.moves }
    requires target { target.0 < count_of store.now }
    requires member { has members.now target.0 ≡ true }
    requires number { kind_of (value_at store.now target.0) ≡ number_kind }
    ensures difference { IfOk result (λ d.
        IsDifference (part_graph query.part) (value_in query.part) (after_in query) target.0 d) }
    ensures fault { IfErr result (λ stop.
        IsStopped (part_graph query.part) (value_in query.part) (after_in query) target.0 stop) }
    ensures steps { IsPaid query steps.new }
{
    move_all(store, members, overlay, moves, steps)?;
    run(store, members, overlay, target, steps)?;
    conclude(store, overlay, target, steps)
}
