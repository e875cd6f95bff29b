//! The moves of a trial.
ghost use Rattle.std.specs.Prelude.{◌≡◌, ℕ, ◌+◌, ◌*◌, ◌<◌, length, OnOk};
ghost use Rattle.cbl_base.specs.declared.input.Input.TheVariants.{Int};
ghost use Rattle.store_turns.specs.declared.outcome.Outcome.TheVariants.{Value};
ghost use Rattle.store_turns.specs.Cones.{has};
ghost use Rattle.store_turns.specs.Meaning.{layer_of};
ghost use Rattle.inc_store.specs.Course.{NotBefore, first_front};
ghost use Rattle.inc_store.specs.Moves.{AreMoves, LaterThanMoves};
ghost use Rattle.inc_store.specs.Views.{IsUsable, rules_in};
ghost use Rattle.trial.specs.Parts.{Query, InQuery, IsPart, IsPaid, part_graph, moves_of};

use crate::overlay::Overlay;
use crate::settling::settle;
use cbl_base::{Input, NoMemory, NodeId, NodeRule, Steps, VarId};
use inc_store::Store;
use std::sync::ledger::Ledger;
use store_turns::{Outcome, has};

/// Each moved cell that is a member takes its number.
pub(crate) fn move_all<N: NodeRule, L: Ledger>(
    store: &Store<N>,
    members: &[bool],
    overlay: &mut Overlay,
    moves: &[(VarId, i64)],
    steps: &mut Steps<L>,
) -> Result<(), NoMemory>
    ghost query: { Query }
    requires usable { IsUsable N.rule N.held N.ready store.now }
    requires part { IsPart (rules_in N.rule store.now) store.now.frame store.now.cells
        (has members.now) query.part }
    requires moves { AreMoves (part_graph query.part) query.ask.moves }
    requires asked { query.ask.moves ≡ moves_of (has members.now) moves.now }
    requires course { InQuery query overlay.old
        (LaterThanMoves query.part.frame query.ask.moves)
        (steps.old + 2 * length query.ask.moves + 4) }
    ensures course { OnOk result (InQuery query overlay.new
        (NotBefore first_front (layer_of query.part.frame)) (steps.new + 4)) }
    ensures limit { IsPaid query steps.new }
{
    let frame = store.frame();
    for (var, number) in moves {
        if !has(members, NodeId(var.index)) {
            continue;
        }
        let old = store.read(NodeId(var.index), steps);
        settle(
            frame,
            members,
            overlay,
            var.index,
            old,
            number_outcome(number),
            None,
            steps,
        )?;
    }
    Ok(())
}

/// A free cell comes to its number.
fn number_outcome(number: &i64) -> Outcome
    ensures { result ≡ Value (Int number.now) }
{
    Outcome::Value(Input::Int(*number))
}
