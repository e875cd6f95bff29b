//! Moves of a store's free cells.
ghost use Rattle.std.specs.Prelude.{◌≡◌, ◌<◌, [], List, length, IsTrue, true};
ghost use Rattle.cbl_base.specs.NodeLaw.{Rule};
ghost use Rattle.store_turns.specs.Meaning.{graph_of};
ghost use Rattle.inc_store.specs.Moves.{AreMoves, is_moved};
ghost use Rattle.inc_store.specs.Views.{graph_in};

use cbl_base::{NodeRule, VarId};
use inc_store::Store;
use store_turns::Frame;

/// Whether these are moves of free cells, no two of one.
fn are_moves(frame: &Frame, moves: &[(VarId, i64)]) -> bool
    ensures { IsTrue result → (rules : List Rule) → AreMoves (graph_of rules frame.now) moves.now }
{
    match moves.split_first() {
        None => true,
        Some((first, rest)) => {
            if !is_free(frame, first.0.index) {
                return false;
            }
            if is_moved(rest, first.0.index) {
                return false;
            }
            are_moves(frame, rest)
        }
    }
}

/// Whether these are moves of a store's free cells, no two of one.
pub(crate) fn fits<N: NodeRule>(store: &Store<N>, moves: &[(VarId, i64)]) -> bool
    ensures { IsTrue result → AreMoves (graph_in N.rule store.now) moves.now }
{
    are_moves(store.frame(), moves)
}

/// Whether an id is that of a free cell.
fn is_free(frame: &Frame, id: u32) -> bool
    ensures within { IsTrue result → id < length frame.now.inputs.items }
    ensures free { IsTrue result → (graph_of [] frame.now).is_free id ≡ true }
{
    if id >= frame.first {
        return false;
    }
    if id as usize >= frame.inputs.len() {
        return false;
    }
    frame.inputs[id as usize].is_empty()
}

/// Whether an id is moved.
pub(crate) fn is_moved(moves: &[(VarId, i64)], id: u32) -> bool
    ensures { result ≡ is_moved moves.now id }
{
    match moves.split_first() {
        None => false,
        Some(((var, _), rest)) => var.index == id || is_moved(rest, id),
    }
}
