//! The three nodes over numbers that queens take, in one type.
use cbl_base::{NoMemory, NodeFault, RunFault};
use diff_global::AllDifferent;
use node_base::{NumberChange, NumberNode};
use node_num::{Binary, Sum};

/// One of these nodes. Its rule is that of the node inside.
#[derive(Drop)]
pub(crate) enum Piece {
    Binary(Binary),
    AllDifferent(AllDifferent),
    Sum(Sum),
}

impl NumberNode for Piece {
    ghost use Rattle.bench.specs.declared.store.pieces.Piece.TheVariants.{Binary, AllDifferent, Sum};

    ghost number_rule = { elim [ Binary s ↦ ⟦<Binary as NumberNode>⟧.number_rule s | AllDifferent s ↦ ⟦<AllDifferent as NumberNode>⟧.number_rule s | Sum s ↦ ⟦<Sum as NumberNode>⟧.number_rule s ] };

    ghost settled = { elim [ Binary s ↦ ⟦<Binary as NumberNode>⟧.settled s | AllDifferent s ↦ ⟦<AllDifferent as NumberNode>⟧.settled s | Sum s ↦ ⟦<Sum as NumberNode>⟧.settled s ] };

    ghost held_numbers = { elim [ Binary s ↦ ⟦<Binary as NumberNode>⟧.held_numbers s | AllDifferent s ↦ ⟦<AllDifferent as NumberNode>⟧.held_numbers s | Sum s ↦ ⟦<Sum as NumberNode>⟧.held_numbers s ] };

    fn reset(&mut self, numbers: &[i64]) -> Result<(), NoMemory> {
        match self {
            Piece::Binary(node) => node.reset(numbers),
            Piece::AllDifferent(node) => node.reset(numbers),
            Piece::Sum(node) => node.reset(numbers),
        }
    }

    fn set(&mut self, change: NumberChange) -> Result<(), NoMemory> {
        match self {
            Piece::Binary(node) => node.set(change),
            Piece::AllDifferent(node) => node.set(change),
            Piece::Sum(node) => node.set(change),
        }
    }

    fn probe(&self, changes: &[NumberChange]) -> Result<i64, NodeFault> {
        match self {
            Piece::Binary(node) => node.probe(changes),
            Piece::AllDifferent(node) => node.probe(changes),
            Piece::Sum(node) => node.probe(changes),
        }
    }

    fn value(&self) -> Result<i64, RunFault> {
        match self {
            Piece::Binary(node) => node.value(),
            Piece::AllDifferent(node) => node.value(),
            Piece::Sum(node) => node.value(),
        }
    }

    fn place_violation(&self, place: usize) -> i64 {
        match self {
            Piece::Binary(node) => node.place_violation(place),
            Piece::AllDifferent(node) => node.place_violation(place),
            Piece::Sum(node) => node.place_violation(place),
        }
    }
}
