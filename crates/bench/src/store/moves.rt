//! Moves of cells.
ghost use Rattle.std.specs.Prelude.{◌≡◌, ◌<◌, ◌≤◌, length, IfOk, All};
ghost use Rattle.bench.specs.Lists.{moves_in};
ghost use Rattle.bench.specs.Parts.{AreMovesBelow};

use crate::draws::Draws;
use crate::store::one_list::{Moves, one_move, two_moves};
use cbl_base::{NoMemory, VarId};
use std::alloc::Global;

/// How many lists of moves are drawn.
const LISTS: u32 = 4096;

/// What is asked of a cell, or of two.
#[derive(Clone, Copy, PartialEq, Eq, Debug)]
pub(crate) enum Shape {
    Assignment,
    Swap,
}

/// Lists of moves of such a shape, over these many cells that start with these numbers.
pub(crate) fn lists_of(
    alloc: Global,
    draws: &mut Draws,
    shape: Shape,
    start: &[i64],
    count: u32,
) -> Result<Vec<Moves>, NoMemory>
    requires some { 2 ≤ count }
    requires cells { count ≤ length start.now }
    ensures { IfOk result (λ lists. All (λ v. AreMovesBelow count (moves_in v)) lists.items) }
{
    let mut lists = Vec::new(alloc);
    for _list in 0..LISTS {
        lists.push(one_of(draws, shape, start, count))?;
    }
    Ok(lists)
}

/// One list of such moves.
fn one_of(draws: &mut Draws, shape: Shape, start: &[i64], count: u32) -> Moves
    requires some { 2 ≤ count }
    requires cells { count ≤ length start.now }
    ensures { AreMovesBelow count (moves_in result) }
{
    match shape {
        Shape::Assignment => assignment(draws, count),
        Shape::Swap => swap(draws, start, count),
    }
}

/// A cell gets a number below the count.
fn assignment(draws: &mut Draws, count: u32) -> Moves
    requires { 0 < count }
    ensures { AreMovesBelow count (moves_in result) }
{
    let var = cell(draws.below(count));
    let number = i64::from(draws.below(count));
    one_move((var, number))
}

/// A cell of the first half gets the number with which one of the second starts, and that one the other's.
fn swap(draws: &mut Draws, start: &[i64], count: u32) -> Moves
    requires some { 2 ≤ count }
    requires cells { count ≤ length start.now }
    ensures { AreMovesBelow count (moves_in result) }
{
    let half = count / 2;
    let first = draws.below(half);
    let second = half + draws.below(half);
    two_moves(
        (cell(first), start[second as usize]),
        (cell(second), start[first as usize]),
    )
}

/// The variable of a cell.
fn cell(index: u32) -> VarId
    ensures { result.index ≡ index }
{
    VarId { solver: 0, index }
}
