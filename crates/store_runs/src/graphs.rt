//! The graphs: variables, and nodes that are sums of their inputs.
use crate::draws::Draws;
use cbl_base::{NoMemory, VarId};
use std::alloc::Global;

/// How the nodes of a graph hang together.
#[derive(Clone, Copy, Drop)]
pub(crate) enum Shape {
    /// Each of 1,000 variables is the one before and 1, beside 1,000 that nothing uses, and one that is 1.
    Chain,
    /// Each of 10,000 nodes is on a variable of its own.
    Apart,
    /// Each of 64 nodes is on the same variable.
    Beside,
    /// The same 64 nodes, and on each of them one more.
    Under,
    /// Of 12 variables four have the value of a node; 24 nodes are on those before them, some twice.
    Drawn,
}

/// Variables and nodes by id, the variables first.
#[derive(Drop)]
pub(crate) struct Graph {
    pub(crate) shape: Shape,
    /// Of each id those whose values it takes, in order.
    pub(crate) lists: Vec<Vec<u32>>,
}

/// How many variables a graph has, and how many ids.
fn sizes_of(shape: Shape) -> (u32, u32) {
    match shape {
        Shape::Chain => (2_001, 3_000),
        Shape::Apart => (10_000, 20_000),
        Shape::Beside => (1, 65),
        Shape::Under => (1, 129),
        Shape::Drawn => (12, 36),
    }
}

/// The input of an id at a place.
fn chain_input(id: u32, place: u32) -> Option<u32> {
    match place {
        0 if id >= 2_001 => Some(id - 2_001),
        0 if id >= 1 && id < 1_000 => Some(id + 2_000),
        1 if id >= 2_001 => Some(2_000),
        _ => None,
    }
}

/// The input of an id at a place: a node before it, or a variable whose node is before it.
fn drawn_input(draws: &mut Draws, id: u32, place: u32) -> Option<u32> {
    if id < 12 {
        return if id >= 8 && place == 0 {
            Some((id - 8) * 6 + 17)
        } else {
            None
        };
    }
    if place > 0 && draws.below(3) == 0 {
        return None;
    }
    let input = draws.below(id);
    if input >= 8 && input < 12 && (input - 8) * 6 + 17 >= id {
        return Some(draws.below(8));
    }
    Some(input)
}

/// The input of an id at a place, from 0 to 2, where it has one there.
fn input_of(shape: Shape, draws: &mut Draws, id: u32, place: u32) -> Option<u32> {
    match shape {
        Shape::Chain => chain_input(id, place),
        Shape::Apart if id >= 10_000 && place == 0 => Some(id - 10_000),
        Shape::Apart => None,
        Shape::Beside if id >= 1 && place == 0 => Some(0),
        Shape::Beside => None,
        Shape::Under if id >= 65 && place == 0 => Some(id - 64),
        Shape::Under if id >= 1 && place == 0 => Some(0),
        Shape::Under => None,
        Shape::Drawn => drawn_input(draws, id, place),
    }
}

/// What a variable starts with.
fn start_of(shape: Shape, draws: &mut Draws, id: u32) -> i64 {
    match shape {
        Shape::Chain if id == 2_000 => 1,
        Shape::Drawn => (draws.below(9) as i64).wrapping_sub(4),
        _ => 0,
    }
}

/// Draws a graph of this shape.
pub(crate) fn graph_of(alloc: Global, shape: Shape, draws: &mut Draws) -> Result<Graph, NoMemory> {
    let mut lists = Vec::new(alloc);
    for id in 0..sizes_of(shape).1 {
        let mut list = Vec::new(alloc);
        for place in 0..3 {
            if let Some(input) = input_of(shape, draws, id, place) {
                list.push(input)?;
            }
        }
        lists.push(list)?;
    }
    Ok(Graph { shape, lists })
}

/// Draws what the variables of a graph start with.
pub(crate) fn numbers_of(
    alloc: Global,
    shape: Shape,
    draws: &mut Draws,
) -> Result<Vec<i64>, NoMemory> {
    let mut numbers = Vec::new(alloc);
    for id in 0..sizes_of(shape).0 {
        numbers.push(start_of(shape, draws, id))?;
    }
    Ok(numbers)
}

/// Draws a move of a free variable.
fn move_of(shape: Shape, draws: &mut Draws) -> (VarId, i64) {
    let (index, number) = match shape {
        Shape::Chain => (0, 5),
        Shape::Apart => (5_000, 5),
        Shape::Beside | Shape::Under => (0, 5),
        Shape::Drawn => (draws.below(8), draws.number()),
    };
    (VarId { solver: 3, index }, number)
}

/// Draws the moves of a commit: one, or two of different variables.
pub(crate) fn moves_of(
    alloc: Global,
    shape: Shape,
    draws: &mut Draws,
) -> Result<Vec<(VarId, i64)>, NoMemory> {
    let mut moves = Vec::new(alloc);
    let first = move_of(shape, draws);
    let second = move_of(shape, draws);
    moves.push(first)?;
    if second.0.index != first.0.index {
        moves.push(second)?;
    }
    Ok(moves)
}

/// Draws the target of a probe.
pub(crate) fn target_of(shape: Shape, draws: &mut Draws) -> u32 {
    match shape {
        Shape::Chain => 999,
        Shape::Apart => 15_000,
        Shape::Beside | Shape::Under => 30,
        Shape::Drawn => draws.below(36),
    }
}
