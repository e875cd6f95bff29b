//! Models that are drawn: variables, some of which have a term, in a form of its own.
use crate::draws::Draws;
use cbl_base::NoMemory;
use std::alloc::Global;

/// What a term does with the values of its operands.
#[derive(Clone, Copy, Drop)]
pub enum Kind {
    Add,
    Subtract,
    Multiply,
    Divide,
    Remainder,
    Negate,
    Absolute,
    Least,
    Greatest,
    Sum,
    Equal,
    Unequal,
    AtMost,
    Below,
    /// Of an index from 0 and two cells.
    Cell,
}

/// A step of a term: its operands are steps before it.
#[derive(Clone, Copy, Drop)]
pub enum Step {
    Number(i64),
    Variable(u32),
    One(Kind, u32),
    Two(Kind, u32, u32),
    Three(Kind, u32, u32, u32),
}

/// A variable: its first number, and its term where it has one, in post-order.
#[derive(Drop)]
pub struct Drawn {
    pub start: i64,
    pub term: Option<Vec<Step>>,
}

/// A count or an index as 32 bits hold it.
pub fn index_of(count: usize) -> u32 {
    u32::try_from(count).unwrap_or(u32::MAX)
}

fn one_of(draws: &mut Draws) -> Kind {
    match draws.below(2) {
        0 => Kind::Negate,
        _ => Kind::Absolute,
    }
}

fn two_of(draws: &mut Draws) -> Kind {
    match draws.below(12) {
        0 => Kind::Add,
        1 => Kind::Subtract,
        2 => Kind::Multiply,
        3 => Kind::Divide,
        4 => Kind::Remainder,
        5 => Kind::Least,
        6 => Kind::Greatest,
        7 => Kind::Sum,
        8 => Kind::Equal,
        9 => Kind::Unequal,
        10 => Kind::AtMost,
        _ => Kind::Below,
    }
}

/// A number, or one of so many variables.
fn leaf(draws: &mut Draws, variables: u32) -> Step {
    match draws.below(3) {
        0 => Step::Number(draws.number()),
        _ => Step::Variable(draws.below(variables)),
    }
}

/// Adds a step, and tells its index.
fn put(steps: &mut Vec<Step>, step: Step) -> Result<u32, NoMemory> {
    let index = index_of(steps.len());
    steps.push(step)?;
    Ok(index)
}

/// Draws a term of at most so many operations inside each other behind these steps, and tells the index of its last step.
fn draw_term(
    draws: &mut Draws,
    variables: u32,
    depth: u32,
    steps: &mut Vec<Step>,
) -> Result<u32, NoMemory> {
    if depth == 0 || draws.below(5) == 0 {
        return put(steps, leaf(draws, variables));
    }
    let first = draw_term(draws, variables, depth - 1, steps)?;
    match draws.below(8) {
        0 => put(steps, Step::One(one_of(draws), first)),
        1 => {
            let second = draw_term(draws, variables, 0, steps)?;
            let third = draw_term(draws, variables, 0, steps)?;
            put(steps, Step::Three(Kind::Cell, first, second, third))
        }
        _ => {
            let second = draw_term(draws, variables, depth - 1, steps)?;
            put(steps, Step::Two(two_of(draws), first, second))
        }
    }
}

/// Draws a model of so many variables.
pub fn draw_model(
    alloc: Global,
    draws: &mut Draws,
    variables: u32,
) -> Result<Vec<Drawn>, NoMemory> {
    let mut model = Vec::new(alloc);
    for _variable in 0..variables {
        let start = draws.number();
        let term = if draws.below(2) == 0 {
            None
        } else {
            let mut steps = Vec::new(alloc);
            draw_term(draws, variables, 2, &mut steps)?;
            Some(steps)
        };
        model.push(Drawn { start, term })?;
    }
    Ok(model)
}
