//! What a drawn model comes to, by plain recursion over its terms.
use crate::drawn::{Drawn, Kind, Step, index_of};
use cbl_base::{NoMemory, Place, RunFault};
use std::alloc::Global;

/// Deeper than any term of a drawn model that has no cycle, through all definitions.
const DEEP: u32 = 100;

/// What a model comes to.
#[derive(Drop)]
pub enum Answer {
    /// The variables of the named cycle.
    Cycle(Vec<u32>),
    /// The first operation that fails.
    Fault(Place, RunFault),
    Values(Vec<i64>),
}

/// Where the step of a variable's term stands.
pub fn place_of(variable: u32, step: u32) -> Place {
    Place {
        line: variable.saturating_add(1),
        col: step.saturating_add(1),
    }
}

/// The term of a variable.
fn term_of(model: &[Drawn], variable: u32) -> Option<&[Step]> {
    match &model.get(variable as usize)?.term {
        Some(steps) => Some(steps.as_slice()),
        None => None,
    }
}

// ---- values
fn narrow(exact: i128) -> Result<i64, RunFault> {
    match i64::try_from(exact) {
        Ok(number) => Ok(number),
        Err(_) => Err(RunFault::Overflow),
    }
}

fn truth(holds: bool) -> Result<i64, RunFault> {
    if holds { Ok(1) } else { Ok(0) }
}

fn quotient(a: i128, b: i128) -> Result<i64, RunFault> {
    match a.checked_div(b) {
        Some(exact) => narrow(exact),
        None => Err(RunFault::DivideByZero),
    }
}

fn remainder(a: i128, b: i128) -> Result<i64, RunFault> {
    match a.checked_rem(b) {
        Some(exact) => narrow(exact),
        None => Err(RunFault::DivideByZero),
    }
}

fn apply_one(kind: Kind, a: i64) -> Result<i64, RunFault> {
    let wide = a as i128;
    match kind {
        Kind::Negate => narrow(wide.wrapping_neg()),
        _ => narrow(if a < 0 { wide.wrapping_neg() } else { wide }),
    }
}

fn apply_two(kind: Kind, a: i64, b: i64) -> Result<i64, RunFault> {
    let (x, y) = (a as i128, b as i128);
    match kind {
        Kind::Add | Kind::Sum => narrow(x.wrapping_add(y)),
        Kind::Subtract => narrow(x.wrapping_sub(y)),
        Kind::Multiply => narrow(x.wrapping_mul(y)),
        Kind::Divide => quotient(x, y),
        Kind::Remainder => remainder(x, y),
        Kind::Least => Ok(if b < a { b } else { a }),
        Kind::Greatest => Ok(if a < b { b } else { a }),
        Kind::Equal => truth(a == b),
        Kind::Unequal => truth(a != b),
        Kind::AtMost => truth(a <= b),
        _ => truth(a < b),
    }
}

fn pick(index: i64, first: i64, second: i64) -> Result<i64, RunFault> {
    match index {
        0 => Ok(first),
        1 => Ok(second),
        _ => Err(RunFault::OutOfRange),
    }
}

/// The outcome of a step of a term; nothing where a part of it has no value.
#[cycle(recursion)]
fn outcome(
    model: &[Drawn],
    free: &[i64],
    steps: &[Step],
    step: u32,
    deep: u32,
) -> Option<Result<i64, RunFault>> {
    if deep == 0 {
        return None;
    }
    match *steps.get(step as usize)? {
        Step::Number(number) => Some(Ok(number)),
        Step::Variable(variable) => Some(Ok(value(model, free, variable, deep - 1)?)),
        Step::One(kind, a) => {
            let a = outcome(model, free, steps, a, deep - 1)?.ok()?;
            Some(apply_one(kind, a))
        }
        Step::Two(kind, a, b) => {
            let a = outcome(model, free, steps, a, deep - 1)?.ok()?;
            let b = outcome(model, free, steps, b, deep - 1)?.ok()?;
            Some(apply_two(kind, a, b))
        }
        Step::Three(_, a, b, c) => {
            let a = outcome(model, free, steps, a, deep - 1)?.ok()?;
            let b = outcome(model, free, steps, b, deep - 1)?.ok()?;
            let c = outcome(model, free, steps, c, deep - 1)?.ok()?;
            Some(pick(a, b, c))
        }
    }
}

/// The value of a variable, where it has one.
#[cycle(recursion)]
fn value(model: &[Drawn], free: &[i64], variable: u32, deep: u32) -> Option<i64> {
    if deep == 0 {
        return None;
    }
    match term_of(model, variable) {
        None => free.get(variable as usize).copied(),
        Some(steps) => {
            let last = index_of(steps.len()).checked_sub(1)?;
            outcome(model, free, steps, last, deep - 1)?.ok()
        }
    }
}

/// The first step of a variable's term that fails.
fn failure_of(model: &[Drawn], free: &[i64], variable: u32) -> Option<(Place, RunFault)> {
    let steps = term_of(model, variable)?;
    for step in 0..index_of(steps.len()) {
        if let Some(Err(fault)) = outcome(model, free, steps, step, DEEP) {
            return Some((place_of(variable, step), fault));
        }
    }
    None
}

/// The first operation that fails, of the terms in this order.
fn failure(model: &[Drawn], free: &[i64], order: &[u32]) -> Option<(Place, RunFault)> {
    for variable in order {
        if let Some(found) = failure_of(model, free, *variable) {
            return Some(found);
        }
    }
    None
}

fn values(alloc: Global, model: &[Drawn], free: &[i64]) -> Result<Vec<i64>, NoMemory> {
    let mut values = Vec::new(alloc);
    for variable in 0..index_of(model.len()) {
        values.push(value(model, free, variable, DEEP).unwrap_or(0))?;
    }
    Ok(values)
}

// ---- cycles
/// Whether the term of a variable names another one.
fn names(model: &[Drawn], variable: u32, other: u32) -> bool {
    match term_of(model, variable) {
        None => false,
        Some(steps) => steps.iter().any(
            |step| matches!(step, Step::Variable(named) if *named == other),
        ),
    }
}

/// Whether so many definitions lead from the last variable of a path to this one; then the path has those between them.
fn leads(
    model: &[Drawn],
    from: u32,
    to: u32,
    length: u32,
    path: &mut Vec<u32>,
) -> Result<bool, NoMemory> {
    if length <= 1 {
        return Ok(names(model, from, to));
    }
    for next in 0..index_of(model.len()) {
        if names(model, from, next) {
            path.push(next)?;
            if leads(model, next, to, length - 1, path)? {
                return Ok(true);
            }
            path.pop();
        }
    }
    Ok(false)
}

/// The shortest cycle through the first variable that is on one, and of these the first in order of declaration.
fn cycle(alloc: Global, model: &[Drawn]) -> Result<Option<Vec<u32>>, NoMemory> {
    let count = index_of(model.len());
    for variable in 0..count {
        for length in 1..=count {
            let mut path = vec![in alloc; variable]?;
            if leads(model, variable, variable, length, &mut path)? {
                return Ok(Some(path));
            }
        }
    }
    Ok(None)
}

/// What a model comes to, where its terms were posted in this order and these are the numbers of the free variables.
pub fn comes_to(
    alloc: Global,
    model: &[Drawn],
    free: &[i64],
    order: &[u32],
) -> Result<Answer, NoMemory> {
    if let Some(found) = cycle(alloc, model)? {
        return Ok(Answer::Cycle(found));
    }
    match failure(model, free, order) {
        Some((place, fault)) => Ok(Answer::Fault(place, fault)),
        None => Ok(Answer::Values(values(alloc, model, free)?)),
    }
}
