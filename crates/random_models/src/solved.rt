//! A drawn model in a solver, and whether that answers as plain recursion does.
use crate::drawn::{Drawn, Kind, Step, index_of};
use crate::draws::Draws;
use crate::plain::{Answer, comes_to, place_of};
use cbl_base::{NoMemory, VarId};
use cbl_operations::{BinaryOp, NaryOp, Op, UnaryOp};
use ls_events::VarChange;
use ls_solver::{Solver, SolverFault};
use node_kinds::SolverNode;
use std::alloc::Global;
use term_model::{Term, VarKind};

/// The number of the solver that all variables are of.
const SOLVER: u32 = 7;

/// Deeper than any drawn term.
const DEEP: u32 = 10;

/// How it went on with a model.
#[derive(Clone, Copy, PartialEq, Eq, Drop)]
pub enum Seen {
    Cycle,
    Fault,
    Values,
    /// The solver answered otherwise than plain recursion does.
    Other,
}

fn id(index: u32) -> VarId {
    VarId {
        solver: SOLVER,
        index,
    }
}

fn op_of(kind: Kind) -> Op {
    match kind {
        Kind::Add => Op::Binary(BinaryOp::Add),
        Kind::Subtract => Op::Binary(BinaryOp::Sub),
        Kind::Multiply => Op::Binary(BinaryOp::Mul),
        Kind::Divide => Op::Binary(BinaryOp::Div),
        Kind::Remainder => Op::Binary(BinaryOp::Rem),
        Kind::Negate => Op::Unary(UnaryOp::Neg),
        Kind::Absolute => Op::Unary(UnaryOp::Abs),
        Kind::Least => Op::Nary(NaryOp::Least),
        Kind::Greatest => Op::Nary(NaryOp::Greatest),
        Kind::Sum => Op::Nary(NaryOp::Sum),
        Kind::Equal => Op::Binary(BinaryOp::Eq),
        Kind::Unequal => Op::Binary(BinaryOp::Ne),
        Kind::AtMost => Op::Binary(BinaryOp::Le),
        Kind::Below => Op::Binary(BinaryOp::Lt),
        Kind::Cell => Op::Element { low: 0, len: 2 },
    }
}

/// The term of a step, of the variable with this index.
fn term_at(
    alloc: Global,
    variable: u32,
    steps: &[Step],
    step: u32,
    deep: u32,
) -> Result<Term, NoMemory> {
    if deep == 0 {
        return Ok(Term::Const(0));
    }
    let place = place_of(variable, step);
    match steps.get(step as usize) {
        None => Ok(Term::Const(0)),
        Some(Step::Number(number)) => Ok(Term::Const(*number)),
        Some(Step::Variable(index)) => Ok(Term::Var(id(*index))),
        Some(Step::One(kind, a)) => {
            let a = term_at(alloc, variable, steps, *a, deep - 1)?;
            let args = vec![in alloc; a]?;
            let op = op_of(*kind);
            Ok(Term::Node { op, args, place })
        }
        Some(Step::Two(kind, a, b)) => {
            let a = term_at(alloc, variable, steps, *a, deep - 1)?;
            let b = term_at(alloc, variable, steps, *b, deep - 1)?;
            let args = vec![in alloc; a, b]?;
            let op = op_of(*kind);
            Ok(Term::Node { op, args, place })
        }
        Some(Step::Three(kind, a, b, c)) => {
            let a = term_at(alloc, variable, steps, *a, deep - 1)?;
            let b = term_at(alloc, variable, steps, *b, deep - 1)?;
            let c = term_at(alloc, variable, steps, *c, deep - 1)?;
            let args = vec![in alloc; a, b, c]?;
            let op = op_of(*kind);
            Ok(Term::Node { op, args, place })
        }
    }
}

/// Whether a variable got its term; one without a term needs none.
fn define<N: SolverNode>(
    alloc: Global,
    solver: &mut Solver<N>,
    model: &[Drawn],
    index: u32,
) -> Result<bool, NoMemory> {
    let Some(
        Drawn {
            term: Some(steps),
            ..
        },
    ) = model.get(index as usize)
    else {
        return Ok(true);
    };
    let last = index_of(steps.len()).saturating_sub(1);
    let term = term_at(alloc, index, steps, last, DEEP)?;
    define_by(solver, id(index), term)
}

/// Whether a variable got this term.
fn define_by<N: SolverNode>(
    solver: &mut Solver<N>,
    x: VarId,
    term: Term,
) -> Result<bool, NoMemory> {
    if !solver.usable() {
        return Ok(false);
    }
    match solver.fits(x, &term) {
        Ok(true) => Ok(solver.define(x, term).is_ok()),
        Ok(false) => Ok(false),
        Err(stop) => Err(stop),
    }
}

/// Whether all variables are made, and defined in this order.
fn build<N: SolverNode>(
    alloc: Global,
    solver: &mut Solver<N>,
    model: &[Drawn],
    order: &[u32],
) -> Result<bool, NoMemory> {
    for drawn in model {
        if !solver.usable() || solver.new_var(-100, 100, drawn.start).is_err() {
            return Ok(false);
        }
    }
    for index in order {
        if !define(alloc, solver, model, *index)? {
            return Ok(false);
        }
    }
    Ok(true)
}

/// Whether these are the variables with these indices.
fn are_named(found: &[VarId], wanted: &[u32]) -> bool {
    found.len() == wanted.len()
        && found
            .iter()
            .zip(wanted.iter())
            .all(|(x, index)| *x == id(*index))
}

/// The value of a variable, where it has one.
fn value_of<N: SolverNode>(solver: &Solver<N>, x: VarId) -> Option<i64> {
    if !solver.usable() {
        return None;
    }
    match solver.kind(x) {
        Some(VarKind::Set) => None,
        _ => solver.value(x).ok(),
    }
}

/// Whether each variable has this value.
fn has_values<N: SolverNode>(solver: &Solver<N>, wanted: &[i64]) -> bool {
    for index in 0..index_of(wanted.len()) {
        if value_of(solver, id(index)) != wanted.get(index as usize).copied() {
            return false;
        }
    }
    true
}

/// What a stop of a solver is, where plain recursion gives this answer.
fn stopped<N: SolverNode>(solver: &Solver<N>, stop: &SolverFault, wanted: &Answer) -> Seen {
    match stop {
        SolverFault::Cyclic(found) => match wanted {
            Answer::Cycle(path) if are_named(found, path) => Seen::Cycle,
            _ => Seen::Other,
        },
        SolverFault::At(place, fault) => match wanted {
            Answer::Fault(at, cause) if *place == *at && *fault == *cause && !solver.usable() => {
                Seen::Fault
            }
            _ => Seen::Other,
        },
        _ => Seen::Other,
    }
}

/// What a solver's values are, where plain recursion gives this answer.
fn valued<N: SolverNode>(solver: &Solver<N>, wanted: &Answer) -> Seen {
    match wanted {
        Answer::Values(values) if has_values(solver, values) => Seen::Values,
        _ => Seen::Other,
    }
}

/// How the solver closes, where plain recursion gives this answer.
fn closes<N: SolverNode>(solver: &mut Solver<N>, wanted: &Answer) -> Seen {
    if !solver.usable() || !solver.has_defined_sets() {
        return Seen::Other;
    }
    match solver.close(1) {
        Ok(()) => valued(solver, wanted),
        Err(stop) => stopped(solver, &stop, wanted),
    }
}

/// Whether the changes are those between two lists of values, in order of declaration.
fn are_changes(changes: &[VarChange], old: &[i64], new: &[i64]) -> bool {
    let mut told = changes.iter();
    for (index, (before, after)) in old.iter().zip(new.iter()).enumerate() {
        if before != after {
            match told.next() {
                Some(change)
                    if change.var == id(index_of(index))
                        && change.old == *before
                        && change.new == *after => {}
                _ => return false,
            }
        }
    }
    told.next().is_none()
}

/// What a commit is that told these changes, where plain recursion gives this answer.
fn told<N: SolverNode>(
    solver: &Solver<N>,
    changes: &[VarChange],
    old: &[i64],
    wanted: &Answer,
) -> Seen {
    match wanted {
        Answer::Values(new) if are_changes(changes, old, new) => valued(solver, wanted),
        _ => Seen::Other,
    }
}

/// How a free variable gets a number, where this is what the values were and what they come to.
fn commits<N: SolverNode>(
    solver: &mut Solver<N>,
    x: VarId,
    number: i64,
    old: &[i64],
    wanted: &Answer,
) -> Seen {
    if !solver.usable() {
        return Seen::Other;
    }
    match solver.kind(x) {
        Some(VarKind::Set) => Seen::Other,
        _ => match solver.commit_uncounted(&[(x, number)]) {
            Ok(changes) => told(solver, &changes, old, wanted),
            Err(stop) => stopped(solver, &stop, wanted),
        },
    }
}

/// The numbers of a model's variables at the beginning.
fn starts(alloc: Global, model: &[Drawn]) -> Result<Vec<i64>, NoMemory> {
    let mut numbers = Vec::new(alloc);
    for drawn in model {
        numbers.push(drawn.start)?;
    }
    Ok(numbers)
}

/// The order in which the terms are posted: forward, or backward.
fn drawn_order(alloc: Global, draws: &mut Draws, count: u32) -> Result<Vec<u32>, NoMemory> {
    let backward = draws.below(2) == 0;
    let mut order = Vec::new(alloc);
    for index in 0..count {
        order.push(if backward {
            (count - 1).saturating_sub(index)
        } else {
            index
        })?;
    }
    Ok(order)
}

/// A free variable of a model, where one is drawn.
fn drawn_free(draws: &mut Draws, model: &[Drawn]) -> Option<u32> {
    let index = draws.below(index_of(model.len()));
    match model.get(index as usize) {
        Some(Drawn { term: None, .. }) => Some(index),
        _ => None,
    }
}

/// Gives free variables numbers, to the first fault or difference, and tells how the last one went.
fn follow<N: SolverNode>(
    alloc: Global,
    solver: &mut Solver<N>,
    draws: &mut Draws,
    model: &[Drawn],
    order: &[u32],
    values: Vec<i64>,
) -> Result<Seen, NoMemory> {
    let mut free = starts(alloc, model)?;
    let mut old = values;
    for _commit in 0..6 {
        if let Some(index) = drawn_free(draws, model) {
            let number = draws.number();
            if let Some(place) = free.get_mut(index as usize) {
                *place = number;
            }
            let wanted = comes_to(alloc, model, &free, order)?;
            let seen = commits(solver, id(index), number, &old, &wanted);
            match (seen, wanted) {
                (Seen::Values, Answer::Values(new)) => old = new,
                _ => return Ok(seen),
            }
        }
    }
    Ok(Seen::Values)
}

/// Draws a model, and tells how a solver went on with it.
pub fn compare<N: SolverNode>(
    alloc: Global,
    draws: &mut Draws,
    model: &[Drawn],
) -> Result<Seen, NoMemory> {
    let order = drawn_order(alloc, draws, index_of(model.len()))?;
    let free = starts(alloc, model)?;
    let wanted = comes_to(alloc, model, &free, &order)?;
    let mut solver = Solver::<N>::new(alloc, SOLVER);
    if !build(alloc, &mut solver, model, &order)? {
        return Ok(Seen::Other);
    }
    let seen = closes(&mut solver, &wanted);
    match (seen, wanted) {
        (Seen::Values, Answer::Values(values)) => follow(
            alloc,
            &mut solver,
            draws,
            model,
            &order,
            values,
        ),
        _ => Ok(seen),
    }
}
