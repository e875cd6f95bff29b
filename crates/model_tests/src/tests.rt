//! Models that are built and asked, with the values that the language's description gives.
use cbl_base::{NoMemory, Place, RunFault, VarId};
use cbl_operations::{BinaryOp, NaryOp, Op};
use cbl_violations::Constraint;
use model_values::{AskStop, ModelStop, Move, NoUsers, Whole, delta, fresh};
use std::alloc::Global;
use std::process::Abort;
use std::test::*;
use term_model::{Definition, Member, Model, Posted, Term, Total, VarDecl, VarKind, is_usable};
use violation_shares::variable_violations;

fn at(col: u32) -> Place {
    Place { line: 1, col }
}

fn var(index: u32) -> Term {
    Term::Var(VarId { solver: 0, index })
}

fn node(alloc: Global, op: Op, left: Term, right: Term, col: u32) -> Result<Term, NoMemory> {
    let mut args = Vec::new(alloc);
    args.push(left)?;
    args.push(right)?;
    Ok(Term::Node {
        op,
        args,
        place: at(col),
    })
}

// `c[x]` over 10, 20, 30 with its `[` at this place.
fn cell_of(alloc: Global, place: Place) -> Result<Term, NoMemory> {
    let mut args = Vec::new(alloc);
    for term in [var(0), Term::Const(10), Term::Const(20), Term::Const(30)] {
        args.push(term)?;
    }
    Ok(Term::Node {
        op: Op::Element { low: 1, len: 3 },
        args,
        place,
    })
}

// A model of so many variables, with one system and one objective.
fn model_of(alloc: Global, count: u32) -> Result<Model, NoMemory> {
    let mut vars = Vec::new(alloc);
    for _var in 0..count {
        vars.push(VarDecl {
            kind: VarKind::Number,
            low: 0,
            up: 10,
        })?;
    }
    let mut systems = Vec::new(alloc);
    systems.push(Total {
        place: at(90),
        members: Vec::new(alloc),
    })?;
    let mut objectives = Vec::new(alloc);
    objectives.push(Total {
        place: at(91),
        members: Vec::new(alloc),
    })?;
    Ok(Model {
        vars,
        defs: Vec::new(alloc),
        systems,
        objectives,
        posted: Vec::new(alloc),
    })
}

fn define(model: &mut Model, index: u32, term: Term) -> Result<(), NoMemory> {
    model.defs.push(Definition {
        var: VarId { solver: 0, index },
        term,
    })?;
    Ok(())
}

fn post(model: &mut Model, posted: Posted) -> Result<(), NoMemory> {
    Ok(model.posted.push(posted)?)
}

fn constrain(model: &mut Model, member: u32, term: Term, weight: i64) -> Result<(), NoMemory> {
    if let Some(total) = model.systems.get_mut(0) {
        total.members.push(Member { term, weight })?;
    }
    post(model, Posted::Constrain { system: 0, member })
}

// A second system, with one member.
fn constrain_second(alloc: Global, model: &mut Model, term: Term) -> Result<(), NoMemory> {
    let mut members = Vec::new(alloc);
    members.push(Member { term, weight: 1 })?;
    model.systems.push(Total {
        place: at(92),
        members,
    })?;
    let (system, member) = (1, 0);
    post(model, Posted::Constrain { system, member })
}

fn add_part(model: &mut Model, member: u32, term: Term) -> Result<(), NoMemory> {
    if let Some(total) = model.objectives.get_mut(0) {
        total.members.push(Member { term, weight: 1 })?;
    }
    post(
        model,
        Posted::Part {
            objective: 0,
            member,
        },
    )
}

// The queens of size 4.
fn queens(alloc: Global) -> Result<Model, NoMemory> {
    let mut model = model_of(alloc, 4)?;
    for (member, slope) in [(0, 0), (1, 1), (2, -1)] {
        let mut args = Vec::new(alloc);
        for (index, shift) in [
            (0, 0),
            (1, slope),
            (2, slope + slope),
            (3, slope + slope + slope),
        ] {
            args.push(node(
                alloc,
                Op::Binary(BinaryOp::Add),
                var(index),
                Term::Const(shift),
                5,
            )?)?;
        }
        let term = Term::Node {
            op: Op::Constraint(Constraint::AllDifferent),
            args,
            place: at(7),
        };
        constrain(&mut model, member, term, 1)?;
    }
    Ok(model)
}

// What the system comes to, where the model may be asked.
fn system_at(alloc: Global, model: &Model, assignment: &[i64]) -> Option<Result<i64, ModelStop>> {
    let Ok(true) = is_usable(alloc, model) else {
        return None;
    };
    if assignment.len() != model.vars.len() {
        return None;
    }
    match fresh(alloc, model, assignment) {
        Ok(values) => Some(Ok(*values.systems.get(0)?)),
        Err(stop) => Some(Err(stop)),
    }
}

// What the objective comes to, where the model may be asked.
fn objective_at(
    alloc: Global,
    model: &Model,
    assignment: &[i64],
) -> Option<Result<i64, ModelStop>> {
    let Ok(true) = is_usable(alloc, model) else {
        return None;
    };
    if assignment.len() != model.vars.len() {
        return None;
    }
    match fresh(alloc, model, assignment) {
        Ok(values) => Some(Ok(*values.objectives.get(0)?)),
        Err(stop) => Some(Err(stop)),
    }
}

// The violations of a variable in a system, where the model may be asked.
fn violations_at(
    alloc: Global,
    model: &Model,
    assignment: &[i64],
    system: u32,
    var: u32,
) -> Option<Result<i64, AskStop>> {
    let Ok(true) = is_usable(alloc, model) else {
        return None;
    };
    let count = model.vars.len();
    if assignment.len() != count || var as usize >= count {
        return None;
    }
    if system as usize >= model.systems.len() {
        return None;
    }
    Some(variable_violations(alloc, model, assignment, &NoUsers, system, var))
}

// The delta of the system or the objective, where the model may be asked.
fn delta_at(
    alloc: Global,
    model: &Model,
    assignment: &[i64],
    whole: Whole,
    change: Move,
) -> Option<Result<i64, AskStop>> {
    let Ok(true) = is_usable(alloc, model) else {
        return None;
    };
    let count = model.vars.len();
    if assignment.len() != count {
        return None;
    }
    let (left, right) = match change {
        Move::Assign { var, value: _ } => (var, var),
        Move::Swap { left, right } => (left, right),
    };
    if left as usize >= count || right as usize >= count {
        return None;
    }
    let known = match whole {
        Whole::System(index) => (index as usize) < model.systems.len(),
        Whole::Objective(index) => (index as usize) < model.objectives.len(),
    };
    if !known {
        return None;
    }
    Some(delta(alloc, model, assignment, &NoUsers, whole, change))
}

const SYSTEM: Whole = Whole::System(0);

const OBJECTIVE: Whole = Whole::Objective(0);

// A model that is asked, with what each answer is to be.
#[derive(Drop)]
struct Asked<'a, R> {
    rt: &'a R,
    alloc: Global,
    model: &'a Model,
}

fn ask<'a, R>(rt: &'a R, alloc: Global, model: &'a Model) -> Asked<'a, R> {
    Asked { rt, alloc, model }
}

impl<R: Abort> Asked<'_, R> {
    fn system(&self, assignment: &[i64], wanted: Result<i64, ModelStop>) {
        let found = system_at(self.alloc, self.model, assignment);
        assert_eq!(self.rt; found, Some(wanted));
    }

    fn objective(&self, assignment: &[i64], wanted: Result<i64, ModelStop>) {
        let found = objective_at(self.alloc, self.model, assignment);
        assert_eq!(self.rt; found, Some(wanted));
    }

    fn violations(&self, assignment: &[i64], system: u32, var: u32, wanted: Result<i64, AskStop>) {
        let found = violations_at(self.alloc, self.model, assignment, system, var);
        assert_eq!(self.rt; found, Some(wanted));
    }

    fn delta(&self, assignment: &[i64], whole: Whole, change: Move, wanted: Result<i64, AskStop>) {
        let found = delta_at(self.alloc, self.model, assignment, whole, change);
        assert_eq!(self.rt; found, Some(wanted));
    }
}

#[test]
fn queens_of_four(rt: HostRuntime) -> Result<(), Fail> {
    let alloc = rt.alloc();
    let model = queens(alloc)?;
    let asked = ask(&rt, alloc, &model);
    asked.system(&[1, 1, 1, 1], Ok(3));
    asked.system(&[1, 2, 3, 4], Ok(3));
    let change = Move::Assign { var: 1, value: 3 };
    asked.delta(&[1, 1, 1, 1], SYSTEM, change, Ok(0));
    let ends = Move::Swap { left: 0, right: 3 };
    asked.delta(&[1, 2, 3, 4], SYSTEM, ends, Ok(-1));
    let itself = Move::Swap { left: 0, right: 0 };
    asked.delta(&[1, 2, 3, 4], SYSTEM, itself, Ok(0));
    // in one row each queen is in one constraint that doesn't hold, and likewise in one diagonal
    asked.violations(&[1, 1, 1, 1], 0, 2, Ok(1));
    asked.violations(&[1, 2, 3, 4], 0, 2, Ok(1));
    Ok(())
}

// `x == 5 || y <= 1`
#[test]
fn the_least_of_a_disjunction(rt: HostRuntime) -> Result<(), Fail> {
    let alloc = rt.alloc();
    let mut model = model_of(alloc, 2)?;
    let left = node(
        alloc,
        Op::Constraint(Constraint::Eq),
        var(0),
        Term::Const(5),
        3,
    )?;
    let right = node(
        alloc,
        Op::Constraint(Constraint::Le),
        var(1),
        Term::Const(1),
        9,
    )?;
    let either = node(alloc, Op::Constraint(Constraint::AnyOf), left, right, 6)?;
    constrain(&mut model, 0, either, 1)?;
    let asked = ask(&rt, alloc, &model);
    asked.system(&[2, 3], Ok(2));
    asked.violations(&[2, 3], 0, 0, Ok(0));
    asked.violations(&[2, 3], 0, 1, Ok(2));
    Ok(())
}

// `x == 4 && y <= 0`, of weight 3
#[test]
fn a_weight_multiplies(rt: HostRuntime) -> Result<(), Fail> {
    let alloc = rt.alloc();
    let mut model = model_of(alloc, 2)?;
    let left = node(
        alloc,
        Op::Constraint(Constraint::Eq),
        var(0),
        Term::Const(4),
        3,
    )?;
    let right = node(
        alloc,
        Op::Constraint(Constraint::Le),
        var(1),
        Term::Const(0),
        9,
    )?;
    let both = node(alloc, Op::Constraint(Constraint::AllOf), left, right, 6)?;
    constrain(&mut model, 0, both, 3)?;
    let asked = ask(&rt, alloc, &model);
    asked.system(&[1, 2], Ok(15));
    asked.violations(&[1, 2], 0, 1, Ok(6));
    let change = Move::Assign { var: 0, value: 4 };
    asked.delta(&[1, 2], SYSTEM, change, Ok(-9));
    Ok(())
}

// The objective `x * x`
#[test]
fn the_delta_of_a_square(rt: HostRuntime) -> Result<(), Fail> {
    let alloc = rt.alloc();
    let mut model = model_of(alloc, 1)?;
    let square = node(alloc, Op::Binary(BinaryOp::Mul), var(0), var(0), 3)?;
    add_part(&mut model, 0, square)?;
    let asked = ask(&rt, alloc, &model);
    asked.objective(&[3], Ok(9));
    let change = Move::Assign { var: 0, value: 4 };
    asked.delta(&[3], OBJECTIVE, change, Ok(7));
    Ok(())
}

// `a[x]` of two cells, and the move to a third
#[test]
fn an_element_out_of_range_after_a_move(rt: HostRuntime) -> Result<(), Fail> {
    let alloc = rt.alloc();
    let mut model = model_of(alloc, 1)?;
    let mut args = Vec::new(alloc);
    for term in [var(0), Term::Const(7), Term::Const(8)] {
        args.push(term)?;
    }
    let cell = Term::Node {
        op: Op::Element { low: 1, len: 2 },
        args,
        place: at(4),
    };
    add_part(&mut model, 0, cell)?;
    let asked = ask(&rt, alloc, &model);
    asked.objective(&[2], Ok(8));
    let change = Move::Assign { var: 0, value: 3 };
    let wanted = AskStop::Fault(at(4), RunFault::OutOfRange);
    asked.delta(&[2], OBJECTIVE, change, Err(wanted));
    // the system doesn't stand on the cell
    asked.delta(&[2], SYSTEM, change, Ok(0));
    Ok(())
}

// `z == x + x - x` at the greatest number: the inner sum fails first
#[test]
fn a_partial_sum_that_does_not_fit(rt: HostRuntime) -> Result<(), Fail> {
    let alloc = rt.alloc();
    let mut model = model_of(alloc, 2)?;
    let sum = node(alloc, Op::Binary(BinaryOp::Add), var(0), var(0), 19)?;
    let term = node(alloc, Op::Binary(BinaryOp::Sub), sum, var(0), 21)?;
    define(&mut model, 1, term)?;
    post(&mut model, Posted::Define(0))?;
    let stop = ModelStop::Fault(at(19), RunFault::Overflow);
    let asked = ask(&rt, alloc, &model);
    asked.system(&[i64::MAX, 0], Err(stop));
    let change = Move::Assign { var: 1, value: 3 };
    let wanted = AskStop::Run(RunFault::DefinedVariable);
    asked.delta(&[1, 0], SYSTEM, change, Err(wanted));
    Ok(())
}

// `sum(x, x, -x)` at the greatest number
#[test]
fn a_sum_is_exact(rt: HostRuntime) -> Result<(), Fail> {
    let alloc = rt.alloc();
    let mut model = model_of(alloc, 3)?;
    let mut args = Vec::new(alloc);
    for index in [0, 1, 2] {
        args.push(var(index))?;
    }
    let sum = Term::Node {
        op: Op::Nary(NaryOp::Sum),
        args,
        place: at(4),
    };
    add_part(&mut model, 0, sum)?;
    let k = i64::MAX;
    let asked = ask(&rt, alloc, &model);
    asked.objective(&[k, k, -k], Ok(k));
    Ok(())
}

// Each variable but the last is one more than the next, which is defined behind it.
#[test]
fn definitions_used_before_their_declaration(rt: HostRuntime) -> Result<(), Fail> {
    let alloc = rt.alloc();
    let count = 262_144;
    let mut model = model_of(alloc, count)?;
    let mut assignment = Vec::new(alloc);
    for index in 0..count {
        assignment.push(0)?;
        if index + 1 < count {
            let term = node(
                alloc,
                Op::Binary(BinaryOp::Add),
                var(index + 1),
                Term::Const(1),
                5,
            )?;
            define(&mut model, index, term)?;
            post(&mut model, Posted::Define(index))?;
        }
    }
    add_part(&mut model, 0, var(0))?;
    let asked = ask(&rt, alloc, &model);
    asked.objective(&assignment, Ok(262_143));
    Ok(())
}

// `y <- c[x]` over 10, 20, 30 and `y <= 20`: the variable that the index names is in it, too
#[test]
fn violations_through_a_definition(rt: HostRuntime) -> Result<(), Fail> {
    let alloc = rt.alloc();
    let mut model = model_of(alloc, 3)?;
    let cell = cell_of(alloc, at(39))?;
    define(&mut model, 1, cell)?;
    post(&mut model, Posted::Define(0))?;
    let most = node(
        alloc,
        Op::Constraint(Constraint::Le),
        var(1),
        Term::Const(20),
        7,
    )?;
    constrain(&mut model, 0, most, 1)?;
    let asked = ask(&rt, alloc, &model);
    asked.violations(&[3, 0, 0], 0, 0, Ok(10));
    asked.violations(&[3, 0, 0], 0, 1, Ok(10));
    asked.violations(&[3, 0, 0], 0, 2, Ok(0));
    let change = Move::Assign { var: 0, value: 3 };
    asked.delta(&[1, 0, 0], SYSTEM, change, Ok(10));
    let wanted = AskStop::Fault(at(39), RunFault::OutOfRange);
    asked.violations(&[4, 0, 0], 0, 0, Err(wanted));
    Ok(())
}

// `x + x == 0` in one system, and `x <= 1` in another
#[test]
fn a_fault_of_another_system(rt: HostRuntime) -> Result<(), Fail> {
    let alloc = rt.alloc();
    let mut model = model_of(alloc, 1)?;
    let sum = node(alloc, Op::Binary(BinaryOp::Add), var(0), var(0), 3)?;
    let zero = node(
        alloc,
        Op::Constraint(Constraint::Eq),
        sum,
        Term::Const(0),
        5,
    )?;
    constrain(&mut model, 0, zero, 1)?;
    let term = node(
        alloc,
        Op::Constraint(Constraint::Le),
        var(0),
        Term::Const(1),
        9,
    )?;
    constrain_second(alloc, &mut model, term)?;
    let k = i64::MAX;
    let stop = AskStop::Fault(at(3), RunFault::Overflow);
    let asked = ask(&rt, alloc, &model);
    asked.violations(&[k], 0, 0, Err(stop));
    asked.violations(&[k], 1, 0, Ok(k - 1));
    let change = Move::Assign { var: 0, value: 1 };
    asked.delta(&[k], Whole::System(1), change, Ok(1 - k));
    Ok(())
}

// Line 4 posts `c[x] <= 90` to one system, and line 5 `12/(4-x) + c[x] <= 20` to another: the cell has the number
// and the place of line 4, so it comes before the division.
#[test]
fn a_subterm_that_was_posted_to_another_system(rt: HostRuntime) -> Result<(), Fail> {
    let alloc = rt.alloc();
    let mut model = model_of(alloc, 1)?;
    let bracket = Place { line: 4, col: 8 };
    let cell = cell_of(alloc, bracket)?;
    let most = node(
        alloc,
        Op::Constraint(Constraint::Le),
        cell,
        Term::Const(90),
        12,
    )?;
    constrain(&mut model, 0, most, 1)?;
    let rest = node(alloc, Op::Binary(BinaryOp::Sub), Term::Const(4), var(0), 51)?;
    let part = node(alloc, Op::Binary(BinaryOp::Div), Term::Const(12), rest, 50)?;
    let again = cell_of(alloc, Place { line: 5, col: 60 })?;
    let sum = node(alloc, Op::Binary(BinaryOp::Add), part, again, 55)?;
    let term = node(
        alloc,
        Op::Constraint(Constraint::Le),
        sum,
        Term::Const(20),
        65,
    )?;
    constrain_second(alloc, &mut model, term)?;
    let change = Move::Assign { var: 0, value: 4 };
    let wanted = AskStop::Fault(bracket, RunFault::OutOfRange);
    let asked = ask(&rt, alloc, &model);
    asked.delta(&[1], SYSTEM, change, Err(wanted));
    asked.delta(&[1], Whole::System(1), change, Err(wanted));
    asked.violations(&[4], 1, 0, Err(wanted));
    let change = Move::Assign { var: 0, value: 3 };
    asked.delta(&[1], Whole::System(1), change, Ok(22));
    Ok(())
}
