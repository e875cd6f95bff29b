//! Systems, objectives and deltas, call by call.
ghost use Rattle.std.specs.Prelude.{◌≡◌, ◌<◌};

use cbl_base::{Place, RunFault, Steps, VarId};
use cbl_violations::Constraint;
use ls_solver::{ObjectiveId, Solver, SolverFault, SystemId};
use node_kinds::{Kind, SolverNode};
use std::alloc::Global;
use std::marker::Brand;
use std::sync::ledger::{Blank, Ledger};
use std::test::*;
use term_model::{BinaryOp, Op, Term};

const SOLVER: u32 = 4;

const NOWHERE: Place = Place { line: 1, col: 1 };

// Where `c[x]` stands first, and where it stands again.
const FIRST: Place = Place { line: 4, col: 32 };

const AGAIN: Place = Place { line: 5, col: 43 };

// Where the quotient stands.
const QUOTIENT: Place = Place { line: 5, col: 34 };

const SYSTEM: SystemId = SystemId {
    solver: SOLVER,
    index: 0,
};

const SECOND: SystemId = SystemId {
    solver: SOLVER,
    index: 1,
};

const OTHER_SYSTEM: SystemId = SystemId {
    solver: 1,
    index: 0,
};

const OBJECTIVE: ObjectiveId = ObjectiveId {
    solver: SOLVER,
    index: 0,
};

const X: VarId = VarId {
    solver: SOLVER,
    index: 0,
};

const Y: VarId = VarId {
    solver: SOLVER,
    index: 1,
};

const QUEEN_2: VarId = Y;

const QUEEN_4: VarId = VarId {
    solver: SOLVER,
    index: 3,
};

const OTHER: VarId = VarId {
    solver: 1,
    index: 0,
};

// ---- terms
#[derive(Clone, Copy)]
enum Shape {
    // alldifferent over the first four variables, each plus so many times its number from 1
    Different(i64),
    // x == 4 && y <= 0
    FourAndNone,
    // x == 5 || y <= 1
    FiveOrOne,
    // y <= 20
    AtMostTwenty,
    // x * x
    Square,
    // c[x] where c is 10, 20, 30 over 1..3
    Cell(Place),
    // c[x] <= 90
    CellAtMost(Place),
    // 12 / (4 - x) + c[x] <= 20
    QuotientAndCell,
}

fn node(alloc: Global, op: Op, place: Place, left: Term, right: Term) -> Result<Term, Fail> {
    let args = vec![in alloc; left, right]?;
    Ok(Term::Node { op, args, place })
}

fn queen(index: u32) -> Term {
    Term::Var(VarId {
        solver: SOLVER,
        index,
    })
}

fn different(alloc: Global, step: i64) -> Result<Term, Fail> {
    let mut args = Vec::new(alloc);
    for index in 0..4 {
        let offset = Term::Const(step.wrapping_mul(i64::from(index) + 1));
        args.push(node(
            alloc,
            Op::Binary(BinaryOp::Add),
            NOWHERE,
            queen(index),
            offset,
        )?)?;
    }
    Ok(Term::Node {
        op: Op::Constraint(Constraint::AllDifferent),
        args,
        place: NOWHERE,
    })
}

fn against(alloc: Global, op: Op, x: VarId, number: i64) -> Result<Term, Fail> {
    node(alloc, op, NOWHERE, Term::Var(x), Term::Const(number))
}

fn cell(alloc: Global, place: Place) -> Result<Term, Fail> {
    let args = vec![in alloc;
        Term::Var(X),
        Term::Const(10),
        Term::Const(20),
        Term::Const(30),
    ]?;
    let op = Op::Element { low: 1, len: 3 };
    Ok(Term::Node { op, args, place })
}

fn joined(alloc: Global, op: Op, five: i64, one: i64) -> Result<Term, Fail> {
    let left = against(alloc, Op::Constraint(Constraint::Eq), X, five)?;
    let right = against(alloc, Op::Constraint(Constraint::Le), Y, one)?;
    node(alloc, op, NOWHERE, left, right)
}

fn quotient_and_cell(alloc: Global) -> Result<Term, Fail> {
    let below = node(
        alloc,
        Op::Binary(BinaryOp::Sub),
        AGAIN,
        Term::Const(4),
        Term::Var(X),
    )?;
    let quotient = node(
        alloc,
        Op::Binary(BinaryOp::Div),
        QUOTIENT,
        Term::Const(12),
        below,
    )?;
    let sum = node(
        alloc,
        Op::Binary(BinaryOp::Add),
        AGAIN,
        quotient,
        cell(alloc, AGAIN)?,
    )?;
    node(
        alloc,
        Op::Constraint(Constraint::Le),
        AGAIN,
        sum,
        Term::Const(20),
    )
}

fn term_of(alloc: Global, shape: Shape) -> Result<Term, Fail> {
    match shape {
        Shape::Different(step) => different(alloc, step),
        Shape::FourAndNone => joined(alloc, Op::Constraint(Constraint::AllOf), 4, 0),
        Shape::FiveOrOne => joined(alloc, Op::Constraint(Constraint::AnyOf), 5, 1),
        Shape::AtMostTwenty => against(alloc, Op::Constraint(Constraint::Le), Y, 20),
        Shape::Square => node(
            alloc,
            Op::Binary(BinaryOp::Mul),
            NOWHERE,
            Term::Var(X),
            Term::Var(X),
        ),
        Shape::Cell(place) => cell(alloc, place),
        Shape::CellAtMost(place) => {
            let cell = cell(alloc, place)?;
            node(
                alloc,
                Op::Constraint(Constraint::Le),
                place,
                cell,
                Term::Const(90),
            )
        }
        Shape::QuotientAndCell => quotient_and_cell(alloc),
    }
}

// ---- calls
// How a call ended: with a number, with nothing to tell, or refused.
#[derive(Clone, Copy, PartialEq, Eq)]
enum End {
    Number(i64),
    Done,
    Refused(RunFault),
    At(Place, RunFault),
    Other,
}

fn ended_by(fault: &SolverFault) -> End {
    match fault {
        SolverFault::Run(fault) => End::Refused(*fault),
        SolverFault::At(place, fault) => End::At(*place, *fault),
        SolverFault::Cyclic(_) => End::Other,
        SolverFault::NoMemory => End::Other,
    }
}

fn done<T: Drop>(answer: Result<T, SolverFault>) -> End {
    match answer {
        Ok(_) => End::Done,
        Err(fault) => ended_by(&fault),
    }
}

fn told(answer: Result<i64, SolverFault>) -> End {
    match answer {
        Ok(number) => End::Number(number),
        Err(fault) => ended_by(&fault),
    }
}

fn none<T>() -> Result<T, Fail> {
    Err(Fail::from("a call that can't be made"))
}

// ---- steps
// A call that changes the solver.
#[derive(Clone, Copy)]
enum Change {
    // a new variable with this start
    New(i64),
    Define(VarId, Shape),
    System,
    Objective,
    Post(SystemId, Shape, i64),
    Add(ObjectiveId, Shape, i64),
    Close,
}

// A question to the solver.
#[derive(Clone, Copy)]
enum Question {
    Violations(SystemId),
    Share(SystemId, VarId),
    Assign(SystemId, VarId, i64),
    Swap(SystemId, VarId, VarId),
    Value(ObjectiveId),
    AssignValue(ObjectiveId, VarId, i64),
    SwapValue(ObjectiveId, VarId, VarId),
}

fn define<N: SolverNode>(
    alloc: Global,
    solver: &mut Solver<N>,
    x: VarId,
    shape: Shape,
) -> Result<End, Fail> {
    let term = term_of(alloc, shape)?;
    if !solver.usable() {
        return none();
    }
    match solver.fits(x, &term) {
        Ok(true) => Ok(done(solver.define(x, term))),
        _ => none(),
    }
}

fn post<N: SolverNode>(
    alloc: Global,
    solver: &mut Solver<N>,
    s: SystemId,
    shape: Shape,
    weight: i64,
) -> Result<End, Fail> {
    let term = term_of(alloc, shape)?;
    if !solver.usable() {
        return none();
    }
    match solver.is_number(&term) {
        Ok(true) => Ok(done(solver.post(s, term, weight))),
        _ => none(),
    }
}

fn add<N: SolverNode>(
    alloc: Global,
    solver: &mut Solver<N>,
    f: ObjectiveId,
    shape: Shape,
    weight: i64,
) -> Result<End, Fail> {
    let term = term_of(alloc, shape)?;
    if !solver.usable() {
        return none();
    }
    match solver.is_number(&term) {
        Ok(true) => Ok(done(solver.add_to(f, term, weight))),
        _ => none(),
    }
}

fn close<N: SolverNode>(solver: &mut Solver<N>) -> Result<End, Fail> {
    if !solver.usable() || !solver.has_defined_sets() {
        return none();
    }
    Ok(done(solver.close(1)))
}

fn make<N: SolverNode>(alloc: Global, solver: &mut Solver<N>, by: Change) -> Result<End, Fail> {
    if !solver.usable() {
        return none();
    }
    match by {
        Change::New(start) => Ok(done(solver.new_var(-1_000, 1_000, start))),
        Change::Define(x, shape) => define(alloc, solver, x, shape),
        Change::System => Ok(done(solver.new_system(NOWHERE))),
        Change::Objective => Ok(done(solver.new_objective(NOWHERE))),
        Change::Post(s, shape, weight) => post(alloc, solver, s, shape, weight),
        Change::Add(f, shape, weight) => add(alloc, solver, f, shape, weight),
        Change::Close => close(solver),
    }
}

fn ask_by<L: Ledger, N: SolverNode>(
    blank: Blank,
    solver: &Solver<N>,
    question: Question,
) -> Result<End, Fail>
    requires name { blank.name ≡ L.name }
    requires parts { blank.parts ≡ L.parts }
    requires some { 0 < L.parts }
{
    if !solver.usable() {
        return none();
    }
    let mut steps = Steps::<L>::new(blank);
    let mut trial = solver.trial();
    match question {
        Question::Violations(s) => Ok(told(solver.violations(s))),
        Question::Share(s, x) => Ok(told(solver.var_violations(s, x))),
        Question::Assign(s, x, v) => {
            Ok(told(solver.assign_delta(s, x, v, &mut trial, &mut steps)))
        }
        Question::Swap(s, x, y) => Ok(told(solver.swap_delta(s, x, y, &mut trial, &mut steps))),
        Question::Value(f) => Ok(told(solver.objective(f))),
        Question::AssignValue(f, x, v) => {
            Ok(told(solver.objective_assign_delta(f, x, v, &mut trial, &mut steps)))
        }
        Question::SwapValue(f, x, y) => {
            Ok(told(solver.objective_swap_delta(f, x, y, &mut trial, &mut steps)))
        }
    }
}

fn ask<N: SolverNode>(solver: &Solver<N>, question: Question) -> Result<End, Fail> {
    ask_by::<Brand, N>(Blank::new(1), solver, question)
}

fn hold<N: SolverNode>(
    alloc: Global,
    solver: &mut Solver<N>,
    changes: &[(Change, End)],
    questions: &[(Question, End)],
) -> Result<(), Fail> {
    for step in changes {
        if make(alloc, solver, step.0)? != step.1 {
            return Err(Fail::from("a change ended otherwise"));
        }
    }
    for step in questions {
        if ask(solver, step.0)? != step.1 {
            return Err(Fail::from("another answer"));
        }
    }
    Ok(())
}

// ---- rows
// What is made of a new solver, with how each call ends, and what it then answers.
#[derive(Clone, Copy)]
struct Row<'a> {
    changes: &'a [(Change, End)],
    questions: &'a [(Question, End)],
}

fn hold_all<N: SolverNode>(alloc: Global, rows: &[Row]) -> Result<(), Fail> {
    for row in rows {
        let mut solver = Solver::<N>::new(alloc, SOLVER);
        hold(alloc, &mut solver, row.changes, row.questions)?;
    }
    Ok(())
}

const VALUES: &[Row<'static>] = &[
    // Four queens in one row: the first constraint would fall to 2, and the second rise to 1.
    Row {
        changes: &[
            (Change::New(1), End::Done),
            (Change::New(1), End::Done),
            (Change::New(1), End::Done),
            (Change::New(1), End::Done),
            (Change::System, End::Done),
            (Change::Post(SYSTEM, Shape::Different(0), 1), End::Done),
            (Change::Post(SYSTEM, Shape::Different(1), 1), End::Done),
            (Change::Post(SYSTEM, Shape::Different(-1), 1), End::Done),
            (Change::Close, End::Done),
        ],
        questions: &[
            (Question::Violations(SYSTEM), End::Number(3)),
            (Question::Assign(SYSTEM, QUEEN_2, 3), End::Number(0)),
            (Question::Share(SYSTEM, X), End::Number(1)),
        ],
    },
    // Four queens on a diagonal: the outer two exchanged leave the diagonal; one exchanged with itself changes nothing.
    Row {
        changes: &[
            (Change::New(1), End::Done),
            (Change::New(2), End::Done),
            (Change::New(3), End::Done),
            (Change::New(4), End::Done),
            (Change::System, End::Done),
            (Change::Post(SYSTEM, Shape::Different(0), 1), End::Done),
            (Change::Post(SYSTEM, Shape::Different(1), 1), End::Done),
            (Change::Post(SYSTEM, Shape::Different(-1), 1), End::Done),
            (Change::Close, End::Done),
        ],
        questions: &[
            (Question::Violations(SYSTEM), End::Number(3)),
            (Question::Swap(SYSTEM, X, QUEEN_4), End::Number(-1)),
            (Question::Swap(SYSTEM, X, X), End::Number(0)),
        ],
    },
    // The square of 3 is 9, and 7 less than that of 4.
    Row {
        changes: &[
            (Change::New(3), End::Done),
            (Change::New(4), End::Done),
            (Change::Objective, End::Done),
            (Change::Add(OBJECTIVE, Shape::Square, 1), End::Done),
            (Change::Close, End::Done),
        ],
        questions: &[
            (Question::Value(OBJECTIVE), End::Number(9)),
            (Question::AssignValue(OBJECTIVE, X, 4), End::Number(7)),
            (Question::SwapValue(OBJECTIVE, X, Y), End::Number(7)),
            (
                Question::AssignValue(OBJECTIVE, X, 4_000_000_000),
                End::At(NOWHERE, RunFault::Overflow),
            ),
        ],
    },
    // Three times the violations of both members.
    Row {
        changes: &[
            (Change::New(1), End::Done),
            (Change::New(2), End::Done),
            (Change::System, End::Done),
            (Change::Post(SYSTEM, Shape::FourAndNone, 3), End::Done),
            (Change::Close, End::Done),
        ],
        questions: &[
            (Question::Violations(SYSTEM), End::Number(15)),
            (Question::Share(SYSTEM, Y), End::Number(6)),
            (Question::Assign(SYSTEM, X, 4), End::Number(-9)),
        ],
    },
    // Of two members the one with fewer violations counts.
    Row {
        changes: &[
            (Change::New(2), End::Done),
            (Change::New(3), End::Done),
            (Change::System, End::Done),
            (Change::Post(SYSTEM, Shape::FiveOrOne, 1), End::Done),
            (Change::Close, End::Done),
        ],
        questions: &[
            (Question::Violations(SYSTEM), End::Number(2)),
            (Question::Share(SYSTEM, X), End::Number(0)),
            (Question::Share(SYSTEM, Y), End::Number(2)),
        ],
    },
];

// Values, deltas and the violations of a variable.
#[test]
fn values_and_deltas(rt: HostRuntime) -> Result<(), Fail> {
    hold_all::<Kind>(rt.alloc(), VALUES)
}

const FAULTS: &[Row<'static>] = &[
    // A delta looks through definitions, and its fault is that of the definition's term.
    Row {
        changes: &[
            (Change::New(1), End::Done),
            (Change::New(0), End::Done),
            (Change::Define(Y, Shape::Cell(FIRST)), End::Done),
            (Change::System, End::Done),
            (Change::Post(SYSTEM, Shape::AtMostTwenty, 1), End::Done),
            (Change::Close, End::Done),
        ],
        questions: &[
            (Question::Assign(SYSTEM, X, 3), End::Number(10)),
            (
                Question::Assign(SYSTEM, X, 4),
                End::At(FIRST, RunFault::OutOfRange),
            ),
            (
                Question::Assign(SYSTEM, Y, 4),
                End::Refused(RunFault::DefinedVariable),
            ),
        ],
    },
    // What two systems share has the number and the place of where it stands first, also where only the second is asked.
    Row {
        changes: &[
            (Change::New(1), End::Done),
            (Change::System, End::Done),
            (Change::Post(SYSTEM, Shape::CellAtMost(FIRST), 1), End::Done),
            (Change::System, End::Done),
            (Change::Post(SECOND, Shape::QuotientAndCell, 1), End::Done),
            (Change::Close, End::Done),
        ],
        questions: &[
            (Question::Violations(SECOND), End::Number(0)),
            (
                Question::Assign(SECOND, X, 4),
                End::At(FIRST, RunFault::OutOfRange),
            ),
        ],
    },
];

// A delta looks through definitions, and its fault is that of the asked part, numbered as in the whole model.
#[test]
fn faults_of_the_asked_part(rt: HostRuntime) -> Result<(), Fail> {
    hold_all::<Kind>(rt.alloc(), FAULTS)
}

const REFUSALS: &[Row<'static>] = &[
    // Each call is refused first for its state, then for its ids, then for its weight; what is refused leaves no trace.
    Row {
        changes: &[
            (Change::New(1), End::Done),
            (Change::New(2), End::Done),
            (Change::System, End::Done),
            (
                Change::Post(OTHER_SYSTEM, Shape::AtMostTwenty, -1),
                End::Refused(RunFault::WrongSolver),
            ),
            (
                Change::Post(SYSTEM, Shape::AtMostTwenty, -1),
                End::Refused(RunFault::OutOfRange),
            ),
            (
                Change::Add(OBJECTIVE, Shape::Square, 1),
                End::Refused(RunFault::WrongSolver),
            ),
            (Change::Close, End::Done),
            (Change::System, End::Refused(RunFault::AlreadyClosed)),
            (
                Change::Post(OTHER_SYSTEM, Shape::AtMostTwenty, -1),
                End::Refused(RunFault::AlreadyClosed),
            ),
        ],
        questions: &[
            (Question::Violations(SYSTEM), End::Number(0)),
            (
                Question::Violations(SECOND),
                End::Refused(RunFault::WrongSolver),
            ),
            (
                Question::Share(SYSTEM, OTHER),
                End::Refused(RunFault::WrongSolver),
            ),
            (
                Question::Swap(SYSTEM, X, OTHER),
                End::Refused(RunFault::WrongSolver),
            ),
        ],
    },
    // Before the solver is closed no system and no objective can be asked.
    Row {
        changes: &[
            (Change::New(1), End::Done),
            (Change::System, End::Done),
            (Change::Objective, End::Done),
        ],
        questions: &[
            (
                Question::Violations(OTHER_SYSTEM),
                End::Refused(RunFault::NotClosed),
            ),
            (
                Question::Value(OBJECTIVE),
                End::Refused(RunFault::NotClosed),
            ),
            (
                Question::Assign(SYSTEM, X, 1),
                End::Refused(RunFault::NotClosed),
            ),
        ],
    },
];

// Each call is refused first for its state, then for its ids, then for its weight; what is refused leaves no trace.
#[test]
fn refusals_in_order(rt: HostRuntime) -> Result<(), Fail> {
    hold_all::<Kind>(rt.alloc(), REFUSALS)
}
