//! Solvers, call by call.
ghost use Rattle.std.specs.Prelude.{◌≡◌, ◌<◌, true};

use cbl_base::limits::MAX_VARIABLES;
use cbl_base::{Limit, Numbers, Place, RunFault, Steps, VarId};
use ls_events::{Solution, VarChange};
use ls_solver::{Solver, SolverFault};
use node_kinds::{Kind, SolverNode};
use std::alloc::Global;
use std::marker::Brand;
use std::sync::ledger::{Blank, Ledger};
use std::test::*;
use term_model::{BinaryOp, Op, Term, VarKind};

const NOWHERE: Place = Place { line: 1, col: 1 };

// Where the sum stands whose value doesn't fit.
const SUM: Place = Place { line: 3, col: 19 };

// The first variables of the solver that all tests make.
const X: VarId = VarId {
    solver: 4,
    index: 0,
};

const Y: VarId = VarId {
    solver: 4,
    index: 1,
};

const Z: VarId = VarId {
    solver: 4,
    index: 2,
};

// A variable of another solver.
const OTHER: VarId = VarId {
    solver: 1,
    index: 1,
};

// ---- terms
#[derive(Clone, Copy)]
enum Shape {
    Number(i64),
    Variable(VarId),
    // x * x + 1
    SquareAndOne(VarId),
    // x + 1
    Next(VarId),
    // x + x - x
    TwiceLessOnce(VarId),
    // x + .. + x of so many operands
    Chain(VarId, u32),
}

fn binary(alloc: Global, op: Op, place: Place, left: Term, right: Term) -> Result<Term, Fail> {
    let args = vec![in alloc; left, right]?;
    Ok(Term::Node { op, args, place })
}

fn twice(alloc: Global, op: Op, place: Place, x: VarId) -> Result<Term, Fail> {
    binary(alloc, op, place, Term::Var(x), Term::Var(x))
}

fn chain(alloc: Global, x: VarId, operands: u32) -> Result<Term, Fail> {
    let mut sum = Term::Var(x);
    for _operand in 1..operands {
        sum = binary(alloc, Op::Binary(BinaryOp::Add), NOWHERE, sum, Term::Var(x))?;
    }
    Ok(sum)
}

fn square_and_one(alloc: Global, x: VarId) -> Result<Term, Fail> {
    let square = twice(alloc, Op::Binary(BinaryOp::Mul), NOWHERE, x)?;
    binary(
        alloc,
        Op::Binary(BinaryOp::Add),
        NOWHERE,
        square,
        Term::Const(1),
    )
}

fn twice_less_once(alloc: Global, x: VarId) -> Result<Term, Fail> {
    let sum = twice(alloc, Op::Binary(BinaryOp::Add), SUM, x)?;
    binary(alloc, Op::Binary(BinaryOp::Sub), NOWHERE, sum, Term::Var(x))
}

fn term_of(alloc: Global, shape: Shape) -> Result<Term, Fail> {
    match shape {
        Shape::Number(number) => Ok(Term::Const(number)),
        Shape::Variable(x) => Ok(Term::Var(x)),
        Shape::SquareAndOne(x) => square_and_one(alloc, x),
        Shape::Next(x) => binary(
            alloc,
            Op::Binary(BinaryOp::Add),
            NOWHERE,
            Term::Var(x),
            Term::Const(1),
        ),
        Shape::TwiceLessOnce(x) => twice_less_once(alloc, x),
        Shape::Chain(x, operands) => chain(alloc, x, operands),
    }
}

// ---- calls
// How a call ended.
#[derive(Clone, Copy, PartialEq, Eq)]
enum End {
    Done,
    Refused(RunFault),
    At(Place, RunFault),
    Cyclic,
    NoMemory,
}

fn ended_by(fault: &SolverFault) -> End {
    match fault {
        SolverFault::Run(fault) => End::Refused(*fault),
        SolverFault::At(place, fault) => End::At(*place, *fault),
        SolverFault::Cyclic(_) => End::Cyclic,
        SolverFault::NoMemory => End::NoMemory,
    }
}

fn ended<T: Drop>(answer: Result<T, SolverFault>) -> End {
    match answer {
        Ok(_) => End::Done,
        Err(fault) => ended_by(&fault),
    }
}

// A call that can't be made.
fn none<T>() -> Result<T, Fail> {
    Err(Fail::from("a call that can't be made"))
}

fn new_var<N: SolverNode>(solver: &mut Solver<N>, start: i64) -> Result<End, Fail> {
    if !solver.usable() {
        return none();
    }
    Ok(ended(solver.new_var(-1_000, 1_000, start)))
}

fn define_by<N: SolverNode>(solver: &mut Solver<N>, x: VarId, term: Term) -> Result<End, Fail> {
    if !solver.usable() {
        return none();
    }
    match solver.fits(x, &term) {
        Ok(true) => Ok(ended(solver.define(x, term))),
        _ => none(),
    }
}

fn define<N: SolverNode>(
    alloc: Global,
    solver: &mut Solver<N>,
    x: VarId,
    shape: Shape,
) -> Result<End, Fail> {
    let term = term_of(alloc, shape)?;
    define_by(solver, x, term)
}

fn close<N: SolverNode>(solver: &mut Solver<N>) -> Result<Result<(), SolverFault>, Fail> {
    if !solver.usable() || !solver.has_defined_sets() {
        return none();
    }
    Ok(solver.close(1))
}

fn value<N: SolverNode>(solver: &Solver<N>, x: VarId) -> Result<Result<i64, SolverFault>, Fail> {
    if !solver.usable() {
        return none();
    }
    match solver.kind(x) {
        Some(VarKind::Set) => none(),
        _ => Ok(solver.value(x)),
    }
}

fn commit_by<L: Ledger, N: SolverNode>(
    blank: Blank,
    solver: &mut Solver<N>,
    x: VarId,
    number: i64,
) -> Result<Result<Vec<VarChange>, SolverFault>, Fail>
    requires name { blank.name ≡ L.name }
    requires parts { blank.parts ≡ L.parts }
    requires some { 0 < L.parts }
{
    if !solver.usable() {
        return none();
    }
    let mut steps = Steps::<L>::new(blank);
    match solver.kind(x) {
        Some(VarKind::Set) => none(),
        _ => Ok(solver.commit(&[(x, number)], &mut steps)),
    }
}

fn commit<N: SolverNode>(
    solver: &mut Solver<N>,
    x: VarId,
    number: i64,
) -> Result<Result<Vec<VarChange>, SolverFault>, Fail> {
    commit_by::<Brand, N>(Blank::new(1), solver, x, number)
}

fn snapshot<N: SolverNode>(solver: &Solver<N>) -> Result<Result<Solution, SolverFault>, Fail> {
    if !solver.usable() {
        return none();
    }
    Ok(solver.snapshot())
}

fn restore_by<L: Ledger, N: SolverNode>(
    blank: Blank,
    solver: &mut Solver<N>,
    solution: &Solution,
) -> Result<Result<Vec<VarChange>, SolverFault>, Fail>
    requires name { blank.name ≡ L.name }
    requires parts { blank.parts ≡ L.parts }
    requires some { 0 < L.parts }
{
    if !solver.usable() {
        return none();
    }
    let mut steps = Steps::<L>::new(blank);
    Ok(solver.restore(solution, &mut steps))
}

fn restore<N: SolverNode>(
    solver: &mut Solver<N>,
    solution: &Solution,
) -> Result<Result<Vec<VarChange>, SolverFault>, Fail> {
    restore_by::<Brand, N>(Blank::new(1), solver, solution)
}

// A solution of the solver with a number.
fn solution_of(alloc: Global, solver: u32, values: &[i64]) -> Result<Solution, Fail> {
    match Numbers::from_slice(alloc, values) {
        Ok(values) => Ok(Solution { solver, values }),
        Err(_) => none(),
    }
}

// ---- steps
// A call, with what it must answer.
#[derive(Clone, Copy)]
enum Step<'a> {
    // a new variable with this start
    New(i64, End),
    Define(VarId, Shape, End),
    Close(End),
    // a close that names this cycle
    Cycle(&'a [VarId]),
    Value(VarId, i64),
    // a variable that can't be read
    Unread(VarId, RunFault),
    Commit(VarId, i64, &'a [VarChange]),
    // a commit that is refused
    Refused(VarId, i64, RunFault),
    // a solution, with its values
    Keep(&'a [i64]),
    Unkept(RunFault),
    // these values restored
    Restore(&'a [i64], &'a [VarChange]),
    // a solution of the solver with a number that isn't
    Unrestored(u32, &'a [i64], End),
    Usable(bool),
}

fn names_cycle<N: SolverNode>(solver: &mut Solver<N>, wanted: &[VarId]) -> Result<bool, Fail> {
    match close(solver)? {
        Err(SolverFault::Cyclic(cycle)) => Ok(cycle.as_slice() == wanted),
        _ => Ok(false),
    }
}

fn tells<N: SolverNode>(
    solver: &mut Solver<N>,
    x: VarId,
    number: i64,
    wanted: &[VarChange],
) -> Result<bool, Fail> {
    match commit(solver, x, number)? {
        Ok(changes) => Ok(changes.as_slice() == wanted),
        Err(_) => Ok(false),
    }
}

fn has_value<N: SolverNode>(solver: &Solver<N>, x: VarId, wanted: i64) -> Result<bool, Fail> {
    match value(solver, x)? {
        Ok(number) => Ok(number == wanted),
        Err(_) => Ok(false),
    }
}

fn keeps<N: SolverNode>(solver: &Solver<N>, wanted: &[i64]) -> Result<bool, Fail> {
    match snapshot(solver)? {
        Ok(solution) => Ok(solution.solver == 4 && solution.values.as_slice() == wanted),
        Err(_) => Ok(false),
    }
}

fn restores<N: SolverNode>(
    alloc: Global,
    solver: &mut Solver<N>,
    values: &[i64],
    wanted: &[VarChange],
) -> Result<bool, Fail> {
    let solution = solution_of(alloc, 4, values)?;
    match restore(solver, &solution)? {
        Ok(changes) => Ok(changes.as_slice() == wanted),
        Err(_) => Ok(false),
    }
}

fn stays<N: SolverNode>(
    alloc: Global,
    solver: &mut Solver<N>,
    number: u32,
    values: &[i64],
    wanted: End,
) -> Result<bool, Fail> {
    let solution = solution_of(alloc, number, values)?;
    Ok(ended(restore(solver, &solution)?) == wanted)
}

fn holds<N: SolverNode>(alloc: Global, solver: &mut Solver<N>, step: Step) -> Result<bool, Fail> {
    match step {
        Step::New(start, wanted) => Ok(new_var(solver, start)? == wanted),
        Step::Define(x, shape, wanted) => Ok(define(alloc, solver, x, shape)? == wanted),
        Step::Close(wanted) => Ok(ended(close(solver)?) == wanted),
        Step::Cycle(wanted) => names_cycle(solver, wanted),
        Step::Value(x, wanted) => has_value(solver, x, wanted),
        Step::Unread(x, fault) => Ok(ended(value(solver, x)?) == End::Refused(fault)),
        Step::Commit(x, number, wanted) => tells(solver, x, number, wanted),
        Step::Refused(x, number, fault) => {
            Ok(ended(commit(solver, x, number)?) == End::Refused(fault))
        }
        Step::Keep(wanted) => keeps(solver, wanted),
        Step::Unkept(fault) => Ok(ended(snapshot(solver)?) == End::Refused(fault)),
        Step::Restore(values, wanted) => restores(alloc, solver, values, wanted),
        Step::Unrestored(number, values, wanted) => stays(alloc, solver, number, values, wanted),
        Step::Usable(wanted) => Ok(solver.usable() == wanted),
    }
}

fn hold<N: SolverNode>(alloc: Global, solver: &mut Solver<N>, steps: &[Step]) -> Result<(), Fail> {
    for step in steps {
        if !holds(alloc, solver, *step)? {
            return Err(Fail::from("another answer"));
        }
    }
    Ok(())
}

// What a new solver answers.
fn run<N: SolverNode>(alloc: Global, steps: &[Step]) -> Result<(), Fail> {
    hold(alloc, &mut Solver::<N>::new(alloc, 4), steps)
}

// ---- tests
type Boxed = Kind;

const WRONG: End = End::Refused(RunFault::WrongSolver);

const DEFINED: End = End::Refused(RunFault::DefinedVariable);

const CLOSED: End = End::Refused(RunFault::AlreadyClosed);

const TOO_DEEP: End = End::Refused(RunFault::TooMany(Limit::TermNodes));

const TOO_MANY: End = End::Refused(RunFault::TooMany(Limit::Variables));

const OVERFLOW: End = End::At(SUM, RunFault::Overflow);

const CHANGES: &[VarChange] = &[
    VarChange {
        var: X,
        old: 10,
        new: 26,
    },
    VarChange {
        var: Y,
        old: 3,
        new: 5,
    },
];

const SQUARE: &[Step<'static>] = &[
    Step::New(0, End::Done),
    Step::New(3, End::Done),
    Step::Define(X, Shape::SquareAndOne(Y), End::Done),
    Step::Unread(X, RunFault::NotClosed),
    Step::Value(Y, 3),
    Step::Commit(Y, 4, &[]),
    Step::Commit(Y, 3, &[]),
    Step::Close(End::Done),
    Step::Value(X, 10),
    Step::Commit(Y, 5, CHANGES),
    Step::Value(X, 26),
    Step::Commit(Y, 5, &[]),
];

// A defined variable follows its term, and each change is told in order of declaration.
#[test]
fn square_follows(rt: HostRuntime) -> Result<(), Fail> {
    run::<Boxed>(rt.alloc(), SQUARE)
}

const REFUSALS: &[Step<'static>] = &[
    Step::New(1, End::Done),
    Step::New(2, End::Done),
    Step::Define(Y, Shape::Variable(OTHER), WRONG),
    Step::Define(Y, Shape::Variable(X), End::Done),
    Step::Define(Y, Shape::Variable(OTHER), WRONG),
    Step::Define(Y, Shape::Number(1), DEFINED),
    Step::Refused(Y, 7, RunFault::DefinedVariable),
    Step::Refused(OTHER, 7, RunFault::WrongSolver),
    Step::Unread(OTHER, RunFault::WrongSolver),
    Step::Define(OTHER, Shape::Number(1), WRONG),
    Step::Close(End::Done),
    Step::Close(CLOSED),
    Step::Define(Y, Shape::Variable(OTHER), CLOSED),
    Step::New(0, CLOSED),
    Step::Value(Y, 1),
    Step::Usable(true),
];

// Each call is refused first for its state, then for its ids, then for a definition, then for its size.
#[test]
fn refusals_in_order(rt: HostRuntime) -> Result<(), Fail> {
    run::<Boxed>(rt.alloc(), REFUSALS)
}

const CYCLE: &[Step<'static>] = &[
    Step::New(0, End::Done),
    Step::New(0, End::Done),
    Step::Define(X, Shape::Next(Y), End::Done),
    Step::Define(Y, Shape::Variable(X), End::Done),
    Step::Cycle(&[X, Y]),
    Step::Usable(true),
];

// One variable is the other and 1, and the other is the one: the cycle is told, and the solver is as before.
#[test]
fn cycle_is_told(rt: HostRuntime) -> Result<(), Fail> {
    run::<Boxed>(rt.alloc(), CYCLE)
}

const FAULT: &[Step<'static>] = &[
    Step::New(9_223_372_036_854_775_807, End::Done),
    Step::New(0, End::Done),
    Step::Define(Y, Shape::TwiceLessOnce(X), End::Done),
    Step::Close(OVERFLOW),
    Step::Usable(false),
];

// A fault is told with its place, and is the end of the solver.
#[test]
fn fault_ends(rt: HostRuntime) -> Result<(), Fail> {
    run::<Boxed>(rt.alloc(), FAULT)
}

const OPEN: End = End::Refused(RunFault::NotClosed);

const FORTH: &[VarChange] = &[
    VarChange {
        var: X,
        old: 3,
        new: 8,
    },
    VarChange {
        var: Y,
        old: 10,
        new: 65,
    },
];

const BACK: &[VarChange] = &[
    VarChange {
        var: X,
        old: 8,
        new: 3,
    },
    VarChange {
        var: Y,
        old: 65,
        new: 10,
    },
];

// y follows x, and z stays.
const SOLUTIONS: &[Step<'static>] = &[
    Step::New(3, End::Done),
    Step::New(0, End::Done),
    Step::New(5, End::Done),
    Step::Define(Y, Shape::SquareAndOne(X), End::Done),
    Step::Unkept(RunFault::NotClosed),
    Step::Unrestored(5, &[1], OPEN),
    Step::Close(End::Done),
    Step::Keep(&[3, 5]),
    Step::Commit(X, 8, FORTH),
    Step::Keep(&[8, 5]),
    Step::Restore(&[3, 5], BACK),
    Step::Restore(&[3, 5], &[]),
    Step::Unrestored(5, &[1, 2], WRONG),
    Step::Unrestored(4, &[1], WRONG),
    Step::Unrestored(4, &[1, 2, 3], WRONG),
    Step::Keep(&[3, 5]),
];

// A solution keeps the free variables in order of declaration, and restoring it tells only what changed. It is refused
// first for the solver's state, and then where it is another solver's or has another number of values.
#[test]
fn solutions_are_kept_and_restored(rt: HostRuntime) -> Result<(), Fail> {
    run::<Boxed>(rt.alloc(), SOLUTIONS)
}

const FAULT_BEHIND: &[Step<'static>] = &[
    Step::New(0, End::Done),
    Step::New(0, End::Done),
    Step::Define(Y, Shape::TwiceLessOnce(X), End::Done),
    Step::Close(End::Done),
    Step::Unrestored(4, &[9_223_372_036_854_775_807], OVERFLOW),
    Step::Usable(false),
];

// A fault is the end of the solver here, too.
#[test]
fn fault_ends_a_restore(rt: HostRuntime) -> Result<(), Fail> {
    run::<Boxed>(rt.alloc(), FAULT_BEHIND)
}

const DEEP: &[Step<'static>] = &[
    Step::New(1, End::Done),
    Step::New(0, End::Done),
    Step::New(0, End::Done),
    Step::Define(Y, Shape::Chain(X, 1_002), TOO_DEEP),
    Step::Define(Y, Shape::Chain(X, 1_001), End::Done),
    Step::Define(Z, Shape::Chain(X, 1_001), End::Done),
    Step::Close(End::Done),
    Step::Value(Z, 1_001),
];

// A chain of 1,001 operands is as deep as a term may be, one more is too deep; what is refused leaves no trace.
#[test]
fn deep_terms(rt: HostRuntime) -> Result<(), Fail> {
    run::<Boxed>(rt.alloc(), DEEP)
}

fn fill<N: SolverNode>(solver: &mut Solver<N>) -> Result<(), Fail> {
    for _variable in 0..MAX_VARIABLES {
        if new_var(solver, 0)? != End::Done {
            return none();
        }
    }
    Ok(())
}

fn most<N: SolverNode>(alloc: Global) -> Result<(), Fail> {
    let mut solver = Solver::<N>::new(alloc, 4);
    fill(&mut solver)?;
    hold(alloc, &mut solver, &[Step::New(0, TOO_MANY)])
}

// As many variables as there may be, and one more.
#[test]
fn most_variables(rt: HostRuntime) -> Result<(), Fail> {
    most::<Boxed>(rt.alloc())
}
