//! Users' constraints in a solver.
ghost use Rattle.std.specs.Prelude.{◌≡◌, pos, Some, [], length, IfOk, OnOk};
ghost use Rattle.std.specs.List.{All, count_by};
ghost use Rattle.cbl_base.specs.Inputs.{number_kind};
ghost use Rattle.solver_tests.specs.Unlike.{differs, first_of, unlike_in};
ghost use Rattle.term_model.specs.Kinds.{kind_of_term, kinds_in};
ghost use Rattle.term_model.specs.Naming.{users_of};
ghost use Rattle.user_constraint.specs.Moves.{AreMoves, after_moves};

use cbl_base::{NoMemory, Place, RunFault, VarId};
use ls_solver::{Solver, SolverFault, SystemId, TotalId};
use node_kinds::{KindOf, SolverNode};
use std::alloc::Global;
use std::sync::Arc;
use std::sync::atomic::{AtomicU64, Ordering};
use std::test::*;
use term_model::{BinaryOp, Op, Term, VarKind};
use user_constraint::{LocalConstraint, UserConstraint};

const NOWHERE: Place = Place { line: 1, col: 1 };

const SOLVER: u32 = 4;

const SYSTEM: SystemId = SystemId {
    solver: SOLVER,
    index: 0,
};

const X: VarId = VarId {
    solver: SOLVER,
    index: 0,
};

const Y: VarId = VarId {
    solver: SOLVER,
    index: 1,
};

const Z: VarId = VarId {
    solver: SOLVER,
    index: 2,
};

const W: VarId = VarId {
    solver: SOLVER,
    index: 3,
};

// ---- the constraint
// What is counted of all constraints of a test.
#[derive(Drop)]
struct Counts {
    drops: Arc<AtomicU64, Global>,
    resets: Arc<AtomicU64, Global>,
    assigns: Arc<AtomicU64, Global>,
}

fn counts_of(alloc: Global) -> Result<Counts, Fail> {
    Ok(Counts {
        drops: Arc::new(alloc, AtomicU64::new(0))?,
        resets: Arc::new(alloc, AtomicU64::new(0))?,
        assigns: Arc::new(alloc, AtomicU64::new(0))?,
    })
}

fn number(counter: &Arc<AtomicU64, Global>) -> u64 {
    counter.load(Ordering::SeqCst)
}

// Its violations are the places whose number isn't the first's. It counts what is done with it, and finds no memory
// from some change or some question on.
struct Unlike {
    alloc: Global,
    list: Vec<i64>,
    drops: Arc<AtomicU64, Global>,
    resets: Arc<AtomicU64, Global>,
    assigns: Arc<AtomicU64, Global>,
    changes_left: u64,
    answers: bool,
}

fn unlike_of(
    alloc: Global,
    counts: &Counts,
    changes_left: u64,
    answers: bool,
) -> Result<Unlike, Fail> {
    Ok(Unlike {
        alloc,
        list: Vec::new(alloc),
        drops: Arc::try_clone(&counts.drops)?,
        resets: Arc::try_clone(&counts.resets)?,
        assigns: Arc::try_clone(&counts.assigns)?,
        changes_left,
        answers,
    })
}

impl Drop for Unlike {
    fn drop(self) {
        let _before = self.drops.fetch_add(1, Ordering::SeqCst);
        let Unlike {
            alloc: _,
            list: _,
            drops: _,
            resets: _,
            assigns: _,
            changes_left: _,
            answers: _,
        } = self;
    }
}

fn first_of(list: &[i64]) -> i64
    ensures { result ≡ first_of list.now }
{
    if list.is_empty() { 0 } else { list[0] }
}

// How many of the numbers aren't this one.
fn count_unlike(first: i64, list: &[i64]) -> usize
    ensures { result ≡ count_by (differs first) list.now }
{
    list.iter().filter(|x| **x != first).count()
}

// The same, at most 2^40.
fn unlike_in(first: i64, list: &[i64]) -> i64
    ensures { result ≡ pos (unlike_in first list.now) }
{
    count_unlike(first, list).min(1 << 40) as i64
}

// Makes the number at the place of each move its new one.
fn make_moves(list: &mut Vec<i64>, moves: &[(usize, i64)])
    requires { AreMoves (length list.old.items) moves.now }
    ensures { list.new.items ≡ after_moves list.old.items moves.now }
{
    for change in moves {
        list[change.0] = change.1;
    }
}

impl UserConstraint for Unlike {
    ghost use Rattle.std.specs.Prelude.{ℕ, List, [], ◌∷◌};
    ghost use Rattle.solver_tests.specs.Unlike.{unlike};

    ghost user_rule = { λ _. unlike };

    ghost user_name = { λ _. 117 ∷ [] };

    ghost usable = { λ _. Unit {0} };

    ghost held = { λ s. s.list.items };

    fn name(&self) -> &str {
        "u"
    }

    fn reset(&mut self, values: &[i64]) -> Result<(), NoMemory> {
        let _before = self.resets.fetch_add(1, Ordering::SeqCst);
        self.list.clear();
        self.list.extend_from_slice(values)?;
        Ok(())
    }

    fn assign(&mut self, place: usize, value: i64) -> Result<(), NoMemory> {
        let _before = self.assigns.fetch_add(1, Ordering::SeqCst);
        if self.changes_left == 0 {
            return Err(NoMemory);
        }
        self.changes_left -= 1;
        self.list[place] = value;
        Ok(())
    }

    fn violations(&self) -> i64 {
        let list = self.list.as_slice();
        unlike_in(first_of(list), list)
    }

    fn probe(&self, moves: &[(usize, i64)]) -> Result<i64, NoMemory> {
        if !self.answers {
            return Err(NoMemory);
        }
        let mut list = Vec::from_slice(self.alloc, self.list.as_slice())?;
        make_moves(&mut list, moves);
        Ok(unlike_in(first_of(list.as_slice()), list.as_slice()))
    }

    fn place_violation(&self, place: usize) -> i64 {
        unlike_in(first_of(self.list.as_slice()), &[self.list[place]])
    }
}

// ---- solvers
// A call that can't be made.
fn none<T>() -> Result<T, Fail> {
    Err(Fail::from("a call that can't be made"))
}

// How a call ended.
#[derive(Clone, Copy, PartialEq, Eq)]
enum End {
    Done,
    Refused(RunFault),
    Failed(RunFault),
    NoMemory,
    Other,
}

fn ended_by(fault: &SolverFault) -> End {
    match fault {
        SolverFault::Run(fault) => End::Refused(*fault),
        SolverFault::At(_, fault) => End::Failed(*fault),
        SolverFault::NoMemory => End::NoMemory,
        SolverFault::Cyclic(_) => End::Other,
    }
}

fn ended<T: Drop>(answer: Result<T, SolverFault>) -> End {
    match answer {
        Ok(_) => End::Done,
        Err(fault) => ended_by(&fault),
    }
}

// The sum of a variable and a number.
#[derive(Clone, Copy)]
struct Sum {
    var: VarId,
    number: i64,
}

fn sum_of(alloc: Global, sum: Sum) -> Result<Term, Fail> {
    if sum.number == 0 {
        return Ok(Term::Var(sum.var));
    }
    let args = vec![in alloc; Term::Var(sum.var), Term::Const(sum.number)]?;
    Ok(Term::Node {
        op: Op::Binary(BinaryOp::Add),
        args,
        place: NOWHERE,
    })
}

// One more place, which must be a number.
fn push_place<N: SolverNode>(
    solver: &Solver<N>,
    places: &mut Vec<Term>,
    term: Term,
) -> Result<(), Fail>
    requires kinds { All (λ t. kind_of_term (kinds_in solver.now.model.vars.items) t ≡
        Some number_kind) places.old.items }
    requires users { All (λ t. users_of t ≡ []) places.old.items }
    ensures kinds { OnOk result (All (λ t. kind_of_term (kinds_in solver.now.model.vars.items) t ≡
        Some number_kind) places.new.items) }
    ensures users { OnOk result (All (λ t. users_of t ≡ []) places.new.items) }
{
    match solver.is_number(&term) {
        Ok(true) => Ok(places.push(term)?),
        _ => none(),
    }
}

fn places_of<N: SolverNode>(
    alloc: Global,
    solver: &Solver<N>,
    sums: &[Sum],
) -> Result<Vec<Term>, Fail>
    ensures kinds { IfOk result (λ places.
        All (λ t. kind_of_term (kinds_in solver.now.model.vars.items) t ≡
        Some number_kind) places.items) }
    ensures users { IfOk result (λ places. All (λ t. users_of t ≡ []) places.items) }
{
    let mut places = Vec::new(alloc);
    for sum in sums {
        let term = sum_of(alloc, *sum)?;
        push_place(solver, &mut places, term)?;
    }
    Ok(places)
}

fn post<U: LocalConstraint>(
    alloc: Global,
    solver: &mut Solver<KindOf<U>>,
    user: U,
    places: &[Sum],
    weight: i64,
) -> Result<Result<(), (SolverFault, U)>, Fail> {
    let places = places_of(alloc, solver, places)?;
    if !solver.usable() {
        return none();
    }
    Ok(solver.post_user(SYSTEM, user, places, weight))
}

// A solver with a variable for each number, of which one is always a sum of another, and with a system.
#[derive(Clone, Copy)]
struct Made<'a> {
    starts: &'a [i64],
    defined: VarId,
    by: Sum,
}

fn new_var<N: SolverNode>(solver: &mut Solver<N>, start: i64) -> Result<(), Fail> {
    if !solver.usable() {
        return none();
    }
    match solver.new_var(-1_000, 1_000, start) {
        Ok(_) => Ok(()),
        Err(_) => none(),
    }
}

fn define<N: SolverNode>(
    alloc: Global,
    solver: &mut Solver<N>,
    x: VarId,
    by: Sum,
) -> Result<(), Fail> {
    let term = sum_of(alloc, by)?;
    if !solver.usable() {
        return none();
    }
    match solver.fits(x, &term) {
        Ok(true) => match solver.define(x, term) {
            Ok(()) => Ok(()),
            Err(_) => none(),
        },
        _ => none(),
    }
}

fn new_system<N: SolverNode>(solver: &mut Solver<N>) -> Result<(), Fail> {
    if !solver.usable() {
        return none();
    }
    match solver.new_system(NOWHERE) {
        Ok(_) => Ok(()),
        Err(_) => none(),
    }
}

fn build<N: SolverNode>(alloc: Global, solver: &mut Solver<N>, made: Made) -> Result<(), Fail> {
    for start in made.starts {
        new_var(solver, *start)?;
    }
    define(alloc, solver, made.defined, made.by)?;
    new_system(solver)
}

// ---- steps
// A call, with what it must answer, or what must have been counted before it.
#[derive(Clone, Copy)]
enum Step {
    Close(End),
    Violations(i64),
    Share(VarId, i64),
    Assign(VarId, i64, i64),
    Swap(VarId, VarId, i64),
    Silent(VarId, i64),
    Commit(VarId, i64, End),
    Reset(u64),
    Assigned(u64),
    Dropped(u64),
    Usable(bool),
}

fn close<N: SolverNode>(solver: &mut Solver<N>) -> Result<End, Fail> {
    if !solver.usable() || !solver.has_defined_sets() {
        return none();
    }
    Ok(ended(solver.close(1)))
}

fn commit<N: SolverNode>(solver: &mut Solver<N>, x: VarId, number: i64) -> Result<End, Fail> {
    if !solver.usable() {
        return none();
    }
    match solver.kind(x) {
        Some(VarKind::Number) => { Ok(ended(solver.commit_uncounted(&[(x, number)]))) }
        _ => none(),
    }
}

// What a question of a usable solver answers.
fn asked<N: SolverNode>(solver: &Solver<N>, step: Step) -> Result<bool, Fail> {
    if !solver.usable() {
        return none();
    }
    let k = TotalId::of_system(SYSTEM);
    match step {
        Step::Violations(wanted) => Ok(solver.violations(SYSTEM) == Ok(wanted)),
        Step::Share(x, wanted) => Ok(solver.var_violations(SYSTEM, x) == Ok(wanted)),
        Step::Assign(x, v, wanted) => Ok(solver.assign_delta_in(k, x, v) == Ok(wanted)),
        Step::Swap(x, y, wanted) => Ok(solver.swap_delta_in(k, x, y) == Ok(wanted)),
        Step::Silent(x, v) => Ok(solver.assign_delta_in(k, x, v) == Err(SolverFault::NoMemory)),
        _ => none(),
    }
}

fn holds<N: SolverNode>(solver: &mut Solver<N>, counts: &Counts, step: Step) -> Result<bool, Fail> {
    match step {
        Step::Close(wanted) => Ok(close(solver)? == wanted),
        Step::Commit(x, v, wanted) => Ok(commit(solver, x, v)? == wanted),
        Step::Reset(wanted) => Ok(number(&counts.resets) == wanted),
        Step::Assigned(wanted) => Ok(number(&counts.assigns) == wanted),
        Step::Dropped(wanted) => Ok(number(&counts.drops) == wanted),
        Step::Usable(wanted) => Ok(solver.usable() == wanted),
        _ => asked(solver, step),
    }
}

fn hold<N: SolverNode>(
    solver: &mut Solver<N>,
    counts: &Counts,
    steps: &[Step],
) -> Result<(), Fail> {
    for step in steps {
        if !holds(solver, counts, *step)? {
            return Err(Fail::from("another answer"));
        }
    }
    Ok(())
}

// What a solver that was made, and got the constraint over its places, answers.
fn run<U: LocalConstraint>(
    alloc: Global,
    counts: &Counts,
    user: U,
    made: Made,
    places: &[Sum],
    weight: i64,
    steps: &[Step],
) -> Result<(), Fail> {
    let mut solver = Solver::<KindOf<U>>::new(alloc, SOLVER);
    build(alloc, &mut solver, made)?;
    match post(alloc, &mut solver, user, places, weight)? {
        Ok(()) => hold(&mut solver, counts, steps),
        Err(_) => none(),
    }
}

// ---- tests
const X_ALONE: Sum = Sum { var: X, number: 0 };

const Y_ALONE: Sum = Sum { var: Y, number: 0 };

const Z_ALONE: Sum = Sum { var: Z, number: 0 };

const THREE: &[Sum] = &[X_ALONE, Y_ALONE, Z_ALONE];

// Three variables at 2, 2 and 5, and one that is the third and the greatest number less 5.
const EDGE: Made<'static> = Made {
    starts: &[2, 2, 5, 0],
    defined: W,
    by: Sum {
        var: Z,
        number: 9_223_372_036_854_775_802,
    },
};

const VIOLATIONS: &[Step] = &[
    Step::Close(End::Done),
    Step::Violations(1),
    Step::Share(Z, 1),
    Step::Share(Y, 0),
    // the box took up three numbers at once
    Step::Reset(1),
    Step::Assigned(0),
    Step::Assign(Z, 2, -1),
    Step::Swap(X, Z, 1),
    Step::Assigned(0),
    Step::Commit(Z, 2, End::Done),
    Step::Violations(0),
    Step::Share(Z, 0),
    Step::Assigned(1),
    Step::Reset(1),
];

// A solver tells the violations that the box tells, of what it holds and of what it would hold.
#[test]
fn violations_are_those_of_the_box(rt: HostRuntime) -> Result<(), Fail> {
    let alloc = rt.alloc();
    let counts = counts_of(alloc)?;
    let user: Box<dyn UserConstraint> = Box::new(alloc, unlike_of(alloc, &counts, 100, true)?)?;
    run(alloc, &counts, user, EDGE, THREE, 1, VIOLATIONS)
}

const FAULT: &[Step] = &[
    Step::Close(End::Done),
    Step::Commit(Z, 6, End::Failed(RunFault::Overflow)),
    Step::Usable(false),
    Step::Dropped(0),
];

// Behind a commit's fault the box is dropped once, with the solver.
#[test]
fn boxes_are_dropped_behind_faults(rt: HostRuntime) -> Result<(), Fail> {
    let alloc = rt.alloc();
    let counts = counts_of(alloc)?;
    let user: Box<dyn UserConstraint> = Box::new(alloc, unlike_of(alloc, &counts, 100, true)?)?;
    run(alloc, &counts, user, EDGE, THREE, 1, FAULT)?;
    if number(&counts.drops) == 1 {
        Ok(())
    } else {
        none()
    }
}

// Whether a constraint that is refused for its weight is handed back.
fn is_handed_back<U: LocalConstraint>(
    alloc: Global,
    counts: &Counts,
    user: U,
) -> Result<bool, Fail> {
    let mut solver = Solver::<KindOf<U>>::new(alloc, SOLVER);
    build(alloc, &mut solver, EDGE)?;
    match post(alloc, &mut solver, user, THREE, -1)? {
        Err((fault, back)) => Ok(
            fault == SolverFault::Run(RunFault::OutOfRange)
                && back.name() == "u"
                && number(&counts.drops) == 0,
        ),
        Ok(()) => none(),
    }
}

// What is refused comes back, and is dropped once.
#[test]
fn boxes_are_handed_back(rt: HostRuntime) -> Result<(), Fail> {
    let alloc = rt.alloc();
    let counts = counts_of(alloc)?;
    let user: Box<dyn UserConstraint> = Box::new(alloc, unlike_of(alloc, &counts, 100, true)?)?;
    let back = is_handed_back(alloc, &counts, user)?;
    if back && number(&counts.drops) == 1 {
        Ok(())
    } else {
        none()
    }
}

// Two variables at 2 and 3, and one that is the first and 1.
const FOLLOWING: Made<'static> = Made {
    starts: &[2, 3, 0],
    defined: Z,
    by: Sum { var: X, number: 1 },
};

const FOUR: &[Sum] = &[Y_ALONE, Z_ALONE, X_ALONE, Sum { var: X, number: 1 }];

const CHANGES: &[Step] = &[
    Step::Close(End::Done),
    // 3, 3, 2, 3
    Step::Violations(2),
    // 3, 4, 3, 4
    Step::Assign(X, 3, 2),
    Step::Assigned(0),
    Step::Commit(X, 3, End::Done),
    Step::Violations(4),
    Step::Assigned(3),
    Step::Reset(1),
    Step::Share(Y, 0),
    Step::Share(X, 2),
];

// One change of a variable changes three places.
#[test]
fn three_places_change_through_invariants(rt: HostRuntime) -> Result<(), Fail> {
    let alloc = rt.alloc();
    let counts = counts_of(alloc)?;
    let user: Box<dyn UserConstraint> = Box::new(alloc, unlike_of(alloc, &counts, 100, true)?)?;
    run(alloc, &counts, user, FOLLOWING, FOUR, 2, CHANGES)
}

const NO_MORE_CHANGES: &[Step] = &[
    Step::Close(End::Done),
    Step::Violations(1),
    Step::Commit(X, 5, End::NoMemory),
    Step::Usable(false),
];

const NO_ANSWERS: &[Step] = &[
    Step::Close(End::Done),
    Step::Silent(Y, 7),
    Step::Usable(true),
    Step::Commit(Y, 7, End::Done),
    Step::Violations(2),
];

// That a box found no memory is the answer: of a commit, which is the end of the solver, or of a question, which
// changes nothing.
#[test]
fn want_of_memory_in_a_box_is_answered(rt: HostRuntime) -> Result<(), Fail> {
    let alloc = rt.alloc();
    let counts = counts_of(alloc)?;
    let user: Box<dyn UserConstraint> = Box::new(alloc, unlike_of(alloc, &counts, 0, true)?)?;
    run(alloc, &counts, user, EDGE, THREE, 1, NO_MORE_CHANGES)?;
    let mute: Box<dyn UserConstraint> = Box::new(alloc, unlike_of(alloc, &counts, 100, false)?)?;
    run(alloc, &counts, mute, EDGE, THREE, 1, NO_ANSWERS)
}
