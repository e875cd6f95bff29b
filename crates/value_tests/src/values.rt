//! Expressions with values that were worked out by hand.
ghost use Rattle.std.specs.Prelude.{◌≡◌, ◌<◌};

use cbl_base::{Fuel, Place, RunFault, Steps};
use checked_tree::{Form, Generator, Kind, Link, Slot, Typed};
use comet_syntax::tree::{Aggregate, ChainOperator};
use interpreter::Code;
use node_kinds::SolverNode;
use program_forms::is_pure;
use run_standing::Standing;
use run_standing::solving::Solver;
use run_values::{Cells, Stop, Value};
use std::alloc::{AllocError, Global};
use std::marker::Brand;
use std::sync::ledger::{Blank, Ledger};
use std::test::*;
use stmt_expr::{EvalStop, eval};

/// The nodes of runs whose users' constraints come in boxes.
type Boxed = node_kinds::Kind;

/// Where the whole expression stands, and where an operator in it does.
const WHOLE: Place = Place { line: 2, col: 3 };

const JOINT: Place = Place { line: 2, col: 9 };

const N: Slot = Slot::Global(1);

const A: Slot = Slot::Global(2);

/// An expression that stands at a place.
fn typed(place: Place, kind: Kind, form: Form) -> Typed {
    Typed {
        start: WHOLE,
        place,
        kind,
        moving: false,
        form,
    }
}

/// A number where the whole expression stands.
fn number(value: i64) -> Typed {
    typed(WHOLE, Kind::Int, Form::Number(value))
}

/// Two operands, and an operator between them.
fn joined(
    alloc: Global,
    operator: ChainOperator,
    left: Typed,
    right: Typed,
) -> Result<Typed, AllocError> {
    let mut links = Vec::new(alloc);
    links.push(Link {
        operator,
        place: JOINT,
        operand: right,
    })?;
    let first = Box::new(alloc, left)?;
    Ok(typed(WHOLE, Kind::Int, Form::Chain { first, links }))
}

/// `sum(i in 1..4) i * n`
fn products(alloc: Global) -> Result<Typed, AllocError> {
    let i = Slot::Local(0);
    let low = Box::new(alloc, number(1))?;
    let high = Box::new(alloc, number(4))?;
    let mut generators = Vec::new(alloc);
    generators.push(Generator {
        place: JOINT,
        slot: i,
        domain: typed(WHOLE, Kind::Range, Form::Range { low, high }),
    })?;
    let name = typed(WHOLE, Kind::Int, Form::Name(i));
    let factor = typed(WHOLE, Kind::Int, Form::Name(N));
    let body = joined(alloc, ChainOperator::Multiply, name, factor)?;
    let form = Form::Aggregate {
        aggregate: Aggregate::Sum,
        generators,
        condition: None,
        body: Box::new(alloc, body)?,
    };
    Ok(typed(WHOLE, Kind::Int, form))
}

/// A run in which `n` is 3 and `a` has the cells 5, 6 and 7.
fn state<K: SolverNode>(alloc: Global) -> Result<Standing<K>, Stop> {
    let mut s = Standing::<K>::new(alloc, 0, 0, Vec::new(alloc), Vec::new(alloc));
    s.state.put(N, Value::Number(3))?;
    let cells = Cells::row(Vec::from_array(alloc, [5, 6, 7])?);
    let array = s.state.new_array(cells)?;
    s.state.put(A, array)?;
    Ok(s)
}

/// The number that a pure expression without calls gives in that run, and the fuel that is left.
fn given<K: SolverNode>(
    alloc: Global,
    room: u32,
    e: &Typed,
    fuel: u64,
) -> Result<(Result<i64, EvalStop>, u64), Fail> {
    let s = state::<K>(alloc)?;
    Ok(given_by::<Brand, K>(Blank::new(1), &s, room, e, fuel))
}

fn given_by<L: Ledger, K: SolverNode>(
    blank: Blank,
    s: &Standing<K>,
    room: u32,
    e: &Typed,
    fuel: u64,
) -> (Result<i64, EvalStop>, u64)
    requires name { blank.name ≡ L.name }
    requires parts { blank.parts ≡ L.parts }
    requires some { 0 < L.parts }
{
    let Ok(code) = Code::new(s.state.alloc, &[], &[]) else {
        return (Err(EvalStop::NoMemory), 0);
    };
    if !is_pure(&[], e) {
        return (Err(EvalStop::NoMemory), 0);
    }
    let mut left = Fuel { left: fuel };
    let mut trial = Solver::<K>::new(s.state.alloc, 0).trial();
    let mut steps = Steps::<L>::new(blank);
    let answer = match eval(s, &code, room, e, &mut left, &mut trial, &mut steps) {
        Ok(value) => Ok(value.number()),
        Err(stop) => Err(stop),
    };
    (answer, left.left)
}

/// Four tuples cost four units, and the products of 1 to 4 with 3 are 30.
#[test]
fn sum_over_a_range(rt: HostRuntime) -> Result<(), Fail> {
    let alloc = rt.alloc();
    let e = products(alloc)?;
    assert_eq!(rt; given::<Boxed>(alloc, 9, &e, 10)?, (Ok(30), 6));
    assert_eq!(rt; given::<Boxed>(alloc, 9, &e, 4)?, (Ok(30), 0));
    Ok(())
}

/// The third of the tuples is not paid for, and the fuel is spent at the aggregate.
#[test]
fn fuel_is_spent(rt: HostRuntime) -> Result<(), Fail> {
    let alloc = rt.alloc();
    let e = products(alloc)?;
    assert_eq!(rt;
        given::<Boxed>(alloc, 9, &e, 2)?,
        (Err(EvalStop::Spent(WHOLE)), 0)
    );
    Ok(())
}

/// A division by zero is a fault at its operator. Where there is no room for an operand that is a fault at the operand.
#[test]
fn faults_have_their_places(rt: HostRuntime) -> Result<(), Fail> {
    let alloc = rt.alloc();
    let zero = typed(JOINT, Kind::Int, Form::Number(0));
    let e = joined(alloc, ChainOperator::Divide, number(7), zero)?;
    let none = Err(EvalStop::Fault(JOINT, RunFault::DivideByZero));
    assert_eq!(rt; given::<Boxed>(alloc, 2, &e, 5)?, (none, 5));
    let deep = Err(EvalStop::Fault(WHOLE, RunFault::Depth));
    assert_eq!(rt; given::<Boxed>(alloc, 1, &e, 5)?, (deep, 5));
    Ok(())
}

/// The cell of an array with the index 2 is its third one.
#[test]
fn cells_are_those_of_the_state(rt: HostRuntime) -> Result<(), Fail> {
    let alloc = rt.alloc();
    let array = Box::new(alloc, typed(WHOLE, Kind::Array, Form::Name(A)))?;
    let index = Box::new(alloc, number(2))?;
    let e = typed(WHOLE, Kind::Int, Form::Index { array, index });
    assert_eq!(rt; given::<Boxed>(alloc, 2, &e, 5)?, (Ok(7), 5));
    Ok(())
}
