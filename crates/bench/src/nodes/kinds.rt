//! The kinds of nodes, and what inputs each is timed with.
use crate::nodes::sample::Sample;
use crate::nodes::timing::{Times, time_node};
use crate::stop::Stop;
use cbl_base::{IntSet, NoMemory, Numbers};
use cbl_operations::{KeyedOp, Op};
use cbl_violations::Constraint;
use node_kinds::Kind;
use node_states::{are_so_many, plain_operation, takes};
use std::alloc::Global;
use std::time::CpuClock;

/// How many places a window of `sequence` has, and at how many of them a number of the set may stand.
const WINDOW: i64 = 10;

const MOST_IN_WINDOW: i64 = 5;

/// What inputs a node is timed with, where a size is given.
#[derive(Clone, Copy, PartialEq, Eq, Debug)]
pub(crate) enum Shape {
    /// As many numbers as the values that they may have.
    Numbers,
    /// As many, each 0 or 1.
    Truths,
    /// An index, and as many cells.
    Cells,
    /// A row, a column, and the cells of a square of about as many.
    Square,
    /// Half as many members, and a weight for each.
    Weighted,
    /// A set of half of the numbers below.
    Set,
    /// Two such sets.
    Sets,
    /// A number and such a set.
    Member,
    /// Two numbers, whatever the size.
    Pair,
}

/// How a line names a kind, its operation's name in the code, and its inputs.
pub(crate) static KINDS: [(&str, &str, Shape); 33] = [
    ("sum", "Sum", Shape::Numbers),
    ("least", "Least", Shape::Numbers),
    ("greatest", "Greatest", Shape::Numbers),
    ("count", "Count", Shape::Numbers),
    ("alldifferent", "AllDifferent", Shape::Numbers),
    ("AllOf", "AllOf", Shape::Numbers),
    ("AnyOf", "AnyOf", Shape::Numbers),
    ("and", "And", Shape::Truths),
    ("or", "Or", Shape::Truths),
    ("setof", "SetOf", Shape::Truths),
    ("argMin", "ArgMin", Shape::Numbers),
    ("argMax", "ArgMax", Shape::Numbers),
    ("element", "Element", Shape::Cells),
    ("element2", "Element2", Shape::Square),
    ("atmost", "AtMost", Shape::Numbers),
    ("atleast", "AtLeast", Shape::Numbers),
    ("exactly", "Exactly", Shape::Numbers),
    ("knapsack", "Knapsack", Shape::Numbers),
    ("multiknapsack", "MultiKnapsack", Shape::Numbers),
    ("sequence", "Sequence", Shape::Numbers),
    ("total", "Total", Shape::Weighted),
    ("union", "Union", Shape::Sets),
    ("inter", "Inter", Shape::Sets),
    ("minus", "Minus", Shape::Sets),
    ("card", "Card", Shape::Set),
    ("member", "Member", Shape::Member),
    ("-", "Sub", Shape::Pair),
    ("*", "Mul", Shape::Pair),
    ("/", "Div", Shape::Pair),
    ("==", "Eq", Shape::Pair),
    ("<", "Lt", Shape::Pair),
    ("== posted", "ViolEq", Shape::Pair),
    ("< posted", "ViolLt", Shape::Pair),
];

/// The least and the greatest number of inputs.
const FEWEST: u32 = 2;

const MOST: u32 = 1_000_000;

/// How long the node of this operation takes for one change of such inputs.
pub(crate) fn time_kind<R: CpuClock>(
    rt: &R,
    alloc: Global,
    operation: &str,
    shape: Shape,
    size: u32,
) -> Result<Times, Stop> {
    if size < FEWEST || size > MOST {
        return Err(Stop::Words);
    }
    let sample = Sample::of(alloc, shape, size)?;
    if let Shape::Weighted = shape {
        let members = size / 2;
        if !are_so_many(sample.inputs.as_slice(), members as usize * 2) {
            return Err(Stop::Words);
        }
        return time_node(rt, Kind::total(alloc, members), &sample);
    }
    let op = operation_of(alloc, operation, size)?;
    if !takes(&op, sample.inputs.as_slice()) {
        return Err(Stop::Words);
    }
    time_node(rt, Kind::of(alloc, &op, None)?, &sample)
}

/// The operation of this name over so many inputs.
fn operation_of(alloc: Global, name: &str, size: u32) -> Result<Op, Stop> {
    match plain_operation(name) {
        Some(op) => Ok(op),
        None => operation_with_list(alloc, name, size),
    }
}

/// The same of one that keeps something beside its inputs.
fn operation_with_list(alloc: Global, name: &str, size: u32) -> Result<Op, Stop> {
    match name {
        "SetOf" => with_keys(alloc, KeyedOp::SetOf, size),
        "ArgMin" => with_keys(alloc, KeyedOp::ArgMin, size),
        "ArgMax" => with_keys(alloc, KeyedOp::ArgMax, size),
        "Element" => Ok(Op::Element { low: 0, len: size }),
        "Element2" => Ok(Op::Element2 {
            low1: 0,
            len1: size.isqrt(),
            low2: 0,
            len2: size.isqrt(),
        }),
        _ => Ok(Op::Constraint(constraint_with_list(alloc, name, size)?)),
    }
}

fn with_keys(alloc: Global, op: KeyedOp, size: u32) -> Result<Op, Stop> {
    Ok(Op::Keyed {
        op,
        keys: numbers_from_0(alloc, size)?,
    })
}

/// The same of a constraint.
fn constraint_with_list(alloc: Global, name: &str, size: u32) -> Result<Constraint, Stop> {
    let all = numbers_from_0(alloc, size)?;
    match name {
        "AtMost" => Ok(Constraint::AtMost {
            low: 0,
            bounds: all,
        }),
        "AtLeast" => Ok(Constraint::AtLeast {
            low: 0,
            bounds: all,
        }),
        "Exactly" => Ok(Constraint::Exactly {
            low: 0,
            bounds: all,
        }),
        "Knapsack" => Ok(Constraint::Knapsack {
            weights: all,
            capacity: i64::from(size),
        }),
        "MultiKnapsack" => Ok(Constraint::MultiKnapsack {
            sizes: all,
            low: 0,
            capacities: numbers_from_0(alloc, size)?,
        }),
        "Sequence" => Ok(Constraint::Sequence {
            values: IntSet::from_slice(alloc, numbers_from_0(alloc, size / 2)?.as_slice())?,
            most: MOST_IN_WINDOW,
            window: WINDOW,
        }),
        _ => Err(Stop::Words),
    }
}

/// The numbers from 0 on, so many.
fn numbers_from_0(alloc: Global, count: u32) -> Result<Numbers, NoMemory> {
    let mut list = Vec::new(alloc);
    for number in 0..count {
        list.push(i64::from(number))?;
    }
    Numbers::from_slice(alloc, list.as_slice())
}
