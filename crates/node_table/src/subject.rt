//! What a line of a table names: an operation, a constraint, or a node of no operation.

use crate::given::Given;
use cbl_base::{Input, IntSet, Numbers};
use cbl_operations::{KeyedOp, Op};
use cbl_violations::Constraint;
use node_states::plain_operation;
use std::alloc::Global;
use table_file::Stop;

/// What a node computes.
#[derive(Drop)]
pub(crate) enum Subject {
    Operation(Op),
    Constant(Input),
    /// A total of so many members with as many weights.
    Total(u32),
    Repeat,
    /// The constraint of a user that no number is 0, as it is.
    NoZeros,
    /// The same in a box.
    Boxed,
}

/// What a name and what stands behind it name.
pub(crate) fn subject_of(alloc: Global, name: &str, givens: &[Given]) -> Result<Subject, Stop> {
    match (name, givens) {
        ("Constant", [value]) => Ok(Subject::Constant(value.input(alloc)?)),
        ("Total", [members]) => Ok(Subject::Total(members.count()?)),
        ("Repeat", []) => Ok(Subject::Repeat),
        ("NoZeros", []) => Ok(Subject::NoZeros),
        (_, []) => Ok(Subject::Operation(plain_operation(name).ok_or(Stop::Form)?)),
        _ => Ok(Subject::Operation(operation_with(alloc, name, givens)?)),
    }
}

/// The operation of this name that keeps these, in the order of its fields.
fn operation_with(alloc: Global, name: &str, givens: &[Given]) -> Result<Op, Stop> {
    match (name, givens) {
        ("ArgMin", [keys]) => with_keys(alloc, KeyedOp::ArgMin, keys),
        ("ArgMax", [keys]) => with_keys(alloc, KeyedOp::ArgMax, keys),
        ("SetOf", [keys]) => with_keys(alloc, KeyedOp::SetOf, keys),
        ("Element", [low, len]) => Ok(Op::Element {
            low: low.number()?,
            len: len.count()?,
        }),
        ("Element2", [low1, len1, low2, len2]) => Ok(Op::Element2 {
            low1: low1.number()?,
            len1: len1.count()?,
            low2: low2.number()?,
            len2: len2.count()?,
        }),
        _ => Ok(Op::Constraint(constraint_with(alloc, name, givens)?)),
    }
}

fn with_keys(alloc: Global, op: KeyedOp, keys: &Given) -> Result<Op, Stop> {
    Ok(Op::Keyed {
        op,
        keys: keys.list(alloc)?,
    })
}

/// The constraint of this name that keeps these.
fn constraint_with(alloc: Global, name: &str, givens: &[Given]) -> Result<Constraint, Stop> {
    match (name, givens) {
        ("Knapsack", [weights, capacity]) => Ok(Constraint::Knapsack {
            weights: weights.list(alloc)?,
            capacity: capacity.number()?,
        }),
        (_, [low, bounds]) => with_bounds(name, low.number()?, bounds.list(alloc)?),
        ("MultiKnapsack", [sizes, low, capacities]) => Ok(Constraint::MultiKnapsack {
            sizes: sizes.list(alloc)?,
            low: low.number()?,
            capacities: capacities.list(alloc)?,
        }),
        ("Sequence", [values, most, window]) => Ok(Constraint::Sequence {
            values: IntSet::from_slice(alloc, values.list(alloc)?.as_slice())?,
            most: most.number()?,
            window: window.number()?,
        }),
        _ => Err(Stop::Form),
    }
}

fn with_bounds(name: &str, low: i64, bounds: Numbers) -> Result<Constraint, Stop> {
    match name {
        "AtMost" => Ok(Constraint::AtMost { low, bounds }),
        "AtLeast" => Ok(Constraint::AtLeast { low, bounds }),
        "Exactly" => Ok(Constraint::Exactly { low, bounds }),
        _ => Err(Stop::Form),
    }
}
