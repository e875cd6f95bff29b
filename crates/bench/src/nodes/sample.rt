//! Inputs of a node, with changes of them and back.
ghost use Rattle.std.specs.Prelude.{◌≤◌, ◌<◌, IfOk};
ghost use Rattle.std.specs.List.{All};
ghost use Rattle.bench.specs.RoundTrips.{IsRoundTrip};

use crate::draws::Draws;
use crate::nodes::kinds::Shape;
use crate::stop::Stop;
use cbl_base::{Change, Input, NoMemory};
use node_states::{Places, changes_between};
use std::alloc::Global;

/// How many changes are made in turn.
const TRIPS: u32 = 64;

/// How far numbers go that are two.
const PAIR_BOUND: u32 = 1000;

/// A change of one input, and the change back.
#[derive(Drop)]
pub(crate) struct RoundTrip {
    pub(crate) forth: Vec<Change>,
    pub(crate) back: Vec<Change>,
}

/// Inputs of a node, with changes of them and back.
#[derive(Drop)]
pub(crate) struct Sample {
    pub(crate) inputs: Vec<Input>,
    pub(crate) trips: Vec<RoundTrip>,
}

impl Sample {
    /// Inputs of this shape, and changes at places that are drawn.
    pub(crate) fn of(alloc: Global, shape: Shape, size: u32) -> Result<Sample, Stop>
        requires few { 2 ≤ size }
        requires many { size ≤ 1000000 }
        ensures { IfOk result (λ sample. All (IsRoundTrip sample.inputs.items) sample.trips.items) }
    {
        let mut draws = Draws::new();
        let bound = bound_of(shape, size);
        let inputs = inputs_of(alloc, &mut draws, shape, size)?;
        let mut trips = Vec::new(alloc);
        for _trip in 0..TRIPS {
            let trip = trip_of(alloc, &mut draws, inputs.as_slice(), bound)?;
            trips.push(trip)?;
        }
        Ok(Sample { inputs, trips })
    }
}

/// What all numbers are below.
fn bound_of(shape: Shape, size: u32) -> u32
    requires { 2 ≤ size }
    ensures { 0 < result }
{
    match shape {
        Shape::Truths => 2,
        Shape::Square => size.isqrt().max(1),
        Shape::Pair => PAIR_BOUND,
        _ => size,
    }
}

/// Inputs of this shape.
fn inputs_of(
    alloc: Global,
    draws: &mut Draws,
    shape: Shape,
    size: u32,
) -> Result<Vec<Input>, NoMemory>
    requires few { 2 ≤ size }
    requires many { size ≤ 1000000 }
{
    let bound = bound_of(shape, size);
    match shape {
        Shape::Numbers | Shape::Truths => draws.numbers(alloc, size, bound),
        Shape::Cells => draws.numbers(alloc, size + 1, bound),
        Shape::Square => draws.numbers(alloc, square(size.isqrt()), bound),
        Shape::Weighted => draws.numbers(alloc, size / 2 * 2, bound),
        Shape::Pair => draws.numbers(alloc, 2, bound),
        Shape::Set => Ok(vec![in alloc; draws.set(alloc, bound)?]?),
        Shape::Sets => Ok(vec![in alloc; draws.set(alloc, bound)?, draws.set(alloc, bound)?]?),
        Shape::Member => {
            let number = Input::Int(i64::from(draws.below(bound)));
            Ok(vec![in alloc; number, draws.set(alloc, bound)?]?)
        }
    }
}

/// Two numbers, and the cells of a square.
fn square(side: u32) -> u32 {
    side.saturating_mul(side).saturating_add(2)
}

/// A change at a place that is drawn: a number becomes another below the bound, a set gets such a number or,
/// where it has it, loses it.
fn trip_of(
    alloc: Global,
    draws: &mut Draws,
    inputs: &[Input],
    bound: u32,
) -> Result<RoundTrip, Stop>
    requires { 0 < bound }
    ensures { IfOk result (IsRoundTrip inputs.now) }
{
    let mut changed = copies_of(alloc, inputs)?;
    change_one(draws, &mut changed, bound)?;
    let forth = changes_between(alloc, inputs, changed.as_slice(), Places::Differing)?;
    let back = changes_between(alloc, changed.as_slice(), inputs, Places::Differing)?;
    match (forth, back) {
        (Some(forth), Some(back)) => Ok(RoundTrip { forth, back }),
        _ => Err(Stop::Words),
    }
}

/// Changes one of the inputs.
fn change_one(draws: &mut Draws, inputs: &mut Vec<Input>, bound: u32) -> Result<(), Stop>
    requires { 0 < bound }
{
    let count = u32::try_from(inputs.len()).unwrap_or(u32::MAX);
    if count == 0 {
        return Err(Stop::Words);
    }
    match inputs.get_mut(draws.below(count) as usize) {
        Some(Input::Int(number)) => *number = draws.other_below(bound, *number),
        Some(Input::Set(set)) => {
            let member = i64::from(draws.below(bound));
            if !set.remove(member) {
                set.insert(member)?;
            }
        }
        None => {}
    }
    Ok(())
}

fn copies_of(alloc: Global, inputs: &[Input]) -> Result<Vec<Input>, NoMemory> {
    let mut copies = Vec::new(alloc);
    for input in inputs {
        copies.push(input.clone()?)?;
    }
    Ok(copies)
}
