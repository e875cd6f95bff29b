//! How long a node takes.
ghost use Rattle.std.specs.Prelude.{◌≡◌, IsTrue, OnOk};
ghost use Rattle.std.specs.List.{All};
ghost use Rattle.cbl_base.specs.Inputs.{kinds_of};
ghost use Rattle.bench.specs.RoundTrips.{IsRoundTrip};

use crate::nodes::sample::{RoundTrip, Sample};
use crate::stop::Stop;
use cbl_base::{Input, NoMemory, NodeFault, NodeRule, NodeValue};
use std::time::{CpuClock, Duration};

/// How long the calls that are timed together take at least, in milliseconds.
const ENOUGH: u128 = 50;

/// How often the number of rounds is doubled at most.
const DOUBLINGS: u32 = 31;

/// Nanoseconds of the processor for one change.
#[derive(Clone, Copy)]
pub(crate) struct Times {
    pub(crate) probe: u64,
    pub(crate) apply: u64,
}

/// What is timed: probes of the changes, or changes that are made and those back.
#[derive(Clone, Copy, PartialEq, Eq, Debug)]
enum Calls {
    Probes,
    Applies,
}

/// How long the node takes for one change of the sample.
pub(crate) fn time_node<R: CpuClock, N: NodeRule>(
    rt: &R,
    mut node: N,
    sample: &Sample,
) -> Result<Times, Stop>
    requires takes { IsTrue ((N.rule node).takes (kinds_of sample.now.inputs.items)) }
    requires trips { All (IsRoundTrip sample.now.inputs.items) sample.now.trips.items }
{
    node.reset(sample.inputs.as_slice())?;
    let probe = time_of(rt, &mut node, sample.trips.as_slice(), Calls::Probes)?;
    let apply = time_of(rt, &mut node, sample.trips.as_slice(), Calls::Applies)?;
    Ok(Times {
        probe,
        apply: apply / 2,
    })
}

/// How long the calls take for one of the trips.
fn time_of<R: CpuClock, N: NodeRule>(
    rt: &R,
    node: &mut N,
    trips: &[RoundTrip],
    calls: Calls,
) -> Result<u64, Stop>
    requires ready { N.ready node.old }
    requires trips { All (IsRoundTrip (N.held node.old)) trips.now }
    ensures ready { OnOk result (N.ready node.new) }
    ensures held { OnOk result (N.held node.new ≡ N.held node.old) }
{
    let first = call_all(node, trips, calls)?;
    let mut rounds = 1u32;
    for _doubling in 0..DOUBLINGS {
        let start = rt.process_cpu_time()?;
        for _round in 0..rounds {
            if call_all(node, trips, calls)? != first {
                return Err(Stop::Answers);
            }
        }
        let spent = rt.process_cpu_time()?.saturating_sub(start);
        if spent.as_millis() >= ENOUGH {
            return Ok(nanoseconds_each(spent, rounds, trips.len()));
        }
        rounds = rounds.saturating_mul(2);
    }
    Err(Stop::System)
}

/// Makes the calls, and gives the sum of what the node answers to the probes.
fn call_all<N: NodeRule>(node: &mut N, trips: &[RoundTrip], calls: Calls) -> Result<i64, NoMemory>
    requires ready { N.ready node.old }
    requires trips { All (IsRoundTrip (N.held node.old)) trips.now }
    ensures ready { OnOk result (N.ready node.new) }
    ensures held { OnOk result (N.held node.new ≡ N.held node.old) }
{
    match calls {
        Calls::Probes => {
            let sum = probe_all(node, trips)?;
            Ok(sum)
        }
        Calls::Applies => {
            apply_all(node, trips)?;
            Ok(0)
        }
    }
}

/// The sum of what the node answers to each change.
fn probe_all<N: NodeRule>(node: &N, trips: &[RoundTrip]) -> Result<i64, NoMemory>
    requires ready { N.ready node.now }
    requires trips { All (IsRoundTrip (N.held node.now)) trips.now }
{
    let mut sum = 0i64;
    for trip in trips {
        match node.probe(trip.forth.as_slice()) {
            Ok(value) => sum = sum.wrapping_add(as_number(&value)),
            Err(NodeFault::Run(_)) => {}
            Err(NodeFault::NoMemory) => return Err(NoMemory),
        }
    }
    Ok(sum)
}

/// The number, or how many members the set has.
fn as_number(value: &NodeValue) -> i64 {
    match value {
        Input::Int(number) => *number,
        Input::Set(set) => set.len() as i64,
    }
}

/// Makes each change, and the change back.
fn apply_all<N: NodeRule>(node: &mut N, trips: &[RoundTrip]) -> Result<(), NoMemory>
    requires ready { N.ready node.old }
    requires trips { All (IsRoundTrip (N.held node.old)) trips.now }
    ensures ready { OnOk result (N.ready node.new) }
    ensures held { OnOk result (N.held node.new ≡ N.held node.old) }
{
    for trip in trips {
        apply_both(node, trip)?;
    }
    Ok(())
}

/// Makes the change, and the change back.
fn apply_both<N: NodeRule>(node: &mut N, trip: &RoundTrip) -> Result<(), NoMemory>
    requires ready { N.ready node.old }
    requires trip { IsRoundTrip (N.held node.old) trip.now }
    ensures ready { OnOk result (N.ready node.new) }
    ensures held { OnOk result (N.held node.new ≡ N.held node.old) }
{
    node.apply(trip.forth.as_slice())?;
    node.apply(trip.back.as_slice())?;
    Ok(())
}

/// Nanoseconds for each of so many calls in each of so many rounds.
fn nanoseconds_each(spent: Duration, rounds: u32, calls: usize) -> u64 {
    let all = (rounds as u128 * calls as u128).max(1);
    u64::try_from(spent.as_nanos() / all).unwrap_or(u64::MAX)
}
