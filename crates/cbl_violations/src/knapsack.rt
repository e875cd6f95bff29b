//! A load that is to stay within a capacity.
ghost use Rattle.std.specs.Prelude.{◌≡◌, ◌<◌, length, IsOk};
ghost use Rattle.cbl_base.specs.Arithmetic.{exact};
ghost use Rattle.cbl_violations.specs.Violations.Knapsack.{part_of_load, knapsack_violations, knapsack_violation_at};

use crate::summing::narrowed;
use cbl_base::{RunFault, mul, sub};

/// A place's part of the load. `Overflow` exactly where it doesn't fit.
fn part_of_load(inputs: &[i64], weights: &[i64], place: usize) -> Result<i64, RunFault>
    requires lengths { length inputs.now ≡ length weights.now }
    requires within { place < length inputs.now }
    ensures { result ≡ exact (part_of_load weights.now inputs.now place) }
{
    mul(weights[place], inputs[place])
}

/// How much the load, each input times its weight, is above the capacity. `Overflow` exactly where a
/// product, the load or the difference doesn't fit.
pub(crate) fn knapsack_violations(
    inputs: &[i64],
    weights: &[i64],
    capacity: i64,
) -> Result<i64, RunFault>
    requires { length inputs.now ≡ length weights.now }
    ensures { result ≡ knapsack_violations weights.now capacity inputs.now }
{
    let mut sum: i128 = 0;
    for k in 0..inputs.len() {
        sum += i128::from(part_of_load(inputs, weights, k)?);
    }
    let load = narrowed(sum)?;
    Ok(sub(load, capacity)?.max(0))
}

/// The part of the load at the place, counted from 0, but no more than the violations and not below 0.
pub(crate) fn knapsack_violation_at(
    inputs: &[i64],
    place: usize,
    weights: &[i64],
    capacity: i64,
) -> i64
    requires lengths { length inputs.now ≡ length weights.now }
    requires within { place < length inputs.now }
    requires valued { IsOk (knapsack_violations weights.now capacity inputs.now) }
    ensures { result ≡ knapsack_violation_at weights.now capacity inputs.now place }
{
    let violations = knapsack_violations(inputs, weights, capacity).unwrap_or(0);
    let part = part_of_load(inputs, weights, place).unwrap_or(0);
    violations.min(part).max(0)
}
