//! How often values may stand in a list. The bounds are an array whose first entry is the bound of the
//! value `low`, and each next one that of the value one above.
ghost use Rattle.std.specs.Prelude.{◌≡◌, ◌<◌, pos, length, slice_index_or, IsOk};
ghost use Rattle.cbl_base.specs.Arithmetic.{exact};
ghost use Rattle.cbl_violations.specs.Violations.AtMost.{surplus, is_over, at_most_violations, at_most_violation_at};
ghost use Rattle.cbl_violations.specs.Violations.AtLeast.{shortage, at_least_violations, at_least_violation_at};
ghost use Rattle.cbl_violations.specs.Violations.Exactly.{exactly_violations, exactly_violation_at};

use crate::counting::{bound_of, places_with};
use crate::summing::narrowed;
use cbl_base::RunFault;

/// How much more often than its bound the value stands there whose bound is the `k`-th. `Overflow`
/// exactly where that doesn't fit.
fn surplus(inputs: &[i64], low: i64, bounds: &[i64], k: usize) -> Result<i64, RunFault>
    requires { k < length bounds.now }
    ensures { result ≡ exact (surplus low bounds.now inputs.now k) }
{
    let count = places_with(inputs, i128::from(low) + k as i128);
    narrowed(count as i128 - i128::from(bounds[k]))
}

/// How much less often than its bound the value stands there whose bound is the `k`-th. `Overflow`
/// exactly where that doesn't fit.
fn shortage(inputs: &[i64], low: i64, bounds: &[i64], k: usize) -> Result<i64, RunFault>
    requires { k < length bounds.now }
    ensures { result ≡ exact (shortage low bounds.now inputs.now k) }
{
    let count = places_with(inputs, i128::from(low) + k as i128);
    narrowed(i128::from(bounds[k]) - count as i128)
}

/// Over the bounded values, at how many places more than its bound each one stands: the sum.
/// `Overflow` exactly where a bound's difference or the sum doesn't fit.
pub(crate) fn at_most_violations(inputs: &[i64], low: i64, bounds: &[i64]) -> Result<i64, RunFault>
    ensures { result ≡ at_most_violations low bounds.now inputs.now }
{
    let mut sum: i128 = 0;
    for k in 0..bounds.len() {
        sum += i128::from(surplus(inputs, low, bounds, k)?.max(0));
    }
    narrowed(sum)
}

/// Over the bounded values, at how many places fewer than its bound each one stands: the sum.
/// `Overflow` exactly where a bound's difference or the sum doesn't fit.
pub(crate) fn at_least_violations(inputs: &[i64], low: i64, bounds: &[i64]) -> Result<i64, RunFault>
    ensures { result ≡ at_least_violations low bounds.now inputs.now }
{
    let mut sum: i128 = 0;
    for k in 0..bounds.len() {
        sum += i128::from(shortage(inputs, low, bounds, k)?.max(0));
    }
    narrowed(sum)
}

/// Over the bounded values, at how many places more or fewer than its bound each one stands: the sum.
/// `Overflow` exactly where a bound's difference or the sum doesn't fit.
pub(crate) fn exactly_violations(inputs: &[i64], low: i64, bounds: &[i64]) -> Result<i64, RunFault>
    ensures { result ≡ exactly_violations low bounds.now inputs.now }
{
    let mut sum: i128 = 0;
    for k in 0..bounds.len() {
        sum += i128::from(surplus(inputs, low, bounds, k)?).abs();
    }
    narrowed(sum)
}

/// Whether the value at the place stands at more places than its bound. `None` exactly where it has none.
fn is_over(inputs: &[i64], place: usize, low: i64, bounds: &[i64]) -> Option<bool>
    requires { place < length inputs.now }
    ensures { result ≡ is_over low bounds.now inputs.now (slice_index_or inputs.now place (pos 0)) }
{
    match bound_of(low, bounds, inputs[place]) {
        Some(bound) => {
            let count = places_with(inputs, i128::from(inputs[place]));
            Some(count as i128 > i128::from(bound))
        }
        None => None,
    }
}

/// 1 where the value at the place, counted from 0, has a bound and stands at more places, and else 0.
#[tactic(auto, unfolding(crate::specs::Violations::AtMost::at_most_violation_at))]
pub(crate) fn at_most_violation_at(inputs: &[i64], place: usize, low: i64, bounds: &[i64]) -> i64
    requires within { place < length inputs.now }
    requires valued { IsOk (at_most_violations low bounds.now inputs.now) }
    ensures { result ≡ at_most_violation_at low bounds.now inputs.now place }
{
    let is_over = is_over(inputs, place, low, bounds).unwrap_or(false);
    if is_over { 1 } else { 0 }
}

/// 1 where there are violations, and the value at the place, counted from 0, has no bound or stands at
/// more places; and else 0.
#[tactic(auto, unfolding(crate::specs::Violations::AtLeast::at_least_violation_at))]
pub(crate) fn at_least_violation_at(inputs: &[i64], place: usize, low: i64, bounds: &[i64]) -> i64
    requires within { place < length inputs.now }
    requires valued { IsOk (at_least_violations low bounds.now inputs.now) }
    ensures { result ≡ at_least_violation_at low bounds.now inputs.now place }
{
    let is_violated = at_least_violations(inputs, low, bounds).unwrap_or(0) != 0;
    let is_spare = is_over(inputs, place, low, bounds).unwrap_or(true);
    if is_violated && is_spare { 1 } else { 0 }
}

/// 1 where the value at the place, counted from 0, stands at more places than its bound, or has no bound
/// while there are violations; and else 0.
#[tactic(auto, unfolding(crate::specs::Violations::Exactly::exactly_violation_at))]
pub(crate) fn exactly_violation_at(inputs: &[i64], place: usize, low: i64, bounds: &[i64]) -> i64
    requires within { place < length inputs.now }
    requires valued { IsOk (exactly_violations low bounds.now inputs.now) }
    ensures { result ≡ exactly_violation_at low bounds.now inputs.now place }
{
    let is_violated = exactly_violations(inputs, low, bounds).unwrap_or(0) != 0;
    let is_extra = is_over(inputs, place, low, bounds).unwrap_or(is_violated);
    if is_extra { 1 } else { 0 }
}
