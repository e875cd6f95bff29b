//! Items in bins: the load of each bin is to stay within its capacity.
ghost use Rattle.std.specs.Prelude.{◌≡◌, ◌<◌, [], ◌∷◌, length, IsOk};
ghost use Rattle.cbl_violations.specs.Fitting.{where_all_fit};
ghost use Rattle.cbl_violations.specs.Violations.MultiKnapsack.{size_in, load_of, load_at, overload_at, multi_knapsack_violations, multi_knapsack_violation_at};

use crate::counting::bound_of;
use crate::summing::narrowed;
use cbl_base::{RunFault, sub};

/// The size at the place where it is in the bin, and 0 else.
fn size_in(inputs: &[i64], sizes: &[i64], bin: i128, place: usize) -> i64
    requires lengths { length inputs.now ≡ length sizes.now }
    requires within { place < length inputs.now }
    ensures { result ≡ size_in bin sizes.now inputs.now place }
{
    if i128::from(inputs[place]) == bin {
        sizes[place]
    } else {
        0
    }
}

/// The load of the bin: the sizes of the places with its number.
fn load_of(inputs: &[i64], sizes: &[i64], bin: i128) -> i128
    requires { length inputs.now ≡ length sizes.now }
    ensures { result ≡ load_of bin sizes.now inputs.now }
{
    let mut load: i128 = 0;
    for k in 0..inputs.len() {
        load += i128::from(size_in(inputs, sizes, bin, k));
    }
    load
}

/// How much the load of the bin is above its capacity, the `k`-th. `Overflow` exactly where the load or
/// that doesn't fit.
fn overload_at(
    inputs: &[i64],
    sizes: &[i64],
    low: i64,
    capacities: &[i64],
    k: usize,
) -> Result<i64, RunFault>
    requires lengths { length inputs.now ≡ length sizes.now }
    requires within { k < length capacities.now }
    ensures { let load = load_at sizes.now low inputs.now k in let above = overload_at sizes.now low capacities.now inputs.now k in
        result ≡ where_all_fit (load ∷ above ∷ []) above }
{
    let load = narrowed(load_of(inputs, sizes, i128::from(low) + k as i128))?;
    sub(load, capacities[k])
}

/// Over the bins, how much each one's load is above its capacity: the sum. The first capacity is that of
/// the bin `low`, and each next one that of the bin one above. `Overflow` exactly where a load, how much
/// it is above, or the sum doesn't fit.
pub(crate) fn multi_knapsack_violations(
    inputs: &[i64],
    sizes: &[i64],
    low: i64,
    capacities: &[i64],
) -> Result<i64, RunFault>
    requires { length inputs.now ≡ length sizes.now }
    ensures { result ≡ multi_knapsack_violations sizes.now low capacities.now inputs.now }
{
    let mut sum: i128 = 0;
    for k in 0..capacities.len() {
        sum += i128::from(overload_at(inputs, sizes, low, capacities, k)?.max(0));
    }
    narrowed(sum)
}

/// How much the load of the bin at the place, counted from 0, is above its capacity, and 0 for a value
/// that is no bin.
pub(crate) fn multi_knapsack_violation_at(
    inputs: &[i64],
    place: usize,
    sizes: &[i64],
    low: i64,
    capacities: &[i64],
) -> i64
    requires lengths { length inputs.now ≡ length sizes.now }
    requires within { place < length inputs.now }
    requires valued { IsOk (multi_knapsack_violations sizes.now low capacities.now inputs.now) }
    ensures { result ≡ multi_knapsack_violation_at sizes.now low capacities.now inputs.now place }
{
    let bin = inputs[place];
    match bound_of(low, capacities, bin) {
        Some(capacity) => {
            let load = narrowed(load_of(inputs, sizes, i128::from(bin))).unwrap_or(0);
            sub(load, capacity).unwrap_or(0).max(0)
        }
        None => 0,
    }
}
