//! How often values of a set may stand in places in a row.
ghost use Rattle.std.specs.Prelude.{◌≡◌, ◌<◌, pos, length, IsOk, if◌then◌else◌};
ghost use Rattle.cbl_base.specs.Arithmetic.{exact};
ghost use Rattle.cbl_violations.specs.Fitting.{excess};
ghost use Rattle.cbl_violations.specs.Violations.Sequence.{size_of, windows_in, surplus_in_window, count_in, holds_place, sequence_violations, sequence_violation_at};

use crate::summing::narrowed;
use cbl_base::RunFault;

/// How many of these are in the set.
fn count_in(inputs: &[i64], values: &[i64]) -> usize
    ensures { result ≡ count_in values.now inputs.now }
{
    inputs.iter().filter(|x| values.contains(*x)).count()
}

/// How many places a window has.
fn size_of(window: i64) -> usize
    ensures { result ≡ size_of window }
{
    usize::try_from(window).unwrap_or(0)
}

/// How many windows of the size there are.
fn windows_in(inputs: &[i64], window: i64) -> usize
    ensures { result ≡ windows_in (size_of window) inputs.now }
{
    (inputs.len() + 1).saturating_sub(size_of(window))
}

/// How many more of the set than allowed stand in the window that begins at a place. `Overflow` exactly
/// where that doesn't fit.
fn surplus_in_window(
    inputs: &[i64],
    start: usize,
    values: &[i64],
    most: i64,
    window: i64,
) -> Result<i64, RunFault>
    requires { start < windows_in (size_of window) inputs.now }
    ensures { result ≡ exact (surplus_in_window values.now most (size_of window) inputs.now start) }
{
    let size = size_of(window);
    let count = count_in(&inputs[start..start + size], values);
    narrowed(count as i128 - i128::from(most))
}

/// Over the windows of so many places in a row, how many more than `most` have a value of the set: the
/// sum. `Overflow` exactly where a window's difference or the sum doesn't fit.
pub(crate) fn sequence_violations(
    inputs: &[i64],
    values: &[i64],
    most: i64,
    window: i64,
) -> Result<i64, RunFault>
    ensures { result ≡ sequence_violations values.now most window inputs.now }
{
    let windows = windows_in(inputs, window);
    let mut sum: i128 = 0;
    for start in 0..windows {
        sum += i128::from(surplus_in_window(inputs, start, values, most, window)?.max(0));
    }
    narrowed(sum)
}

/// How many more of the set than allowed stand in the window that begins at `start`, where there are
/// more and it holds the place, and else 0.
fn excess_at(
    inputs: &[i64],
    start: usize,
    place: usize,
    values: &[i64],
    most: i64,
    window: i64,
) -> i64
    requires start { start < windows_in (size_of window) inputs.now }
    requires valued { IsOk (sequence_violations values.now most window inputs.now) }
    ensures { result ≡ (if holds_place (size_of window) place start then excess
        (surplus_in_window values.now most (size_of window) inputs.now start) else pos 0) }
{
    if start <= place && place < start + size_of(window) {
        surplus_in_window(inputs, start, values, most, window)
            .unwrap_or(0)
            .max(0)
    } else {
        0
    }
}

/// Where the value at the place, counted from 0, is in the set, the sum over the windows that hold the
/// place, and else 0.
pub(crate) fn sequence_violation_at(
    inputs: &[i64],
    place: usize,
    values: &[i64],
    most: i64,
    window: i64,
) -> i64
    requires within { place < length inputs.now }
    requires valued { IsOk (sequence_violations values.now most window inputs.now) }
    ensures { result ≡ sequence_violation_at values.now most window inputs.now place }
{
    if !values.contains(&inputs[place]) {
        return 0;
    }
    let windows = windows_in(inputs, window);
    let mut sum: i128 = 0;
    for start in 0..windows {
        sum += i128::from(excess_at(inputs, start, place, values, most, window));
    }
    narrowed(sum).unwrap_or(0)
}
