//! Relations of two numbers.
ghost use Rattle.std.specs.Prelude.{◌≡◌, ◌<◌, length, IsOk};
ghost use Rattle.cbl_violations.specs.Violations.Relations.{of_two, at_each, eq_violations, ne_violations, le_violations, lt_violations};

use crate::summing::narrowed;
use cbl_base::{RunFault, sub};

/// How much the two inputs differ. `Overflow` exactly where that or their difference doesn't fit.
pub fn eq_violations(inputs: &[i64]) -> Result<i64, RunFault>
    requires { length inputs.now ≡ 2 }
    ensures { result ≡ of_two eq_violations inputs.now }
{
    let difference = sub(inputs[0], inputs[1])?;
    if difference < 0 {
        sub(0, difference)
    } else {
        Ok(difference)
    }
}

/// 1 where the two inputs are equal, and else 0.
pub fn ne_violations(inputs: &[i64]) -> Result<i64, RunFault>
    requires { length inputs.now ≡ 2 }
    ensures { result ≡ of_two ne_violations inputs.now }
{
    Ok(if inputs[0] == inputs[1] { 1 } else { 0 })
}

/// How much the first input is above the second. `Overflow` exactly where their difference doesn't fit.
pub fn le_violations(inputs: &[i64]) -> Result<i64, RunFault>
    requires { length inputs.now ≡ 2 }
    ensures { result ≡ of_two le_violations inputs.now }
{
    Ok(sub(inputs[0], inputs[1])?.max(0))
}

/// How much the first input is above the number before the second. `Overflow` exactly where their
/// difference and 1 don't fit.
pub fn lt_violations(inputs: &[i64]) -> Result<i64, RunFault>
    requires { length inputs.now ≡ 2 }
    ensures { result ≡ of_two lt_violations inputs.now }
{
    let above = i128::from(inputs[0]) - i128::from(inputs[1]) + 1;
    Ok(narrowed(above)?.max(0))
}

/// The violations of `==`, at each of the places 0 and 1.
pub(crate) fn eq_violation_at(inputs: &[i64], place: usize) -> i64
    requires two { length inputs.now ≡ 2 }
    requires within { place < 2 }
    requires valued { IsOk (of_two eq_violations inputs.now) }
    ensures { result ≡ at_each eq_violations inputs.now place }
{
    eq_violations(inputs).unwrap_or(0)
}

/// The violations of `!=`, at each of the places 0 and 1.
pub(crate) fn ne_violation_at(inputs: &[i64], place: usize) -> i64
    requires two { length inputs.now ≡ 2 }
    requires within { place < 2 }
    ensures { result ≡ at_each ne_violations inputs.now place }
{
    ne_violations(inputs).unwrap_or(0)
}

/// The violations of `<=`, at each of the places 0 and 1.
pub(crate) fn le_violation_at(inputs: &[i64], place: usize) -> i64
    requires two { length inputs.now ≡ 2 }
    requires within { place < 2 }
    requires valued { IsOk (of_two le_violations inputs.now) }
    ensures { result ≡ at_each le_violations inputs.now place }
{
    le_violations(inputs).unwrap_or(0)
}

/// The violations of `<`, at each of the places 0 and 1.
pub(crate) fn lt_violation_at(inputs: &[i64], place: usize) -> i64
    requires two { length inputs.now ≡ 2 }
    requires within { place < 2 }
    requires valued { IsOk (of_two lt_violations inputs.now) }
    ensures { result ≡ at_each lt_violations inputs.now place }
{
    lt_violations(inputs).unwrap_or(0)
}
