//! All values are to differ.
ghost use Rattle.std.specs.Prelude.{◌≡◌, ◌<◌, length};
ghost use Rattle.cbl_violations.specs.Violations.AllDifferent.{all_different_violations, all_different_violation_at};

use crate::counting::places_with;
use crate::summing::narrowed;
use cbl_base::RunFault;

/// Of each value that stands there, at how many places more than one: the sum. `Overflow` exactly where
/// it doesn't fit.
pub(crate) fn all_different_violations(inputs: &[i64]) -> Result<i64, RunFault>
    ensures { result ≡ all_different_violations inputs.now }
{
    let mut sum: i128 = 0;
    for (place, value) in inputs.iter().enumerate() {
        let later = &inputs[place + 1..];
        if !later.contains(value) {
            sum += places_with(inputs, i128::from(*value)).saturating_sub(1) as i128;
        }
    }
    narrowed(sum)
}

/// 1 where the value at the place, counted from 0, stands at another place too, and else 0.
#[tactic(auto, unfolding(crate::specs::Violations::AllDifferent::all_different_violation_at))]
pub(crate) fn all_different_violation_at(inputs: &[i64], place: usize) -> i64
    requires { place < length inputs.now }
    ensures { result ≡ all_different_violation_at inputs.now place }
{
    let is_repeated = places_with(inputs, i128::from(inputs[place])) >= 2;
    if is_repeated { 1 } else { 0 }
}
