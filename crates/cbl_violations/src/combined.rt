//! What combines constraints: all of them, one of them, none, and totals with weights.
ghost use Rattle.std.specs.Prelude.{◌≡◌, ◌+◌, ◌<◌, length};
ghost use Rattle.cbl_base.specs.Arithmetic.{exact};
ghost use Rattle.cbl_violations.specs.Violations.AllOf.{all_of_violations, combined_violation_at};
ghost use Rattle.cbl_violations.specs.Violations.AnyOf.{any_of_violations};
ghost use Rattle.cbl_violations.specs.Violations.NotHeld.{not_held_violations};
ghost use Rattle.cbl_violations.specs.Violations.Repeat.{repeat_value};
ghost use Rattle.cbl_violations.specs.Violations.WeightedTotal.{weighted_member, weighted_total_value};

use crate::summing::narrowed;
use cbl_base::{RunFault, mul};

/// The sum of the members' violations. `Overflow` exactly where it doesn't fit.
pub fn all_of_violations(members: &[i64]) -> Result<i64, RunFault>
    ensures { result ≡ all_of_violations members.now }
{
    let mut sum: i128 = 0;
    for member in members {
        sum += i128::from(*member);
    }
    narrowed(sum)
}

/// The least of the members' violations, and 0 where there is no member.
pub(crate) fn any_of_violations(members: &[i64]) -> Result<i64, RunFault>
    ensures { result ≡ any_of_violations members.now }
{
    let Some((first, others)) = members.split_first() else {
        return Ok(0);
    };
    let mut least = *first;
    for member in others {
        least = least.min(*member);
    }
    Ok(least)
}

/// 1 where the one member has no violations, and else 0.
pub(crate) fn not_held_violations(members: &[i64]) -> Result<i64, RunFault>
    requires { length members.now ≡ 1 }
    ensures { result ≡ not_held_violations members.now }
{
    Ok(if members[0] == 0 { 1 } else { 0 })
}

/// The `k`-th member times its weight. `Overflow` exactly where that doesn't fit.
fn weighted_member(inputs: &[i64], members: usize, k: usize) -> Result<i64, RunFault>
    requires member { k < members }
    requires lengths { length inputs.now ≡ members + members }
    ensures { result ≡ exact (weighted_member members inputs.now k) }
{
    mul(inputs[k], inputs[members + k])
}

/// The total of so many members, each times its weight; the weights stand behind the members.
/// `Overflow` exactly where a product or the total doesn't fit.
pub fn weighted_total_value(inputs: &[i64], members: usize) -> Result<i64, RunFault>
    requires { length inputs.now ≡ members + members }
    ensures { result ≡ weighted_total_value members inputs.now }
{
    let mut sum: i128 = 0;
    for k in 0..members {
        sum += i128::from(weighted_member(inputs, members, k)?);
    }
    narrowed(sum)
}

/// The one input.
pub fn repeat_value(inputs: &[i64]) -> Result<i64, RunFault>
    requires { length inputs.now ≡ 1 }
    ensures { result ≡ repeat_value inputs.now }
{
    Ok(inputs[0])
}

/// 0: what combines constraints says nothing of its places.
pub(crate) fn combined_violation_at(members: &[i64], place: usize) -> i64
    requires { place < length members.now }
    ensures { result ≡ combined_violation_at members.now place }
{
    0
}
