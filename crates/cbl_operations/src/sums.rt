//! The values of sums.
ghost use Rattle.std.specs.Prelude.{◌≡◌};
ghost use Rattle.cbl_base.specs.Totals.{total};
ghost use Rattle.cbl_operations.specs.Operations.Sum.{sum};

use cbl_base::RunFault;

/// The value of `Sum`, of any list: the total, 0 for none. `Overflow` exactly where it doesn't fit 64
/// bits, whatever the totals on the way.
pub(crate) fn sum_value(inputs: &[i64]) -> Result<i64, RunFault>
    ensures { result ≡ sum.value inputs.now }
{
    i64::try_from(total_of(inputs).value).map_err(|_| RunFault::Overflow)
}

/// A total of numbers of 64 bits, which fits 128.
#[derive(Clone, Copy)]
struct Total {
    value: i128,
}

/// The total of the numbers.
fn total_of(numbers: &[i64]) -> Total
    ensures { result.value ≡ total numbers.now }
{
    let mut sum = Total { value: 0 };
    for x in numbers {
        sum.value += i128::from(*x);
    }
    sum
}
