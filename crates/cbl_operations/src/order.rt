//! The least and the greatest of numbers.
ghost use Rattle.std.specs.Prelude.{◌≡◌, IsTrue, length, fold};
ghost use Rattle.std.specs.Int.{int_min, int_max};
ghost use Rattle.cbl_operations.specs.Forms.{number_at};
ghost use Rattle.cbl_operations.specs.Operations.Least.{least, least_of};
ghost use Rattle.cbl_operations.specs.Operations.Greatest.{greatest, greatest_of};

use cbl_base::RunFault;

/// The value of `Least`, of a list with one number at least: the least of them.
pub(crate) fn least_value(inputs: &[i64]) -> Result<i64, RunFault>
    requires { IsTrue (least.takes (length inputs.now)) }
    ensures { result ≡ least.value inputs.now }
{
    Ok(least_of(inputs))
}

/// The value of `Greatest`, of a list with one number at least: the greatest of them.
pub(crate) fn greatest_value(inputs: &[i64]) -> Result<i64, RunFault>
    requires { IsTrue (greatest.takes (length inputs.now)) }
    ensures { result ≡ greatest.value inputs.now }
{
    Ok(greatest_of(inputs))
}

/// The least of the numbers, 0 for none.
pub(crate) fn least_of(numbers: &[i64]) -> i64
    ensures { result ≡ least_of numbers.now }
{
    lowered(first_of(numbers), numbers)
}

/// The greatest of the numbers, 0 for none.
pub(crate) fn greatest_of(numbers: &[i64]) -> i64
    ensures { result ≡ greatest_of numbers.now }
{
    raised(first_of(numbers), numbers)
}

/// The first of the numbers, 0 for none.
fn first_of(numbers: &[i64]) -> i64
    ensures { result ≡ number_at numbers.now 0 }
{
    numbers.first().copied().unwrap_or(0)
}

/// The least of a number and others.
fn lowered(number: i64, others: &[i64]) -> i64
    ensures { result ≡ fold int_min number others.now }
{
    let mut least = number;
    for x in others {
        least = least.min(*x);
    }
    least
}

/// The greatest of a number and others.
fn raised(number: i64, others: &[i64]) -> i64
    ensures { result ≡ fold int_max number others.now }
{
    let mut greatest = number;
    for x in others {
        greatest = greatest.max(*x);
    }
    greatest
}
