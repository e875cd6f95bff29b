//! The values of what joins truth values: 1 is true, 0 is false.
ghost use Rattle.std.specs.Prelude.{◌≡◌};
ghost use Rattle.std.specs.List.{list_all, list_any};
ghost use Rattle.cbl_operations.specs.Truth.{truth, is_true};
ghost use Rattle.cbl_operations.specs.Operations.And.{and};
ghost use Rattle.cbl_operations.specs.Operations.Or.{or};

use cbl_base::RunFault;

/// The value of `And`, of any list: 1 where no number is 0, so also for none, and 0 else.
pub(crate) fn and_value(inputs: &[i64]) -> Result<i64, RunFault>
    ensures { result ≡ and.value inputs.now }
{
    Ok(i64::from(are_all_true(inputs)))
}

/// The value of `Or`, of any list: 1 where some number isn't 0, and 0 else, so also for none.
pub(crate) fn or_value(inputs: &[i64]) -> Result<i64, RunFault>
    ensures { result ≡ or.value inputs.now }
{
    Ok(i64::from(is_any_true(inputs)))
}

/// Whether a number counts as true.
pub(crate) fn is_true(number: i64) -> bool
    ensures { result ≡ is_true number }
{
    number != 0
}

/// Whether all of them are true.
fn are_all_true(inputs: &[i64]) -> bool
    ensures { result ≡ list_all is_true inputs.now }
{
    inputs.iter().all(|x| is_true(*x))
}

/// Whether some of them is true.
fn is_any_true(inputs: &[i64]) -> bool
    ensures { result ≡ list_any is_true inputs.now }
{
    inputs.iter().any(|x| is_true(*x))
}
