//! How often a number stands in an array.
ghost use Rattle.std.specs.Prelude.{◌≡◌, IsTrue, length};
ghost use Rattle.cbl_base.specs.Counts.{count_of};
ghost use Rattle.cbl_operations.specs.Operations.Count.{count};

use cbl_base::RunFault;

/// The value of `Count`, of a list with one number at least: how many of those before the last equal the
/// last.
pub(crate) fn count_value(inputs: &[i64]) -> Result<i64, RunFault>
    requires { IsTrue (count.takes (length inputs.now)) }
    ensures { result ≡ count.value inputs.now }
{
    let cells = inputs.len() - 1;
    Ok(count_of(inputs[cells], &inputs[..cells]) as i64)
}

/// At how many places the number stands.
fn count_of(number: i64, cells: &[i64]) -> usize
    ensures { result ≡ count_of number cells.now }
{
    cells.iter().filter(|x| **x == number).count()
}
