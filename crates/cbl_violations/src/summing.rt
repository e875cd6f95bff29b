//! Sums that are one operation: only the whole must fit.
ghost use Rattle.std.specs.Prelude.{◌≡◌};
ghost use Rattle.cbl_base.specs.Arithmetic.{exact};

use cbl_base::RunFault;

/// The sum as a 64-bit number. `Overflow` exactly where it doesn't fit.
pub(crate) fn narrowed(sum: i128) -> Result<i64, RunFault>
    ensures { result ≡ exact sum }
{
    i64::try_from(sum).map_err(|_| RunFault::Overflow)
}
