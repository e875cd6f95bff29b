//! Exact arithmetic on 64-bit signed numbers.
ghost use Rattle.std.specs.Prelude.{◌≡◌, ◌+ℤ◌, ◌-ℤ◌, ◌*ℤ◌};
ghost use Rattle.cbl_base.specs.Arithmetic.{exact, quotient, remainder};

use crate::faults::RunFault;

/// The sum. `Overflow` exactly where it doesn't fit 64 bits.
pub fn add(a: i64, b: i64) -> Result<i64, RunFault>
    ensures { result ≡ exact (a +ℤ b) }
{
    a.checked_add(b).ok_or(RunFault::Overflow)
}

/// The difference. `Overflow` exactly where it doesn't fit 64 bits.
pub fn sub(a: i64, b: i64) -> Result<i64, RunFault>
    ensures { result ≡ exact (a -ℤ b) }
{
    a.checked_sub(b).ok_or(RunFault::Overflow)
}

/// The product. `Overflow` exactly where it doesn't fit 64 bits.
pub fn mul(a: i64, b: i64) -> Result<i64, RunFault>
    ensures { result ≡ exact (a *ℤ b) }
{
    a.checked_mul(b).ok_or(RunFault::Overflow)
}

/// The quotient, rounded toward zero. `DivideByZero` exactly for a divisor of 0, `Overflow` exactly
/// where it doesn't fit 64 bits: for the least number over -1.
pub fn div(a: i64, b: i64) -> Result<i64, RunFault>
    ensures { result ≡ quotient a b }
{
    if b == 0 {
        return Err(RunFault::DivideByZero);
    }
    a.checked_div(b).ok_or(RunFault::Overflow)
}

/// What that quotient leaves of the dividend, with the dividend's sign. `DivideByZero` exactly for a
/// divisor of 0; it always fits, as 0 for the least number over -1.
pub fn rem(a: i64, b: i64) -> Result<i64, RunFault>
    ensures { result ≡ remainder a b }
{
    if b == 0 {
        return Err(RunFault::DivideByZero);
    }
    if b == -1 {
        return Ok(0);
    }
    Ok(a % b)
}
