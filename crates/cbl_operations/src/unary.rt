//! The operations on one number.
ghost use Rattle.std.specs.Prelude.{◌≡◌};
ghost use Rattle.cbl_operations.specs.Unary.{unary_number, unary_value};

use crate::truth::is_true;
use cbl_base::RunFault;

/// An operation on one number.
#[derive(Clone, Copy, PartialEq, Eq, Debug)]
pub enum UnaryOp {
    Neg,
    Abs,
    Not,
}

impl UnaryOp {
    /// The operation's value of a number: for `Neg` the number of the other sign, for `Abs` the number
    /// without its sign, and for `Not` 1 where it is 0, and 0 else. `Overflow` exactly for `Neg` or `Abs` of
    /// the least number of 64 bits.
    pub fn value(self, number: i64) -> Result<i64, RunFault>
        ensures { result ≡ unary_value self number }
    {
        match self {
            UnaryOp::Neg => number.checked_neg().ok_or(RunFault::Overflow),
            UnaryOp::Abs => number.checked_abs().ok_or(RunFault::Overflow),
            UnaryOp::Not => Ok(i64::from(!is_true(number))),
        }
    }

    /// The operation as a number, by which it is told from the others.
    pub fn number(self) -> u8
        ensures { result ≡ unary_number self }
    {
        self as u8
    }
}
