//! The operations on two numbers.
ghost use Rattle.std.specs.Prelude.{◌≡◌};
ghost use Rattle.cbl_operations.specs.Binary.{binary_number, binary_value};

use cbl_base::RunFault;

/// An operation on two numbers.
#[derive(Clone, Copy, PartialEq, Eq, Debug)]
pub enum BinaryOp {
    Add,
    Sub,
    Mul,
    Div,
    Rem,
    Eq,
    Ne,
    Le,
    Lt,
}

impl BinaryOp {
    /// The operation's value of two numbers: the sum, the difference, the product, the quotient toward zero
    /// and what it leaves, with the sign of the first; of a relation 1 where it holds, and 0 else.
    /// `DivideByZero` exactly for `Div` or `Rem` by 0, and else `Overflow` exactly where the result doesn't
    /// fit 64 bits.
    pub fn value(self, left: i64, right: i64) -> Result<i64, RunFault>
        ensures { result ≡ binary_value self left right }
    {
        match self {
            BinaryOp::Add => cbl_base::add(left, right),
            BinaryOp::Sub => cbl_base::sub(left, right),
            BinaryOp::Mul => cbl_base::mul(left, right),
            BinaryOp::Div => cbl_base::div(left, right),
            BinaryOp::Rem => cbl_base::rem(left, right),
            BinaryOp::Eq => Ok(i64::from(left == right)),
            BinaryOp::Ne => Ok(i64::from(left != right)),
            BinaryOp::Le => Ok(i64::from(left <= right)),
            BinaryOp::Lt => Ok(i64::from(left < right)),
        }
    }

    /// The operation as a number, by which it is told from the others.
    pub fn number(self) -> u8
        ensures { result ≡ binary_number self }
    {
        self as u8
    }
}
