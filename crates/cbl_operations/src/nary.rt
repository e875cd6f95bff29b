//! The operations on a list of numbers.
ghost use Rattle.std.specs.Prelude.{◌≡◌, IsTrue, length};
ghost use Rattle.cbl_operations.specs.Nary.{nary_number, rule_of_nary};

use crate::counting::count_value;
use crate::order::{greatest_value, least_value};
use crate::sums::sum_value;
use crate::truth::{and_value, or_value};
use cbl_base::RunFault;

/// An operation on a list of numbers.
#[derive(Clone, Copy, PartialEq, Eq, Debug)]
pub enum NaryOp {
    Least,
    Greatest,
    Sum,
    /// The cells, and then the number that is counted.
    Count,
    And,
    Or,
}

impl NaryOp {
    /// Whether it takes so many numbers: `Least`, `Greatest` and `Count` take one at least, the others any.
    pub fn takes(self, numbers: usize) -> bool
        ensures { result ≡ (rule_of_nary self).takes numbers }
    {
        match self {
            NaryOp::Least | NaryOp::Greatest | NaryOp::Count => numbers > 0,
            NaryOp::Sum | NaryOp::And | NaryOp::Or => true,
        }
    }

    /// The operation's value of numbers that it takes. `Overflow` exactly where a sum doesn't fit.
    pub fn value(self, numbers: &[i64]) -> Result<i64, RunFault>
        requires { IsTrue ((rule_of_nary self).takes (length numbers.now)) }
        ensures { result ≡ (rule_of_nary self).value numbers.now }
    {
        match self {
            NaryOp::Least => least_value(numbers),
            NaryOp::Greatest => greatest_value(numbers),
            NaryOp::Sum => sum_value(numbers),
            NaryOp::Count => count_value(numbers),
            NaryOp::And => and_value(numbers),
            NaryOp::Or => or_value(numbers),
        }
    }

    /// The operation as a number, by which it is told from the others.
    pub fn number(self) -> u8
        ensures { result ≡ nary_number self }
    {
        self as u8
    }
}
