//! A sum of parts, each a number or a fault, that is kept as parts give way to others.
ghost use Rattle.std.specs.Prelude.{◌≡◌, [], pos};
ghost use Rattle.cbl_base.specs.Arithmetic.{exact};
ghost use Rattle.node_base.specs.NumberChanges.{IsNumberAnswer};
ghost use Rattle.diff_load_seq.specs.Parts.{number_in, fault_in, HasRoom, IsReplaced, IsSumOf, joined_of};

use cbl_base::{NodeFault, RunFault};

/// The sum of those parts that are numbers, and how many parts are faults.
#[derive(Clone, Copy)]
pub(crate) struct RunningSum {
    sum: i128,
    faults: usize,
}

impl RunningSum {
    /// The sum of no parts.
    pub(crate) fn empty() -> RunningSum
        ensures { IsSumOf result [] }
    {
        RunningSum { sum: 0, faults: 0 }
    }

    /// The sum once one part has given way to another.
    pub(crate) fn replaced(
        self,
        old: Result<i64, RunFault>,
        new: Result<i64, RunFault>,
    ) -> RunningSum
        requires { HasRoom self old }
        ensures { IsReplaced self old new result }
    {
        RunningSum {
            sum: self.sum - number_in(old) + number_in(new),
            faults: self.faults - fault_in(old) + fault_in(new),
        }
    }

    /// The sum as a number. `Overflow` exactly where a part is a fault or the sum doesn't fit.
    pub(crate) fn number(self) -> Result<i64, RunFault>
        ensures { result ≡ joined_of self }
    {
        if self.faults > 0 {
            return Err(RunFault::Overflow);
        }
        narrowed(self.sum)
    }

    /// The sum of those parts that are numbers. `Overflow` exactly where it doesn't fit.
    pub(crate) fn of_numbers(self) -> Result<i64, RunFault>
        ensures { result ≡ exact self.sum }
    {
        narrowed(self.sum)
    }
}

/// The number of a part, 0 for a fault.
fn number_in(part: Result<i64, RunFault>) -> i128
    ensures { result ≡ number_in part }
{
    i128::from(part.unwrap_or(0))
}

/// 1 for a part that is a fault.
fn fault_in(part: Result<i64, RunFault>) -> usize
    ensures { result ≡ fault_in part }
{
    usize::from(part.is_err())
}

/// The sum as a 64-bit number. `Overflow` exactly where it doesn't fit.
pub(crate) fn narrowed(sum: i128) -> Result<i64, RunFault>
    ensures { result ≡ exact sum }
{
    i64::try_from(sum).map_err(|_| RunFault::Overflow)
}

/// The answer of a probe that finds this value.
pub(crate) fn answer(value: Result<i64, RunFault>) -> Result<i64, NodeFault>
    ensures { IsNumberAnswer value result }
{
    value.map_err(NodeFault::Run)
}
