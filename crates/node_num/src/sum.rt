//! The sum of any number of numbers.
ghost use Rattle.std.specs.Prelude.{◌≡◌, ◌+ℤ◌, ◌-ℤ◌, FitsSigned};
ghost use Rattle.std.specs.Int.{w64};
ghost use Rattle.cbl_base.specs.Arithmetic.{exact};
ghost use Rattle.cbl_base.specs.Totals.{total};
ghost use Rattle.cbl_operations.specs.Operations.Sum.{sum};
ghost use Rattle.node_num.specs.Few.{AreFew, IsSmall};

use cbl_base::{NoMemory, NodeFault, RunFault};
use node_base::{NumberChange, NumberNode, probe_answer};
use std::alloc::Global;

/// A node that computes the sum of its numbers. It keeps their total, which may pass 64 bits.
#[derive(Drop)]
pub struct Sum {
    numbers: Vec<i64>,
    total: Total,
}

/// A total of numbers of 64 bits, which fits 128.
#[derive(Clone, Copy)]
struct Total {
    value: i128,
}

impl Sum {
    /// A node with the rule of `Sum`.
    pub fn new(alloc: Global) -> Sum
        ensures rule { ⟦<Sum as NumberNode>⟧.number_rule result ≡ sum }
    {
        Sum {
            numbers: Vec::new(alloc),
            total: Total { value: 0 },
        }
    }
}

impl NumberNode for Sum {
    ghost use Rattle.std.specs.Prelude.{◌≡◌};
    ghost use Rattle.cbl_base.specs.Totals.{total};
    ghost use Rattle.cbl_operations.specs.Operations.Sum.{sum};
    ghost use Rattle.node_num.specs.Few.{AreFew};

    ghost number_rule = { λ _. sum };

    ghost settled = { λ s. (s.total.value ≡ total s.numbers.items) × AreFew s.numbers.items };

    ghost held_numbers = { λ s. s.numbers.items };

    fn reset(&mut self, numbers: &[i64]) -> Result<(), NoMemory> {
        self.numbers.clear();
        self.numbers.extend_from_slice(numbers)?;
        self.total = total_of(numbers);
        Ok(())
    }

    fn set(&mut self, change: NumberChange) -> Result<(), NoMemory> {
        self.total = self.total.after(change);
        self.numbers[change.place] = change.new;
        Ok(())
    }

    fn probe(&self, changes: &[NumberChange]) -> Result<i64, NodeFault> {
        let mut total = self.total;
        for change in changes {
            total = total.after(*change);
        }
        probe_answer(total.narrowed())
    }

    fn value(&self) -> Result<i64, RunFault> {
        self.total.narrowed()
    }

    fn place_violation(&self, _place: usize) -> i64 {
        0
    }
}

impl Total {
    /// The total as a 64-bit number. `Overflow` exactly where it doesn't fit.
    fn narrowed(self) -> Result<i64, RunFault>
        ensures { result ≡ exact self.value }
    {
        i64::try_from(self.value).map_err(|_| RunFault::Overflow)
    }

    /// The total with one more number.
    fn plus(self, number: i64) -> Total
        requires { IsSmall self.value }
        ensures { result.value ≡ self.value +ℤ number }
    {
        Total {
            value: self.value + i128::from(number),
        }
    }

    /// The total once the new number stands for the old one.
    fn after(self, change: NumberChange) -> Total
        requires { IsSmall self.value }
        ensures value { result.value ≡ (self.value -ℤ change.old) +ℤ change.new }
        ensures fits { FitsSigned w64 change.new }
    {
        Total {
            value: self.value - i128::from(change.old) + i128::from(change.new),
        }
    }
}

/// The total of the numbers.
fn total_of(numbers: &[i64]) -> Total
    ensures total { result.value ≡ total numbers.now }
    ensures few { AreFew numbers.now }
{
    let mut sum = Total { value: 0 };
    for x in numbers {
        sum = sum.plus(*x);
    }
    sum
}
