//! Numbers that look random, and inputs made of them.
ghost use Rattle.std.specs.Prelude.{◌<◌};

use cbl_base::{Input, IntSet, NoMemory};
use std::alloc::Global;

/// Numbers that look random, the same each time.
#[derive(Drop)]
pub(crate) struct Draws {
    state: u64,
}

impl Draws {
    /// The draws from the first on.
    pub(crate) fn new() -> Draws {
        Draws { state: 1 }
    }

    /// A number below the bound, which isn't 0.
    pub(crate) fn below(&mut self, bound: u32) -> u32
        requires { 0 < bound }
        ensures { result < bound }
    {
        self.state = self
            .state
            .wrapping_mul(6364136223846793005)
            .wrapping_add(1442695040888963407);
        (self.state >> 33) as u32 % bound
    }

    /// A number below the bound, and another than that one where there is another.
    pub(crate) fn other_below(&mut self, bound: u32, than: i64) -> i64
        requires { 0 < bound }
    {
        let number = self.below(bound);
        if i64::from(number) == than {
            i64::from((number + 1) % bound)
        } else {
            i64::from(number)
        }
    }

    /// So many numbers below the bound.
    pub(crate) fn numbers(
        &mut self,
        alloc: Global,
        count: u32,
        bound: u32,
    ) -> Result<Vec<Input>, NoMemory>
        requires { 0 < bound }
    {
        let mut inputs = Vec::new(alloc);
        for _number in 0..count {
            inputs.push(Input::Int(i64::from(self.below(bound))))?;
        }
        Ok(inputs)
    }

    /// A set of numbers below the bound, half as many or fewer.
    pub(crate) fn set(&mut self, alloc: Global, bound: u32) -> Result<Input, NoMemory>
        requires { 0 < bound }
    {
        let mut members = Vec::new(alloc);
        for _member in 0..bound / 2 {
            members.push(i64::from(self.below(bound)))?;
        }
        Ok(Input::Set(IntSet::from_slice(alloc, members.as_slice())?))
    }
}
