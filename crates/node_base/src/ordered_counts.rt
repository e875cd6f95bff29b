//! How often each number stands somewhere, in the order of numbers.
ghost use Rattle.std.specs.Prelude.{◌≡◌, ℤ, ◌+◌, ◌-◌, ◌<◌, ◌^◌, IfOk, OnOk, OnErr, if◌then◌else◌};
ghost use Rattle.std.specs.Ordering.{int_eq};
ghost use Rattle.node_base.specs.KeptCounts.{times_kept, AreCountsOf};

use cbl_base::NoMemory;
use std::alloc::Global;
use std::collections::BTreeMap;

/// A count for each number, 0 for a number that it lacks, kept in the order of numbers.
#[derive(Drop)]
pub struct OrderedCounts {
    by_number: BTreeMap<i64, usize>,
}

impl OrderedCounts {
    /// 0 for each number.
    pub fn new(alloc: Global) -> OrderedCounts
        ensures { (v : ℤ) → times_kept result v ≡ 0 }
    {
        OrderedCounts {
            by_number: BTreeMap::new(alloc),
        }
    }

    /// How often each number stands in the list. `NoMemory` where there is none for them.
    pub fn of(alloc: Global, numbers: &[i64]) -> Result<OrderedCounts, NoMemory>
        ensures { IfOk result (λ counts. AreCountsOf (times_kept counts) numbers.now) }
    {
        let mut counts = OrderedCounts::new(alloc);
        for number in numbers {
            counts.add(*number)?;
        }
        Ok(counts)
    }

    /// A copy of them. `NoMemory` where there is none for it.
    pub fn copied(&self) -> Result<OrderedCounts, NoMemory>
        ensures { IfOk result (λ copy. (v : ℤ) → times_kept copy v ≡ times_kept self.now v) }
    {
        Ok(OrderedCounts {
            by_number: self.by_number.clone()?,
        })
    }

    /// The numbers whose count isn't 0, each with its count.
    pub fn as_map(&self) -> &BTreeMap<i64, usize>
        ensures { result.now ≡ self.now.by_number }
    {
        &self.by_number
    }

    /// The count of the number.
    pub fn times(&self, number: i64) -> usize
        ensures { result ≡ times_kept self.now number }
    {
        self.by_number.get(&number).copied().unwrap_or(0)
    }

    /// One more of the number. With `NoMemory` the counts stay.
    pub fn add(&mut self, number: i64) -> Result<(), NoMemory>
        requires { times_kept self.old number + 1 < 2 ^ 64 }
        ensures err { OnErr result ((v : ℤ) → times_kept self.new v ≡ times_kept self.old v) }
        ensures ok { OnOk result ((v : ℤ) → times_kept self.new v ≡ (if int_eq number v then times_kept self.old v + 1 else times_kept self.old v)) }
    {
        let times = self.times(number);
        self.by_number.insert(number, times + 1)?;
        Ok(())
    }

    /// One less of the number.
    pub fn take(&mut self, number: i64)
        requires { 0 < times_kept self.old number }
        ensures { (v : ℤ) → times_kept self.new v ≡
            (if int_eq number v then times_kept self.old v - 1 else times_kept self.old v) }
    {
        let times = self.times(number);
        if times == 1 {
            let _ = self.by_number.remove(&number);
        } else if let Some(count) = self.by_number.get_mut(&number) {
            *count = times - 1;
        }
    }
}
