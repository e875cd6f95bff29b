//! A list of numbers that knows how often each stands in it.
ghost use Rattle.std.specs.Prelude.{◌≡◌, ◌<◌, ◌^◌, [], ◌∷◌, ◌++◌, length, if◌then◌else◌, IfOk, OnOk, OnErr, slice_index_or};
ghost use Rattle.std.specs.Ordering.{int_eq};
ghost use Rattle.cbl_base.specs.Counts.{count_of};
ghost use Rattle.node_base.specs.NumberChanges.{IsNumberChange, after_number_change};
ghost use Rattle.node_base.specs.Counting.{IsElsewhere};

use crate::counts::Counts;
use crate::number_change::NumberChange;
use cbl_base::NoMemory;
use std::alloc::Global;
use std::marker::Model;

/// A list of numbers that knows how often each stands in it, and seen as that list.
#[derive(Drop)]
pub struct Tally {
    numbers: Vec<i64>,
    counts: Counts,
}

impl Model for Tally {
    ghost use Rattle.std.specs.Prelude.{ℤ, List};

    ghost Value = { List ℤ };

    ghost use Rattle.node_base.specs.KeptCounts.{times_in, AreCountsOf};

    ghost view = { λ a. a.numbers.items };

    ghost invariant = { λ a. AreCountsOf (times_in a.counts) a.numbers.items };
}

/// How often the old and the new number of a change stand at the other places.
#[derive(Clone, Copy)]
pub struct Elsewhere {
    pub old: usize,
    pub new: usize,
}

impl Tally {
    /// The list with no number.
    pub fn new(alloc: Global) -> Tally
        ensures { result ≡ [] }
    {
        Tally {
            numbers: Vec::new(alloc),
            counts: Counts::new(alloc),
        }
    }

    /// The list with no number, made for numbers like these to be pushed, and some changed: where they
    /// lie near one another, finding a count takes constant time. `NoMemory` where there is none for it.
    pub fn for_numbers(alloc: Global, numbers: &[i64]) -> Result<Tally, NoMemory>
        ensures { IfOk result (λ tally. tally ≡ []) }
    {
        Ok(Tally {
            numbers: Vec::with_capacity(alloc, numbers.len())?,
            counts: Counts::for_numbers(alloc, numbers)?,
        })
    }

    /// The list of these numbers, made as by `for_numbers`. `NoMemory` where there is none for it.
    pub fn of(alloc: Global, numbers: &[i64]) -> Result<Tally, NoMemory>
        ensures { IfOk result (λ tally. tally ≡ numbers.now) }
    {
        let mut tally = Tally::for_numbers(alloc, numbers)?;
        for number in numbers {
            tally.push(*number)?;
        }
        Ok(tally)
    }

    /// How many numbers it has.
    pub fn len(&self) -> usize
        ensures length { result ≡ length self.now }
        ensures small { result < 2 ^ 63 }
    {
        self.numbers.len()
    }

    /// The number at a place from 0, which is below the length.
    pub fn at(&self, place: usize) -> i64
        requires { place < length self.now }
        ensures { result ≡ slice_index_or self.now place result }
    {
        self.numbers[place]
    }

    /// At how many places the number stands.
    pub fn times(&self, number: i64) -> usize
        ensures { result ≡ count_of number self.now }
    {
        self.counts.times(number)
    }

    /// One more number, at the end. It answers at how many places the number stood before. With
    /// `NoMemory` the list stays.
    pub fn push(&mut self, number: i64) -> Result<usize, NoMemory>
        ensures before { IfOk result (λ times. times ≡ count_of number self.old) }
        ensures ok { OnOk result (self.new ≡ self.old ++ number ∷ []) }
        ensures err { OnErr result (self.new ≡ self.old) }
    {
        let times = self.counts.times(number);
        self.counts.add(number)?;
        match self.numbers.push(number) {
            Ok(_) => Ok(times),
            Err(_) => {
                self.counts.take(number);
                Err(NoMemory)
            }
        }
    }

    /// How often the old and the new number of a change of what stands there stand at the other places.
    pub fn elsewhere(&self, change: NumberChange) -> Elsewhere
        requires { IsNumberChange self.now change }
        ensures { IsElsewhere self.now change result }
    {
        let old = self.times(change.old) - 1;
        let new = self.times(change.new) - one_if_same(change.old, change.new);
        Elsewhere { old, new }
    }

    /// Makes a change of what stands there. It answers how often the old and the new number stand at
    /// the other places. With `NoMemory` the list stays.
    pub fn set(&mut self, change: NumberChange) -> Result<Elsewhere, NoMemory>
        requires { IsNumberChange self.old change }
        ensures elsewhere { IfOk result (λ e. IsElsewhere self.old change e) }
        ensures ok { OnOk result (self.new ≡ after_number_change self.old change) }
        ensures err { OnErr result (self.new ≡ self.old) }
    {
        let old = self.counts.times(change.old) - 1;
        self.counts.add(change.new)?;
        self.counts.take(change.old);
        let new = self.counts.times(change.new) - 1;
        self.numbers[change.place] = change.new;
        Ok(Elsewhere { old, new })
    }
}

/// 1 where two numbers are the same.
fn one_if_same(number: i64, other: i64) -> usize
    ensures { result ≡ (if int_eq number other then 1 else 0) }
{
    if number == other { 1 } else { 0 }
}
