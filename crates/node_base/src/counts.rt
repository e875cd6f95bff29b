//! How often each number stands in a list: for numbers of a window as a list, for others as a map.
ghost use Rattle.std.specs.Prelude.{◌≡◌, ℤ, ◌+◌, ◌-◌, ◌*◌, ◌<◌, ◌≤◌, ◌^◌, length, IfOk, IfSome, OnOk, OnErr, if◌then◌else◌};
ghost use Rattle.std.specs.Ordering.{int_eq};
ghost use Rattle.node_base.specs.KeptCounts.{times_in, place_in_window};

use crate::ordered_counts::OrderedCounts;
use cbl_base::NoMemory;
use std::alloc::Global;

/// A count for each number, 0 for a number that it lacks. The counts of the numbers from `low` on stand
/// in a list, those of the others in a map.
#[derive(Drop)]
pub struct Counts {
    low: i64,
    window: Vec<usize>,
    outside: OrderedCounts,
}

/// So many numbers from `low` on.
#[derive(Clone, Copy)]
struct Window {
    low: i64,
    len: usize,
}

impl Counts {
    /// 0 for each number.
    pub fn new(alloc: Global) -> Counts
        ensures { (v : ℤ) → times_in result v ≡ 0 }
    {
        Counts {
            low: 0,
            window: Vec::new(alloc),
            outside: OrderedCounts::new(alloc),
        }
    }

    /// 0 for each number, made to count numbers like these: where they lie near one another, theirs are
    /// counted in a list. `NoMemory` where there is none for it.
    pub fn for_numbers(alloc: Global, numbers: &[i64]) -> Result<Counts, NoMemory>
        ensures { IfOk result (λ counts. (v : ℤ) → times_in counts v ≡ 0) }
    {
        match Window::around(numbers) {
            Some(window) => Counts::with_window(alloc, window),
            None => Ok(Counts::new(alloc)),
        }
    }

    /// 0 for each number, with a list for those of the window.
    fn with_window(alloc: Global, window: Window) -> Result<Counts, NoMemory>
        ensures { IfOk result (λ counts. (v : ℤ) → times_in counts v ≡ 0) }
    {
        Ok(Counts {
            low: window.low,
            window: vec![in alloc; 0; window.len]?,
            outside: OrderedCounts::new(alloc),
        })
    }

    /// The count of the number.
    pub fn times(&self, number: i64) -> usize
        ensures { result ≡ times_in self.now number }
    {
        match self.place_of(number) {
            Some(place) => self.window[place],
            None => self.outside.times(number),
        }
    }

    /// One more of the number. With `NoMemory` the counts stay.
    pub fn add(&mut self, number: i64) -> Result<(), NoMemory>
        requires { times_in self.old number + 1 < 2 ^ 64 }
        ensures err { OnErr result ((v : ℤ) → times_in self.new v ≡ times_in self.old v) }
        ensures ok { OnOk result ((v : ℤ) → times_in self.new v ≡ (if int_eq number v then times_in self.old v + 1 else times_in self.old v)) }
    {
        match self.place_of(number) {
            Some(place) => {
                self.window[place] += 1;
                Ok(())
            }
            None => self.outside.add(number),
        }
    }

    /// One less of the number.
    pub fn take(&mut self, number: i64)
        requires { 0 < times_in self.old number }
        ensures { (v : ℤ) → times_in self.new v ≡
            (if int_eq number v then times_in self.old v - 1 else times_in self.old v) }
    {
        match self.place_of(number) {
            Some(place) => self.window[place] -= 1,
            None => self.outside.take(number),
        }
    }

    /// The place of the number in the window. `None` exactly where it isn't there.
    fn place_of(&self, number: i64) -> Option<usize>
        ensures place { result ≡ place_in_window self.now.low
            (length self.now.window.items) number }
        ensures within { IfSome result (λ place. place < length self.now.window.items) }
    {
        let place = usize::try_from(number.checked_sub(self.low)?).ok()?;
        if place < self.window.len() {
            Some(place)
        } else {
            None
        }
    }
}

impl Window {
    /// The window from the least of the numbers to the greatest, with as many more at each end as there
    /// are numbers, since changes bring others. `None` where it would be too long.
    fn around(numbers: &[i64]) -> Option<Window>
        ensures { IfSome result (λ window. window.len ≤ 6 * length numbers.now + 64) }
    {
        let mut least = i64::MAX;
        let mut greatest = i64::MIN;
        for number in numbers {
            least = least.min(*number);
            greatest = greatest.max(*number);
        }
        let more = numbers.len() as i64;
        let low = least.saturating_sub(more);
        let high = greatest.saturating_add(more);
        let span = usize::try_from(high.checked_sub(low)?).ok()?;
        if span < numbers.len() * 6 + 64 {
            Some(Window { low, len: span + 1 })
        } else {
            None
        }
    }
}
