//! How often values may stand in a list: at most, at least, or exactly as often as their bounds say.
ghost use Rattle.std.specs.Prelude.{◌≡◌, ◌+◌, ◌-◌, ◌<◌, ◌^◌, ℤ, pos, neg_ℤ, ◌≤ℤ◌, ◌+ℤ◌, ◌-ℤ◌, List, [], not, nat_eq, Err, if◌then◌else◌, int_lt};
ghost use Rattle.std.specs.Option.{option_map};
ghost use Rattle.std.specs.Ordering.{int_eq};
ghost use Rattle.cbl_base.specs.Arithmetic.{exact};
ghost use Rattle.cbl_base.specs.declared.faults.RunFault.TheVariants.{Overflow as TooWide};
ghost use Rattle.cbl_violations.specs.Bounds.{bound_of};
ghost use Rattle.node_base.specs.NumberChanges.{IsNumberChange, after_number_change};
ghost use Rattle.node_base.specs.Counting.{IsElsewhere};
ghost use Rattle.diff_global.specs.NumberRules.{cardinality_rule};
ghost use Rattle.diff_global.specs.Differences.{differs_by, part, misfit, counts_at};
ghost use Rattle.diff_global.specs.CardinalityTotals.{IsShifted, AreTotals, AreRoomy, AreBounds, HaveList};

use cbl_base::{NoMemory, NodeFault, Numbers, RunFault};
use node_base::{Elsewhere, NumberChange, NumberNode, Overlay, Tally, probe_answer};
use std::alloc::Global;

/// What is asked of a bounded value: to stand at most, at least, or exactly as often as its bound says.
#[derive(Clone, Copy, PartialEq, Eq, Debug)]
pub enum Demand {
    AtMost,
    AtLeast,
    Exactly,
}

/// A node of `atmost`, `atleast` or `exactly`. It keeps the totals of what its bounded values differ by.
#[derive(Drop)]
pub struct Cardinality {
    demand: Demand,
    low: i64,
    bounds: Numbers,
    tally: Tally,
    totals: Totals,
    alloc: Global,
}

/// Over the bounded values the sum of their violations, which may pass 64 bits, and how many of them
/// differ from their bound by a number that doesn't fit 64 bits.
#[derive(Clone, Copy)]
struct Totals {
    sum: i128,
    misfits: usize,
}

impl Cardinality {
    /// A node with the rule of `atmost`, `atleast` or `exactly`. The first of the bounds is that of the
    /// value `low`, and each next one that of the value one above.
    pub fn new(alloc: Global, demand: Demand, low: i64, bounds: Numbers) -> Cardinality
        ensures rule { ⟦<Cardinality as NumberNode>⟧.number_rule result ≡
            cardinality_rule demand low bounds }
    {
        Cardinality {
            demand,
            low,
            bounds,
            tally: Tally::new(alloc),
            totals: Totals { sum: 0, misfits: 0 },
            alloc,
        }
    }

    /// The bound of the value. `None` exactly where it has none.
    fn bound_of(&self, value: i64) -> Option<i64>
        ensures { result ≡ bound_of self.now.low self.now.bounds value }
    {
        let index = i128::from(value) - i128::from(self.low);
        if index < 0 {
            return None;
        }
        self.bounds.get(index as usize)
    }

    /// Whether the value, which stands so often, stands more often than its bound. `None` exactly where
    /// it has none.
    fn is_over(&self, value: i64, times: usize) -> Option<bool>
        requires { times < 2 ^ 62 }
        ensures { result ≡ option_map (λ c.
            int_lt c (pos times)) (bound_of self.now.low self.now.bounds value) }
    {
        match self.bound_of(value) {
            Some(bound) => Some(i128::from(bound) < times as i128),
            None => None,
        }
    }

    /// The totals of a list that has the value so often in place of so often before, and else the same.
    fn shifted(&self, totals: Totals, value: i64, before: usize, after: usize) -> Totals
        requires before { before < 2 ^ 62 }
        requires after { after < 2 ^ 62 }
        requires room { AreRoomy totals }
        ensures { (xs ys : List ℤ) → IsShifted xs ys value before after →
            AreTotals self.now.demand self.now.low self.now.bounds xs totals →
            AreTotals self.now.demand self.now.low self.now.bounds ys result }
    {
        match self.bound_of(value) {
            Some(bound) => totals
                .without(self.demand, before, bound)
                .with(self.demand, after, bound),
            None => totals,
        }
    }

    /// The totals of a list after a change, where its numbers stand so often at the other places.
    fn changed(&self, totals: Totals, change: NumberChange, elsewhere: Elsewhere) -> Totals
        requires bounds { AreBounds self.now.bounds }
        requires list { HaveList self.now.demand self.now.low self.now.bounds change elsewhere totals }
        ensures { (xs : List ℤ) → IsNumberChange xs change → IsElsewhere xs change elsewhere →
            AreTotals self.now.demand self.now.low self.now.bounds xs totals →
            AreTotals self.now.demand self.now.low self.now.bounds
            (after_number_change xs change) result }
    {
        let without = self.shifted(totals, change.old, elsewhere.old + 1, elsewhere.old);
        self.shifted(without, change.new, elsewhere.new, elsewhere.new + 1)
    }
}

impl Totals {
    /// The totals with one more value, which stands so often and has this bound.
    fn with(self, demand: Demand, times: usize, bound: i64) -> Totals
        requires few { times < 2 ^ 62 }
        requires low { neg_ℤ (pos (2 ^ 65)) ≤ℤ self.sum }
        requires high { self.sum ≤ℤ pos (2 ^ 126) }
        requires misfits { self.misfits < 2 ^ 63 }
        ensures sum { result.sum ≡ self.sum +ℤ part demand (differs_by demand times bound) }
        ensures misfits { result.misfits ≡ self.misfits + misfit (differs_by demand times bound) }
    {
        let difference = Difference::of(demand, times, bound);
        Totals {
            sum: self.sum + difference.part(demand).value,
            misfits: self.misfits + difference.misfit(),
        }
    }

    /// The totals without one of their values, which stands so often and has this bound.
    fn without(self, demand: Demand, times: usize, bound: i64) -> Totals
        requires few { times < 2 ^ 62 }
        requires low { pos 0 ≤ℤ self.sum }
        requires high { self.sum ≤ℤ pos (2 ^ 126) }
        ensures sum { result.sum ≡ self.sum -ℤ part demand (differs_by demand times bound) }
        ensures misfits { result.misfits ≡ self.misfits - misfit (differs_by demand times bound) }
        ensures low { neg_ℤ (pos (2 ^ 65)) ≤ℤ result.sum }
        ensures high { result.sum ≤ℤ pos (2 ^ 126) }
    {
        let difference = Difference::of(demand, times, bound);
        Totals {
            sum: self.sum - difference.part(demand).value,
            misfits: self.misfits.saturating_sub(difference.misfit()),
        }
    }

    /// Whether there are violations.
    fn are_violated(self) -> bool
        ensures { result ≡ not (int_eq self.sum (pos 0)) }
    {
        self.sum != 0
    }

    /// The violations. `Overflow` exactly where a difference or the sum doesn't fit.
    fn violations(self) -> Result<i64, RunFault>
        ensures { result ≡ (if nat_eq self.misfits 0 then exact self.sum else Err TooWide) }
    {
        if self.misfits == 0 {
            i64::try_from(self.sum).map_err(|_| RunFault::Overflow)
        } else {
            Err(RunFault::Overflow)
        }
    }
}

/// By how much a count differs from its bound.
#[derive(Clone, Copy)]
struct Difference {
    value: i128,
}

impl Difference {
    /// What is too much of a value, or too little, that stands so often and has this bound.
    fn of(demand: Demand, times: usize, bound: i64) -> Difference
        requires { times < 2 ^ 62 }
        ensures value { result.value ≡ differs_by demand times bound }
        ensures low { neg_ℤ (pos (2 ^ 64)) ≤ℤ result.value }
        ensures high { result.value ≤ℤ pos (2 ^ 64) }
    {
        let surplus = times as i128 - i128::from(bound);
        let value = match demand {
            Demand::AtMost => surplus,
            Demand::AtLeast => -surplus,
            Demand::Exactly => surplus,
        };
        Difference { value }
    }

    /// The violations that it makes.
    fn part(self, demand: Demand) -> Difference
        requires low { neg_ℤ (pos (2 ^ 64)) ≤ℤ self.value }
        requires high { self.value ≤ℤ pos (2 ^ 64) }
        ensures value { result.value ≡ part demand self.value }
        ensures low { pos 0 ≤ℤ result.value }
        ensures high { result.value ≤ℤ pos (2 ^ 64) }
    {
        let value = match demand {
            Demand::AtMost => self.value.max(0),
            Demand::AtLeast => self.value.max(0),
            Demand::Exactly => self.value.abs(),
        };
        Difference { value }
    }

    /// 1 where it doesn't fit 64 bits.
    fn misfit(self) -> usize
        ensures { result ≡ misfit self.value }
    {
        usize::from(i64::try_from(self.value).is_err())
    }
}

/// Whether a place counts, where there are violations or not, and its value stands too often, or not, or
/// has no bound.
fn counts_at(demand: Demand, is_violated: bool, is_over: Option<bool>) -> bool
    ensures { result ≡ counts_at demand is_violated is_over }
{
    match demand {
        Demand::AtMost => is_over.unwrap_or(false),
        Demand::AtLeast => is_violated && is_over.unwrap_or(true),
        Demand::Exactly => is_over.unwrap_or(is_violated),
    }
}

impl NumberNode for Cardinality {
    ghost use Rattle.std.specs.Prelude.{◌<◌, ◌^◌, length};
    ghost use Rattle.diff_global.specs.NumberRules.{cardinality_rule};
    ghost use Rattle.diff_global.specs.CardinalityTotals.{AreTotals, AreBounds};

    ghost number_rule = { λ s. cardinality_rule s.demand s.low s.bounds };

    ghost settled = { λ s. AreTotals s.demand s.low s.bounds s.tally s.totals × AreBounds s.bounds ×
        (length s.tally < 2 ^ 61) };

    ghost held_numbers = { λ s. s.tally };

    fn reset(&mut self, numbers: &[i64]) -> Result<(), NoMemory> {
        self.tally = Tally::for_numbers(self.alloc, numbers)?;
        self.totals = totals_of_none(self.demand, self.bounds.as_slice());
        for x in numbers {
            let before = self.tally.push(*x)?;
            self.totals = self.shifted(self.totals, *x, before, before + 1);
        }
        Ok(())
    }

    fn set(&mut self, change: NumberChange) -> Result<(), NoMemory> {
        let elsewhere = self.tally.set(change)?;
        self.totals = self.changed(self.totals, change, elsewhere);
        Ok(())
    }

    fn probe(&self, changes: &[NumberChange]) -> Result<i64, NodeFault> {
        let mut overlay = Overlay::new(self.alloc);
        let mut totals = self.totals;
        for change in changes {
            let elsewhere = overlay.set(&self.tally, *change)?;
            totals = self.changed(totals, *change, elsewhere);
        }
        probe_answer(totals.violations())
    }

    fn value(&self) -> Result<i64, RunFault> {
        self.totals.violations()
    }

    fn place_violation(&self, place: usize) -> i64 {
        let value = self.tally.at(place);
        let is_over = self.is_over(value, self.tally.times(value));
        let is_violated = self.totals.are_violated();
        let counts = counts_at(self.demand, is_violated, is_over);
        if counts { 1 } else { 0 }
    }
}

/// The totals of the list with no number.
fn totals_of_none(demand: Demand, bounds: &[i64]) -> Totals
    ensures totals { (low : ℤ) → AreTotals demand low bounds.now [] result }
    ensures bounds { AreBounds bounds.now }
{
    let mut totals = Totals { sum: 0, misfits: 0 };
    for bound in bounds {
        totals = totals.with(demand, 0, *bound);
    }
    totals
}
