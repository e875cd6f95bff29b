//! The candidates of a selector.
ghost use Rattle.std.specs.Prelude.{◌≡◌, ◌++◌, ◌∷◌, ◌+◌, [], IfErr, IfOk, OnOk, length, nat_le, option_map, slice_get, slice_index_or};
ghost use Rattle.comet_meaning.specs.Candidates.{with_candidate};
ghost use Rattle.comet_meaning.specs.Limits.{most_candidates};
ghost use Rattle.comet_meaning.specs.State.{State};
ghost use Rattle.run_values.specs.Did.{Did, IsFaultOrMemory};
ghost use Rattle.run_values.specs.declared.stop.Stop.TheVariants.{NoMemory};
ghost use Rattle.search_forms.specs.Tables.{AreRows, candidates_seen};

use cbl_base::limits::MAX_CANDIDATES;
use cbl_base::{Limit, Place, RunFault};
use run_values::Stop;
use std::alloc::Global;

/// Candidates: for each the values of all generators, in order.
#[derive(Drop)]
pub(crate) struct Candidates {
    width: usize,
    count: usize,
    numbers: Vec<i64>,
}

impl Candidates {
    /// No candidate of so many generators.
    pub(crate) fn new(alloc: Global, width: usize) -> Candidates
        ensures none { candidates_seen result ≡ [] }
        ensures rows { AreRows result width }
    {
        Candidates {
            width,
            count: 0,
            numbers: Vec::new(alloc),
        }
    }

    /// How many there are.
    pub(crate) fn len(&self) -> usize
        ensures { result ≡ length (candidates_seen self.now) }
    {
        self.count
    }

    /// Whether there are as many as there may be.
    fn is_full(&self) -> bool
        ensures { result ≡ nat_le most_candidates self.now.count }
    {
        MAX_CANDIDATES <= self.count
    }

    /// The values of the candidate with a number, and none where there is no such candidate.
    pub(crate) fn get(&self, number: usize) -> &[i64]
        requires { AreRows self.now self.now.width }
        ensures { result.now ≡ slice_index_or (candidates_seen self.now) number [] }
    {
        if number >= self.count {
            return &[];
        }
        let start = number * self.width;
        &self.numbers[start..start + self.width]
    }

    /// One more candidate, of the values of the generators before the last one, and that of the last one. `TooMany`
    /// candidates at this place exactly where there are 4,194,304 before.
    pub(crate) fn add(&mut self, at: Place, known: &[i64], value: i64) -> Result<(), Stop>
        requires rows { AreRows self.old (length known.now + 1) }
        ensures did { (s : State) → Did (λ _.
            candidates_seen self.new) result s
            (with_candidate at (known.now ++ value ∷ []) (candidates_seen self.old) s) }
        ensures rows { OnOk result (AreRows self.new (length known.now + 1)) }
        ensures more { OnOk result (self.new.count ≡ self.old.count + 1) }
        ensures stop { IfErr result IsFaultOrMemory }
    {
        if self.is_full() {
            return Err(Stop::Fault(at, RunFault::TooMany(Limit::Candidates)));
        }
        self.numbers.extend_from_slice(known)?;
        self.numbers.push(value)?;
        self.count += 1;
        Ok(())
    }

    /// A copy of the values of the candidate with a number; `None` exactly where there is no such candidate. `NoMemory` where
    /// there is none for it; there is no other stop.
    pub(crate) fn copied(&self, alloc: Global, number: usize) -> Result<Option<Vec<i64>>, Stop>
        requires { AreRows self.now self.now.width }
        ensures same { IfOk result (λ chosen.
            option_map (λ v. v.items) chosen ≡ slice_get (candidates_seen self.now) number) }
        ensures memory { IfErr result (λ stop. stop ≡ NoMemory) }
    {
        if number >= self.count {
            return Ok(None);
        }
        let values = Vec::from_slice(alloc, self.get(number))?;
        Ok(Some(values))
    }
}
