//! What a scan of some adjoining candidates gives.
ghost use Rattle.std.specs.Prelude.{◌≡◌, ◌<◌, ◌+◌, ◌^◌, [], ◌∷◌, ◌++◌, None, OnOk, OnErr, List};
ghost use Rattle.ls_select.specs.Joining.{keeping, noted};
ghost use Rattle.ls_select.specs.Parts.{IsOneMore, part_of};
ghost use Rattle.ls_select.specs.declared.scored.Scored.{Scored};

use crate::scored::{End, Scored, Stop};
use crate::ties::Ties;
use crate::want::Want;
use cbl_base::NoMemory;
use std::alloc::Global;

/// What a scan of the candidates from `first` on gives: how many were scanned and what that cost; the best key, where
/// one is wanted; the numbers of the candidates that have it, or of all that are kept; and which candidate stopped the
/// scan, which is the last one then.
#[derive(Drop)]
pub struct Part {
    pub first: u64,
    pub count: u64,
    pub cost: u64,
    pub best: Option<i64>,
    pub ties: Ties,
    pub stop: Option<(u64, Stop)>,
}

impl Part {
    /// The part of no candidate, which begins at `first`.
    pub fn new(alloc: Global, first: u64) -> Part
        ensures { (want : Want) → result ≡ part_of want first [] }
    {
        Part {
            first,
            count: 0,
            cost: 0,
            best: None,
            ties: Ties::new(alloc),
            stop: None,
        }
    }

    /// Adds one more candidate, the next one after those of the part, whose scan must not have stopped. With `NoMemory`
    /// the part is as before.
    pub fn add(&mut self, want: Want, scored: Scored) -> Result<(), NoMemory>
        requires going { self.old.stop ≡ None }
        requires numbers { self.old.first + self.old.count + 1 < 2 ^ 64 }
        requires costs { self.old.cost + scored.cost < 2 ^ 64 }
        ensures added { OnOk result ((scores : List Scored) →
            self.old ≡ part_of want self.old.first scores →
            self.new ≡ part_of want self.old.first (scores ++ scored ∷ [])) }
        ensures scanned { OnOk result (IsOneMore want self.old scored self.new) }
        ensures kept { OnErr result (self.new ≡ self.old) }
    {
        let number = self.first + self.count;
        self.note(want, number, scored.end)?;
        self.count += 1;
        self.cost += scored.cost;
        Ok(())
    }

    /// Takes in how one more candidate ended, and leaves the count and the cost.
    fn note(&mut self, want: Want, number: u64, end: End) -> Result<(), NoMemory>
        ensures noted { OnOk result (self.new ≡ noted want number end self.old) }
        ensures kept { OnErr result (self.new ≡ self.old) }
    {
        match end {
            End::Skipped => Ok(()),
            End::Kept(key) => self.keep(want, number, key),
            End::Stopped(stop) => {
                self.stop = Some((number, stop));
                Ok(())
            }
        }
    }

    /// Keeps one more candidate with its key, and leaves all else.
    fn keep(&mut self, want: Want, number: u64, key: i64) -> Result<(), NoMemory>
        ensures added { OnOk result (self.new ≡ keeping want number key self.old) }
        ensures kept { OnErr result (self.new ≡ self.old) }
    {
        let own = want.best_of_key(key);
        let before = self.best;
        let best = want.better_of(before, own);
        if before != best {
            self.ties.replace(number)?;
            self.best = best;
        } else if own == best {
            self.ties.push(number)?;
        }
        Ok(())
    }
}
