//! Keys of which each may stand several times, and the set of them.
ghost use Rattle.std.specs.Prelude.{◌≡◌, ℕ, ℤ, true, false, ◌+◌, ◌<◌, ◌^◌, ◌==◌, List, [], IsTrue, IfOk, OnOk, if◌then◌else◌};
ghost use Rattle.node_base.specs.KeptCounts.{times_kept};
ghost use Rattle.node_set.specs.Bags.{one_where, IsBagOf, IsChangedBy};
ghost use Rattle.node_set.specs.Placing.{placed_in};

use crate::editing::place_in;
use cbl_base::{Input, IntSet, NoMemory};
use node_base::OrderedCounts;
use std::alloc::Global;

/// Keys of which each may stand several times: how often each stands there, and the set of them.
#[derive(Drop)]
pub(crate) struct KeyBag {
    counts: OrderedCounts,
    kept: Input,
}

impl KeyBag {
    /// No key.
    pub(crate) fn new(alloc: Global) -> KeyBag
        ensures { IsBagOf result [] }
    {
        KeyBag {
            counts: OrderedCounts::new(alloc),
            kept: Input::Set(IntSet::new(alloc)),
        }
    }

    /// A copy of it.
    pub(crate) fn copied(&self) -> Result<KeyBag, NoMemory>
        ensures { IfOk result (λ copy. (xs : List ℤ) → IsBagOf self.now xs → IsBagOf copy xs) }
    {
        Ok(KeyBag {
            counts: self.counts.copied()?,
            kept: self.kept.clone()?,
        })
    }

    /// The set of the keys.
    pub(crate) fn kept(&self) -> &Input
        ensures { result.now ≡ self.now.kept }
    {
        &self.kept
    }

    /// The set of the keys.
    pub(crate) fn into_kept(self) -> Input
        ensures { result ≡ self.kept }
    {
        self.kept
    }

    /// The key stood there if `was`, and now stands there if `is`.
    pub(crate) fn change(&mut self, key: i64, was: bool, is: bool) -> Result<(), NoMemory>
        requires stood { IsTrue was → 0 < times_kept self.old.counts key }
        requires few { times_kept self.old.counts key + 1 < 2 ^ 64 }
        ensures { OnOk result ((xs ys : List ℤ) → IsBagOf self.old xs →
            IsChangedBy key was is xs ys → IsBagOf self.new ys) }
    {
        match (was, is) {
            (false, true) => self.add(key),
            (true, false) => self.take(key),
            (false, false) => Ok(()),
            (true, true) => Ok(()),
        }
    }

    /// One more of the key.
    fn add(&mut self, key: i64) -> Result<(), NoMemory>
        requires { times_kept self.old.counts key + 1 < 2 ^ 64 }
        ensures counts { OnOk result ((q : ℤ) →
            times_kept self.new.counts q ≡ times_kept self.old.counts q + one_where true key q) }
        ensures kept { OnOk result (self.new.kept ≡ placed_in key true self.old.kept) }
    {
        self.counts.add(key)?;
        place_in(&mut self.kept, key, true)
    }

    /// One less of the key.
    fn take(&mut self, key: i64) -> Result<(), NoMemory>
        requires { 0 < times_kept self.old.counts key }
        ensures counts { OnOk result ((q : ℤ) →
            times_kept self.new.counts q + one_where true key q ≡ times_kept self.old.counts q) }
        ensures kept { OnOk result (self.new.kept ≡ (if times_kept self.old.counts key == 1 then placed_in key false self.old.kept else self.old.kept)) }
    {
        let times = self.counts.times(key);
        self.counts.take(key);
        if times == 1 {
            place_in(&mut self.kept, key, false)
        } else {
            Ok(())
        }
    }
}
