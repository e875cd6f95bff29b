//! Fuel, and a count of steps.
ghost use Rattle.std.specs.Prelude.{◌≡◌, ◌+◌, ◌-◌, ◌<◌, is_ok, nat_le, if◌then◌else◌};

use std::marker::Model;
use std::sync::ledger::{Blank, Book, Ledger, Share};

/// There is less fuel than was asked for.
#[derive(Clone, Copy, PartialEq, Eq, Debug)]
pub struct Spent;

/// The units that a run may still spend.
#[derive(Clone, Copy, PartialEq, Eq, Debug)]
pub struct Fuel {
    pub left: u64,
}

impl Fuel {
    /// Spends the units. `Spent` exactly where fewer are left, and then none is spent.
    pub fn charge(&mut self, units: u64) -> Result<(), Spent>
        ensures answer { is_ok result ≡ nat_le units self.old.left }
        ensures left { self.new.left ≡ (if nat_le units self.old.left then self.old.left - units else self.old.left) }
    {
        if units > self.left {
            return Err(Spent);
        }
        self.left -= units;
        Ok(())
    }
}

/// How many steps were counted, and seen as that number. It takes no bytes and no time, and only
/// `tick` changes it.
#[derive(Drop)]
pub struct Steps<L: Ledger> {
    book: Book<L>,
    share: Share<L>,
}

impl<L: Ledger> Model for Steps<L> {
    ghost use Rattle.std.specs.Prelude.{ℕ, ◌<◌};

    ghost Value = { ℕ };

    ghost view = { λ s. s.book.total };

    ghost invariant = { λ s. 0 < s.share.parts };
}

impl<L: Ledger> Steps<L> {
    /// No step was counted yet. The blank becomes the ledger `L`.
    pub fn new(blank: Blank) -> Steps<L>
        requires name { blank.name ≡ L.name }
        requires parts { blank.parts ≡ L.parts }
        requires some { 0 < L.parts }
        ensures { result ≡ 0 }
    {
        let (book, share) = blank.open();
        Steps { book, share }
    }

    /// Counts one more step.
    pub fn tick(&mut self)
        ensures { self.new ≡ self.old + 1 }
    {
        self.book.add(&mut self.share, 1);
    }
}
