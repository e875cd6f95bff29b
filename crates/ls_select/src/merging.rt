//! Merging the parts of adjoining candidates.
ghost use Rattle.std.specs.Prelude.{◌≡◌, ◌<◌, ◌+◌, ◌^◌, ◌++◌, None, length};
ghost use Rattle.ls_select.specs.Joining.{joined};
ghost use Rattle.ls_select.specs.Merging.{Merges};

use crate::part::Part;
use crate::want::Want;

/// What comes of two parts: one of both, or the earlier one, where the candidates of the later one have to be scanned
/// again with the fuel that it left.
#[derive(Drop)]
pub enum Merged {
    Whole(Part),
    Rescan(Part),
}

impl Part {
    /// Merges the part of the candidates behind these, made with the same want and under the same fuel. It takes no
    /// memory. `Rescan` exactly where this part didn't stop and both cost more than the fuel.
    ///
    /// The later part must begin where this one ends, unless this one stopped; and their numbers must fit.
    pub fn merge(self, later: Part, want: Want, fuel: u64) -> Merged
        requires adjoin { self.stop ≡ None → later.first ≡ self.first + self.count }
        requires counts { self.count + later.count < 2 ^ 64 }
        requires spare { length self.ties + length later.ties < 2 ^ 63 }
        ensures { Merges want fuel self later result }
    {
        if self.stop.is_some() {
            return Merged::Whole(self);
        }
        if self.cost > fuel || later.cost > fuel - self.cost {
            return Merged::Rescan(self);
        }
        Merged::Whole(self.join(later, want))
    }

    /// The part of both, where the earlier one didn't stop.
    fn join(self, later: Part, want: Want) -> Part
        requires counts { self.count + later.count < 2 ^ 64 }
        requires costs { self.cost + later.cost < 2 ^ 64 }
        requires spare { length self.ties + length later.ties < 2 ^ 63 }
        ensures { result ≡ joined want self later }
    {
        let (front, back) = (self.best, later.best);
        let best = want.better_of(front, back);
        let mut ties = self.ties.at(front, best);
        ties.append(later.ties.at(back, best));
        Part {
            first: self.first,
            count: self.count + later.count,
            cost: self.cost + later.cost,
            best,
            ties,
            stop: later.stop,
        }
    }
}
