//! Bounds: how many numbers they hold, and where a number stands among them.
ghost use Rattle.std.specs.Prelude.{◌≡◌, ◌<◌, ◌≤◌, ◌^◌};
ghost use Rattle.comet_meaning.specs.Cells.{offset};
ghost use Rattle.comet_meaning.specs.Values.{size_of, is_within, from_zero};
ghost use Rattle.run_values.specs.Views.{bounds_seen};

use crate::values::Bounds;

impl Bounds {
    /// How many numbers lie within.
    pub fn size(self) -> u128
        ensures size { result ≡ size_of (bounds_seen self) }
        ensures small { result ≤ 2 ^ 64 }
    {
        if self.up < self.low {
            0
        } else {
            self.up.abs_diff(self.low) as u128 + 1
        }
    }

    /// Whether the number lies within.
    pub fn is_within(self, number: i64) -> bool
        ensures { result ≡ is_within (bounds_seen self) number }
    {
        self.low <= number && number <= self.up
    }

    /// How far the number is from the low end, on either side of it.
    pub fn offset(self, number: i64) -> u64
        ensures { result ≡ offset (bounds_seen self) number }
    {
        number.abs_diff(self.low)
    }

    /// The bounds of so many places, numbered from 0.
    pub fn from_zero(len: usize) -> Bounds
        requires { len < 2 ^ 63 }
        ensures { bounds_seen result ≡ from_zero len }
    {
        Bounds {
            low: 0,
            up: len as i64 - 1,
        }
    }
}
