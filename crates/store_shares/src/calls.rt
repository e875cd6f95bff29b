//! The violations of a variable in a system, read without taking memory.
ghost use Rattle.std.specs.Prelude.{◌≡◌, ◌+◌, ◌-◌, ◌*◌, ◌*ℤ◌, ◌^◌, ◌<◌, ◌≤◌, ◌≤ℤ◌, ℕ, Ok, neg_ℤ, pos, length, map};
ghost use Rattle.std.specs.List.{range_with_len};
ghost use Rattle.store_shares.specs.Calls.{AreZero, no_tally, tallied, tally_all, with_product};
ghost use Rattle.store_shares.specs.Parts.{told, violation_of};
ghost use Rattle.store_shares.specs.Words.{has, IsRising};

use crate::held::Held;
use crate::parts::Part;
use crate::reading::{narrowed, plus, share};
use crate::words::{Word, next};
use cbl_base::{RunFault, mul};

/// The total of products so far, as long as each fits.
#[derive(Clone, Copy)]
pub(crate) struct Tally {
    pub(crate) sum: i128,
    pub(crate) fits: bool,
}

/// A number more, times its weight. How many there may be so far bounds the sum.
fn with_weighed(tally: Tally, number: i64, weight: i64, count: usize) -> Tally
    requires low { neg_ℤ (pos (2 ^ 63 * count)) ≤ℤ tally.sum }
    requires high { tally.sum ≤ℤ pos (2 ^ 63 * count) }
    requires few { count < 2 ^ 63 }
    ensures is { result ≡ with_product tally (number *ℤ weight) }
    ensures low { neg_ℤ (pos (2 ^ 63 * (count + 1))) ≤ℤ result.sum }
    ensures high { result.sum ≤ℤ pos (2 ^ 63 * (count + 1)) }
{
    if !tally.fits {
        return tally;
    }
    match mul(number, weight) {
        Ok(product) => Tally {
            sum: plus(tally.sum, product, count),
            fits: true,
        },
        Err(_) => Tally {
            sum: tally.sum,
            fits: false,
        },
    }
}

/// The total, where it and each product fit.
fn total_told(tally: Tally) -> Result<i64, RunFault>
    ensures { result ≡ tallied (Ok tally) }
{
    if tally.fits {
        narrowed(tally.sum)
    } else {
        Err(RunFault::Overflow)
    }
}

/// The total of the violations of a variable in the parts of a system's members, each times its weight. In those
/// that aren't touched they are 0.
pub(crate) fn total_of<H: Held>(
    held: &H,
    slots: &[Word],
    touched: &[Word],
    parts: &[Part],
    first: usize,
    system: usize,
) -> Result<i64, RunFault>
    requires ready { H.is_ready held.now }
    requires within { first + length parts.now < 2 ^ 63 }
    requires slots { IsRising slots.now }
    requires touched { IsRising touched.now }
    ensures { AreZero (has touched.now) first (map violation_of (map (told
        (record { number = H.number_of held.now; violation = H.violation_of held.now }) (has slots.now)) parts.now)) →
        result ≡ tallied (tally_all no_tally (map violation_of (map (told
        (record { number = H.number_of held.now; violation = H.violation_of held.now }) (has slots.now)) parts.now))
        (map (H.weight_of held.now system) (range_with_len 0 (length parts.now)))) }
{
    let mut tally = Tally { sum: 0, fits: true };
    let end = first + parts.len();
    let mut at = next(touched, first, end);
    while at < end {
        let member = at - first;
        let violation = share(held, slots, &parts[member])?;
        tally = with_weighed(tally, violation, held.weight(system, member), member);
        at = next(touched, at + 1, end);
    }
    total_told(tally)
}
