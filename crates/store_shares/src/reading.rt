//! What a part tells of a variable, read without taking memory.
ghost use Rattle.std.specs.Prelude.{if◌then◌else◌, int_lt, ◌≡◌, ◌+◌, ◌*◌, ◌^◌, ◌<◌, ◌≤◌, ◌+ℤ◌, ◌≤ℤ◌, ℕ, ℤ, Bool, true, neg_ℤ, pos, length, fold, map, nat_lt, Option, Some, None, Result, IfSome, slice_get};
ghost use Rattle.cbl_base.specs.Arithmetic.{exact};
ghost use Rattle.cbl_base.specs.declared.faults.RunFault.{RunFault};
ghost use Rattle.cbl_operations.specs.Operations.Greatest.{greatest_of};
ghost use Rattle.store_shares.specs.Words.{has, IsRising};
ghost use Rattle.store_shares.specs.Parts.{Reading, one_in, violations_in, fewest_told, told, Told, told_at, fewer_told, greater_told};
ghost use Rattle.store_shares.specs.declared.parts.Part.{Part};

use crate::held::Held;
use crate::parts::{Part, id_of};
use crate::words::{Word, next};
use cbl_base::RunFault;

/// Whether a set has a number of a range.
fn has_one(words: &[Word], first: usize, end: usize) -> bool
    requires { IsRising words.now }
    ensures { result ≡ one_in (has words.now) first end }
{
    if end <= first {
        return false;
    }
    let at = next(words, first, end);
    if at < end {
        return true;
    }
    false
}

/// The greater of a number so far and another.
fn greater(so_far: Option<i64>, number: i64) -> i64
    ensures { result ≡ greater_told so_far number }
{
    match so_far {
        Some(most) => most.max(number),
        None => number,
    }
}

/// The greatest of the violations at the places of a range whose slots are in a set, 0 where none is.
fn greatest<H: Held>(held: &H, words: &[Word], id: u32, first: usize, end: usize) -> i64
    requires ready { H.is_ready held.now }
    requires rising { IsRising words.now }
    ensures { result ≡ greatest_of (violations_in
        (record { number = H.number_of held.now; violation = H.violation_of held.now })
        (has words.now) id first end) }
{
    if end <= first {
        return 0;
    }
    let mut most = None;
    let mut at = next(words, first, end);
    while at < end {
        most = Some(greater(most, held.violation(id, at - first)));
        at = next(words, at + 1, end);
    }
    most.unwrap_or(0)
}

/// The violations of a constraint that isn't to hold, where one of its slots is in a set, else 0.
fn negation<H: Held>(held: &H, words: &[Word], id: u32, first: usize, end: usize) -> i64
    requires ready { H.is_ready held.now }
    requires rising { IsRising words.now }
    ensures { result ≡ (if one_in (has words.now) first end then H.number_of held.now id else pos 0) }
{
    if has_one(words, first, end) {
        return held.number(id);
    }
    0
}

/// A sum of so many numbers, and one more.
pub(crate) fn plus(sum: i128, number: i64, count: usize) -> i128
    requires low { neg_ℤ (pos (2 ^ 63 * count)) ≤ℤ sum }
    requires high { sum ≤ℤ pos (2 ^ 63 * count) }
    requires few { count < 2 ^ 63 }
    ensures is { result ≡ (sum +ℤ number) }
    ensures low { neg_ℤ (pos (2 ^ 63 * (count + 1))) ≤ℤ result }
    ensures high { result ≤ℤ pos (2 ^ 63 * (count + 1)) }
{
    sum + i128::from(number)
}

/// The sum as a 64-bit number. `Overflow` exactly where it doesn't fit.
pub(crate) fn narrowed(sum: i128) -> Result<i64, RunFault>
    ensures { result ≡ exact sum }
{
    i64::try_from(sum).map_err(|_| RunFault::Overflow)
}

/// Whether a part has fewer violations than another.
fn is_fewer<H: Held>(held: &H, part: &Part, other: &Part) -> bool
    requires ready { H.is_ready held.now }
    ensures { (test : ℕ → Bool) → result ≡ int_lt
        (told (record { number = H.number_of held.now; violation = H.violation_of held.now }) test part.now).number
        (told (record { number = H.number_of held.now; violation = H.violation_of held.now }) test other.now).number }
{
    held.number(id_of(part)) < held.number(id_of(other))
}

/// Of two parts, at places counted from 0, the one with fewer violations, the first where they have as many.
fn fewer<H: Held>(held: &H, parts: &[Part], best: Option<usize>, at: usize) -> Option<usize>
    requires ready { H.is_ready held.now }
    requires best { IfSome best (λ k. k < length parts.now) }
    requires at { at < length parts.now }
    ensures within { IfSome result (λ k. k < length parts.now) }
    ensures fewer { (test : ℕ → Bool) (part : Part) → slice_get parts.now at ≡ Some part →
        told_at (told (record { number = H.number_of held.now; violation = H.violation_of held.now }) test) parts.now result
        ≡ fewer_told (told_at (told (record { number = H.number_of held.now; violation = H.violation_of held.now }) test) parts.now best)
        (told (record { number = H.number_of held.now; violation = H.violation_of held.now }) test part) }
{
    let Some(first) = best else {
        return Some(at);
    };
    if is_fewer(held, &parts[at], &parts[first]) {
        return Some(at);
    }
    Some(first)
}

/// The place of the first part with the fewest violations.
fn fewest<H: Held>(held: &H, parts: &[Part]) -> Option<usize>
    requires ready { H.is_ready held.now }
    ensures within { IfSome result (λ k. k < length parts.now) }
    ensures fewest { (test : ℕ → Bool) →
        told_at (told (record { number = H.number_of held.now; violation = H.violation_of held.now }) test) parts.now result
        ≡ fewest_told (map (told (record { number = H.number_of held.now; violation = H.violation_of held.now }) test) parts.now) }
{
    let mut best = None;
    for at in 0..parts.len() {
        best = fewer(held, parts, best, at);
    }
    best
}

/// The violations of a variable in a part, whose slots that depend on the variable are in a set.
pub(crate) fn share<H: Held>(held: &H, words: &[Word], part: &Part) -> Result<i64, RunFault>
    requires ready { H.is_ready held.now }
    requires rising { IsRising words.now }
    ensures { result ≡ (told (record { number = H.number_of held.now; violation = H.violation_of held.now })
        (has words.now) part.now).violation }
{
    match part {
        Part::Leaf { .. } => Ok(0),
        Part::Negation { id, first, end } => Ok(negation(held, words, *id, *first, *end)),
        Part::Plain { id, first, end } => Ok(greatest(held, words, *id, *first, *end)),
        Part::Every {
            first,
            end,
            parts,
            ..
        } => {
            if !has_one(words, *first, *end) {
                return Ok(0);
            }
            let mut sum: i128 = 0;
            let mut count = 0;
            for part in parts {
                let violation = share(held, words, part)?;
                sum = plus(sum, violation, count);
                count += 1;
            }
            narrowed(sum)
        }
        Part::One {
            first,
            end,
            parts,
            ..
        } => {
            if !has_one(words, *first, *end) {
                return Ok(0);
            }
            match fewest(held, parts) {
                Some(at) => share(held, words, &parts[at]),
                None => Ok(0),
            }
        }
    }
}
