//! Numbers and lists, as a journal writes them.
ghost use Rattle.std.specs.Prelude.{◌≡◌};
ghost use Rattle.journal_text.specs.Refusal.{split};
ghost use Rattle.journal_text.specs.Reading.{Gives, more_digit, digits_from, is_plain, number_of, number_up_to, negative_of, positive_of, signed_of, numbers_of, closed, inside_of, listed_of, list_of};

use crate::cutting::cut;
use crate::stop::Stop;
use cbl_base::Numbers;
use cbl_base::limits::MAX_JOURNAL_UNITS;
use std::alloc::Global;

// The number with one digit more. A fault where the byte is no digit, or the number has more than 64 bits.
fn with_digit(number: u64, byte: u8) -> Result<u64, Stop>
    ensures { Gives (λ n. n) result (more_digit number byte) }
{
    if !byte.is_ascii_digit() {
        return Err(Stop::Fault);
    }
    let Some(tens) = number.checked_mul(10) else {
        return Err(Stop::Fault);
    };
    match tens.checked_add(u64::from(byte - b'0')) {
        Some(number) => Ok(number),
        None => Err(Stop::Fault),
    }
}

// Whether a word isn't empty, and has no zero before other digits.
fn is_plain(word: &[u8]) -> bool
    ensures { result ≡ is_plain word.now }
{
    match word {
        [] => false,
        [b'0', rest @ ..] => rest.is_empty(),
        [_, ..] => true,
    }
}

// The number of these digits.
fn digits_of(word: &[u8]) -> Result<u64, Stop>
    ensures { Gives (λ n. n) result (digits_from 0 word.now) }
{
    let mut number = 0u64;
    for byte in word {
        number = with_digit(number, *byte)?;
    }
    Ok(number)
}

/// An unsigned number.
#[tactic(auto, unfolding(crate::specs::Reading::number_of))]
pub(crate) fn number_of(word: &[u8]) -> Result<u64, Stop>
    ensures { Gives (λ n. n) result (number_of word.now) }
{
    if is_plain(word) {
        digits_of(word)
    } else {
        Err(Stop::Fault)
    }
}

/// A number up to this one.
#[tactic(auto, unfolding(crate::specs::Reading::number_up_to))]
pub(crate) fn number_up_to(most: u32, word: &[u8]) -> Result<u32, Stop>
    ensures { Gives (λ n. n) result (number_up_to most word.now) }
{
    let number = number_of(word)?;
    if number <= u64::from(most) {
        Ok(number as u32)
    } else {
        Err(Stop::Fault)
    }
}

// The negative number of these digits.
#[tactic(auto, unfolding(crate::specs::Reading::negative_of))]
fn negative_of(digits: &[u8]) -> Result<i64, Stop>
    ensures { Gives (λ z. z) result (negative_of digits.now) }
{
    let number = number_of(digits)?;
    if 0 < number && number <= 1 << 63 {
        Ok(-1 - (number - 1) as i64)
    } else {
        Err(Stop::Fault)
    }
}

// The number of these digits, without a sign.
#[tactic(auto, unfolding(crate::specs::Reading::positive_of))]
fn positive_of(digits: &[u8]) -> Result<i64, Stop>
    ensures { Gives (λ z. z) result (positive_of digits.now) }
{
    let number = number_of(digits)?;
    if number < 1 << 63 {
        Ok(number as i64)
    } else {
        Err(Stop::Fault)
    }
}

/// A signed number.
pub(crate) fn signed_of(word: &[u8]) -> Result<i64, Stop>
    ensures { Gives (λ z. z) result (signed_of word.now) }
{
    match word {
        [] => Err(Stop::Fault),
        [b'-', digits @ ..] => negative_of(digits),
        [_, ..] => positive_of(word),
    }
}

// The numbers between commas.
#[tactic(auto, using(crate::proofs::NumberLaws::more_start, crate::proofs::NumberLaws::more_one, crate::proofs::NumberLaws::more_last, crate::proofs::NumberLaws::more_fault, crate::proofs::NumberLaws::more_fault_last))]
fn numbers_of(alloc: Global, inside: &[u8]) -> Result<Vec<i64>, Stop>
    ensures { Gives (λ v. v.items) result (numbers_of (split 44 inside.now)) }
{
    let mut numbers = Vec::new(alloc);
    let mut rest = inside;
    for _ in 0..u64::MAX {
        let Some((word, behind)) = cut(rest, b',') else {
            let last = signed_of(rest)?;
            numbers.push(last)?;
            return Ok(numbers);
        };
        let number = signed_of(word)?;
        numbers.push(number)?;
        rest = behind;
    }
    Err(Stop::NoMemory)
}

// What stands before a bracket, behind which nothing is.
#[tactic(auto, using(crate::proofs::NumberLaws::closed_found, crate::proofs::NumberLaws::closed_more, crate::proofs::NumberLaws::closed_none))]
fn closed_of(rest: &[u8]) -> Result<&[u8], Stop>
    ensures { Gives (λ x. x.now) result (closed (split 93 rest.now)) }
{
    let Some((inside, behind)) = cut(rest, b']') else {
        return Err(Stop::Fault);
    };
    if behind.is_empty() {
        Ok(inside)
    } else {
        Err(Stop::Fault)
    }
}

// What stands in brackets.
fn inside_of(word: &[u8]) -> Result<&[u8], Stop>
    ensures { Gives (λ x. x.now) result (inside_of word.now) }
{
    match word {
        [] => Err(Stop::Fault),
        [b'[', rest @ ..] => closed_of(rest),
        [_, ..] => Err(Stop::Fault),
    }
}

fn listed_of(alloc: Global, inside: &[u8]) -> Result<Vec<i64>, Stop>
    ensures { Gives (λ v. v.items) result (listed_of inside.now) }
{
    if inside.is_empty() {
        return Ok(Vec::new(alloc));
    }
    numbers_of(alloc, inside)
}

/// A list of numbers.
#[tactic(auto, unfolding(crate::specs::Reading::list_of))]
pub(crate) fn list_of(alloc: Global, word: &[u8]) -> Result<Numbers, Stop>
    ensures { Gives (λ v. v) result (list_of word.now) }
{
    let inside = inside_of(word)?;
    let list = listed_of(alloc, inside)?;
    if MAX_JOURNAL_UNITS < list.len() as u64 {
        return Err(Stop::Fault);
    }
    let list = Numbers::from_slice(alloc, list.as_slice())?;
    Ok(list)
}
