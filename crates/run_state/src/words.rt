//! Words of data: where they stand, and the numbers that they spell.
ghost use Rattle.std.specs.Prelude.{◌≡◌, ◌≤◌, ◌-◌, ◌^◌, ℕ, pos, neg_ℤ, List, [], ◌∷◌, length, take, drop, IfSome};
ghost use Rattle.comet_meaning.specs.Data as meaning;
ghost use Rattle.comet_meaning.specs.Data.{is_blank, word_of, behind_word, negated, plain};
ghost use Rattle.run_state.specs.Numbers.{at_most, that_fits};

/// The greatest number that a word may spell behind its `-`.
const MOST: u64 = 9_223_372_036_854_775_808;

/// Whether the byte stands between words.
fn is_blank(byte: u8) -> bool
    ensures { result ≡ is_blank byte }
{
    byte == b' ' || byte == b'\t' || byte == b'\r' || byte == b'\n'
}

/// Where the first word from this place on begins, and the end where there is none.
pub(crate) fn behind_blanks(text: &[u8], from: usize) -> usize
    ensures rest { drop result text.now ≡ meaning.behind_blanks (drop from text.now) }
{
    let mut next = from;
    while next < text.len() && is_blank(text[next]) {
        next += 1;
    }
    next
}

/// Where the word that begins at this place ends.
pub(crate) fn word_end(text: &[u8], from: usize) -> usize
    requires { from ≤ length text.now }
    ensures onward { from ≤ result }
    ensures within { result ≤ length text.now }
    ensures word { take (result - from) (drop from text.now) ≡ word_of (drop from text.now) }
    ensures rest { drop result text.now ≡ behind_word (drop from text.now) }
{
    let mut next = from;
    while next < text.len() && !is_blank(text[next]) {
        next += 1;
    }
    next
}

/// The number that a word spells; `None` exactly where it spells none that fits 64 bits signed.
pub(crate) fn spelled(word: &[u8]) -> Option<i64>
    ensures { result ≡ that_fits (meaning.spelled word.now) }
{
    match word.first() {
        Some(b'-') => match digits_value(&word[1..]) {
            Some(value) => Some(negative(value)),
            None => None,
        },
        _ => match digits_value(word) {
            Some(value) => positive(value),
            None => None,
        },
    }
}

/// The number with a `-`.
fn negative(value: u64) -> i64
    requires { value ≤ 2 ^ 63 }
    ensures { result ≡ neg_ℤ (pos value) }
{
    if value == MOST {
        i64::MIN
    } else {
        -(value as i64)
    }
}

/// The number without a `-`, where it fits.
fn positive(value: u64) -> Option<i64>
    requires { value ≤ 2 ^ 63 }
    ensures { result ≡ that_fits (Some (pos value)) }
{
    if value == MOST {
        None
    } else {
        Some(value as i64)
    }
}

/// The number that digits spell; `None` exactly where there is none, where not all are digits, and where it is too
/// great for 64 bits signed, also behind a `-`.
fn digits_value(digits: &[u8]) -> Option<u64>
    ensures { result ≡ at_most (2 ^ 63) (meaning.digits_value digits.now) }
{
    if digits.is_empty() {
        return None;
    }
    let mut value: u128 = 0;
    for digit in digits {
        value = with_digit(value, *digit)?;
    }
    Some(value as u64)
}

/// The number with one more digit; `None` exactly where the byte is no digit, and where the number is too great.
fn with_digit(value: u128, digit: u8) -> Option<u128>
    requires { value ≤ 2 ^ 63 }
    ensures value { result ≡ at_most (2 ^ 63) (meaning.digits_from value (digit ∷ [])) }
    ensures small { IfSome result (λ next. next ≤ 2 ^ 63) }
{
    if !digit.is_ascii_digit() {
        return None;
    }
    let value = value * 10 + (digit - b'0') as u128;
    if value <= MOST as u128 {
        Some(value)
    } else {
        None
    }
}
