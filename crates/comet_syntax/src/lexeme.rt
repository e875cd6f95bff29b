//! The lexemes of a text.
ghost use Rattle.std.specs.Prelude.{◌≡◌, true, ◌<◌, ◌≤◌, ◌++◌, ℕ, List, length, take};
ghost use Rattle.std.specs.List.{take_while, list_all};
ghost use Rattle.comet_syntax.specs.Lexeme.{IsLexeme};
ghost use Rattle.comet_syntax.specs.Lexeme as lexeme;

use crate::word::word_of;

/// How many bytes the longest sign has.
const LONGEST_SIGN: usize = 3;

pub fn is_space(c: u8) -> bool
    ensures { result ≡ lexeme.is_space c }
{
    c == b' ' || c == b'\t' || c == b'\r' || c == b'\n'
}

fn is_letter(c: u8) -> bool
    ensures { result ≡ lexeme.is_letter c }
{
    (b'A' <= c && c <= b'Z') || (b'a' <= c && c <= b'z') || c == b'_'
}

pub fn is_digit(c: u8) -> bool
    ensures { result ≡ lexeme.is_digit c }
{
    b'0' <= c && c <= b'9'
}

fn is_word_byte(c: u8) -> bool
    ensures { result ≡ lexeme.is_word_byte c }
{
    is_letter(c) || is_digit(c)
}

fn word_len(text: &[u8]) -> usize
    ensures { result ≡ length (take_while lexeme.is_word_byte text.now) }
{
    text.iter().take_while(|c| is_word_byte(**c)).count()
}

fn number_len(text: &[u8]) -> usize
    ensures { result ≡ length (take_while lexeme.is_digit text.now) }
{
    text.iter().take_while(|c| is_digit(**c)).count()
}

fn are_digits(bytes: &[u8]) -> bool
    ensures { result ≡ list_all lexeme.is_digit bytes.now }
{
    bytes.iter().all(|c| is_digit(*c))
}

/// Whether a lexeme is a number.
pub fn is_number(bytes: &[u8]) -> bool
    ensures { result ≡ lexeme.is_number bytes.now }
{
    match bytes.split_first() {
        None => false,
        Some((first, others)) => is_digit(*first) && are_digits(others),
    }
}

/// Whether a lexeme is a sign: a word that doesn't begin as names do.
fn is_sign(bytes: &[u8]) -> bool
    ensures { result ≡ lexeme.is_sign bytes.now }
{
    match bytes.split_first() {
        None => false,
        Some((first, _)) => !is_letter(*first) && word_of(bytes).is_some(),
    }
}

/// The length of the longest sign at the front of a text, or 0.
fn sign_len(text: &[u8]) -> usize
    ensures bound { result ≤ length text.now }
    ensures sign { 0 < result → lexeme.is_sign (take result text.now) ≡ true }
    ensures longest { (sign rest : List ℕ) →
        text.now ≡ sign ++ rest → lexeme.is_sign sign ≡ true → length sign ≤ result }
{
    for shorter in 0..LONGEST_SIGN {
        let len = LONGEST_SIGN - shorter;
        if len <= text.len() && is_sign(&text[..len]) {
            return len;
        }
    }
    0
}

/// The length of the longest lexeme at the front of a text, or 0.
pub fn lexeme_len(text: &[u8]) -> usize
    ensures bound { result ≤ length text.now }
    ensures is_lexeme { 0 < result → IsLexeme (take result text.now) }
    ensures longest { (bytes rest : List ℕ) →
        text.now ≡ bytes ++ rest → IsLexeme bytes → length bytes ≤ result }
{
    match text.split_first() {
        None => 0,
        Some((first, _)) => {
            if is_letter(*first) {
                word_len(text)
            } else if is_digit(*first) {
                number_len(text)
            } else {
                sign_len(text)
            }
        }
    }
}
