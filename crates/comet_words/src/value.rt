//! The values of options.
ghost use Rattle.std.specs.Prelude.{◌≡◌, option_map};
ghost use Rattle.std.specs.Char.{is_ascii_digit};
ghost use Rattle.std.specs.List.{list_all};
ghost use Rattle.comet_words.specs.Values.{file, is_name, is_number, number};

use crate::limits::MOST_DIGITS;

/// Whether a word isn't empty and doesn't begin with `-`.
pub(crate) fn is_name(word: &str) -> bool
    ensures { result ≡ is_name word.now }
{
    match word.as_bytes().first() {
        None | Some(b'-') => false,
        Some(_) => true,
    }
}

/// The file that a value names. `None` exactly where the value is empty.
pub(crate) fn file(value: &str) -> Option<&str>
    ensures { option_map (λ name. name.now) result ≡ file value.now }
{
    if value.is_empty() { None } else { Some(value) }
}

fn all_digits(bytes: &[u8]) -> bool
    ensures { result ≡ list_all is_ascii_digit bytes.now }
{
    bytes.iter().all(|byte| byte.is_ascii_digit())
}

/// Whether a value is one to twenty decimal digits.
fn is_number(value: &str) -> bool
    ensures { result ≡ is_number value.now }
{
    !value.is_empty() && value.len() <= MOST_DIGITS && all_digits(value.as_bytes())
}

/// The number that a value is. `None` exactly where it isn't one to twenty decimal digits, or is less
/// than `least` or more than `most`.
pub(crate) fn number(value: &str, least: u64, most: u64) -> Option<u64>
    ensures { result ≡ number least most value.now }
{
    if !is_number(value) {
        return None;
    }
    let number = value.parse::<u64>().ok()?;
    if least <= number && number <= most {
        Some(number)
    } else {
        None
    }
}
