//! Cutting a text at a byte, and comparing what was cut.
ghost use Rattle.std.specs.Prelude.{◌≡◌, option_map};
ghost use Rattle.std.specs.Str.{bytes_eq};
ghost use Rattle.journal_text.specs.Refusal.{split};
ghost use Rattle.journal_text.specs.Reading.{Gives, next, only};

use crate::stop::Stop;

/// What stands before the first place of this byte, and what stands behind it. `None` exactly where there is
/// no such place.
pub(crate) fn cut(bytes: &[u8], at: u8) -> Option<(&[u8], &[u8])>
    ensures { option_map (λ r. (r.0.now, split at r.1.now)) result ≡ next (split at bytes.now) }
{
    for (place, byte) in bytes.iter().enumerate() {
        if *byte == at {
            return Some((&bytes[..place], &bytes[place + 1..]));
        }
    }
    None
}

/// The first word, where a space stands behind it, and what stands behind that.
pub(crate) fn next_word(bytes: &[u8]) -> Result<(&[u8], &[u8]), Stop>
    ensures { Gives (λ r. (r.0.now, split 32 r.1.now)) result (next (split 32 bytes.now)) }
{
    match cut(bytes, b' ') {
        Some(parts) => Ok(parts),
        None => Err(Stop::Fault),
    }
}

/// The one word, where no space stands in it.
#[tactic(auto, using(crate::proofs::Cuts::only_some, crate::proofs::Cuts::only_none))]
pub(crate) fn only_word(bytes: &[u8]) -> Result<&[u8], Stop>
    ensures { Gives (λ r. r.now) result (only (split 32 bytes.now)) }
{
    match cut(bytes, b' ') {
        Some(_) => Err(Stop::Fault),
        None => Ok(bytes),
    }
}

/// Whether these are the bytes of a text.
pub(crate) fn is_text(bytes: &[u8], text: &str) -> bool
    ensures { result ≡ bytes_eq bytes.now text.now }
{
    bytes == text.as_bytes()
}
