//! Strings.
ghost use Rattle.std.specs.Prelude.{◌≡◌, ◌<◌, ℕ, List, ◌∷◌, length, IfSome, IfNone, IfOk, IfErr};
ghost use Rattle.comet_syntax.specs.Tokens.StringLiteral.{IsSpelledByte, IsStringBehindQuote};
ghost use Rattle.comet_syntax.specs.Tokens.StringLiteral as strings;

use crate::stop::FrontStop;
use cbl_base::Text;
use std::alloc::Global;

/// A byte of a string, and what stands behind its spelling.
#[derive(Drop)]
struct SpelledByte<'a> {
    byte: u8,
    rest: &'a [u8],
}

/// A string with its escapes replaced, and what stands behind its closing quote.
#[derive(Drop)]
pub struct StringLiteral<'a> {
    pub value: Text,
    pub rest: &'a [u8],
}

/// The byte that a backslash and a letter spell. `None` exactly where they spell none.
fn escape(letter: u8) -> Option<u8>
    ensures { result ≡ strings.escape letter }
{
    match letter {
        b'n' => Some(b'\n'),
        b't' => Some(b'\t'),
        b'"' => Some(b'"'),
        b'\\' => Some(b'\\'),
        _ => None,
    }
}

/// Whether a byte of a string stands for itself.
fn is_plain(byte: u8) -> bool
    ensures { result ≡ strings.is_plain byte }
{
    !(byte == b'"' || byte == b'\\' || byte == b'\n')
}

/// The byte of a string that is spelled at the front of a text. `None` exactly where none is.
fn spelled_byte(text: &[u8]) -> Option<SpelledByte>
    ensures some { IfSome result (λ spelled. IsSpelledByte text.now spelled.byte spelled.rest.now) }
    ensures shorter { IfSome result (λ spelled. length spelled.rest.now < length text.now) }
    ensures none { IfNone result ((byte : ℕ) (rest : List ℕ) → IsSpelledByte text.now byte rest →
        ⊥) }
{
    let (first, rest) = text.split_first()?;
    if is_plain(*first) {
        return Some(SpelledByte { byte: *first, rest });
    }
    if *first != b'\\' {
        return None;
    }
    let (letter, rest) = rest.split_first()?;
    let byte = escape(*letter)?;
    Some(SpelledByte { byte, rest })
}

/// Reads a string behind its opening quote. `NotRead` exactly where it isn't one: it has an unknown
/// escape, or its line or the text ends before it is closed.
pub fn read_string<'a>(alloc: Global, text: &'a [u8]) -> Result<StringLiteral<'a>, FrontStop>
    ensures ok { IfOk result (λ string. IsStringBehindQuote text.now string.value string.rest.now) }
    ensures refused { IfErr result (λ stop. stop ≡ FrontStop.NotRead →
        (value rest : List ℕ) → IsStringBehindQuote text.now value rest → ⊥) }
{
    let mut value = Vec::new(alloc);
    let mut rest = text;
    while let Some(spelled) = spelled_byte(rest) {
        value.push(spelled.byte)?;
        rest = spelled.rest;
    }
    let Some((first, behind)) = rest.split_first() else {
        return Err(FrontStop::NotRead);
    };
    if *first != b'"' {
        return Err(FrontStop::NotRead);
    }
    let value = Text::from_slice(alloc, value.as_slice())?;
    Ok(StringLiteral {
        value,
        rest: behind,
    })
}
