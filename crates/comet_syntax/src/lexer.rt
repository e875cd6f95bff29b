//! The tokens of a text.
ghost use Rattle.std.specs.Prelude.{◌≡◌, ◌≢◌, ◌≤◌, ◌<◌, ◌+◌, ◌-◌, ◌^◌, ◌++◌, ℕ, List, length, IfOk, IfErr, OnOk, IfSome, IfNone};
ghost use Rattle.std.specs.Str.{IsUtf8, IsValidUpTo};
ghost use Rattle.std.specs.List.{fold};
ghost use Rattle.comet_syntax.specs.declared.token.Token.{Token as TokenOf};
ghost use Rattle.comet_syntax.specs.Place as places;
ghost use Rattle.comet_syntax.specs.Tokens.TokenList.{AreCut, HasTokens, tokens_at};
ghost use Rattle.comet_syntax.specs.Tokens.TokenFault.{IsEnd, IsLexStop};
ghost use Rattle.comet_syntax.specs.Tokens.TokenFault as faults;

use crate::lex_front::read_front;
use crate::lexeme::is_digit;
use crate::limits::MOST_BYTES;
use crate::stop::{FormCause, FrontStop, LexStop};
use crate::token::{Token, TokenKind};
use cbl_base::Place;
use std::alloc::Global;

/// The place of a text's first byte.
const FIRST_PLACE: Place = Place { line: 1, col: 1 };

/// How far a text can be cut: its tokens up to there, what is left, and the place of that.
#[derive(Drop)]
struct CutText<'a> {
    tokens: Vec<Token>,
    rest: &'a [u8],
    place: Place,
}

/// The place behind one more byte.
fn next_place(place: Place, byte: u8) -> Place
    requires line { place.line < 2 ^ 32 - 1 }
    requires column { place.col < 2 ^ 32 - 1 }
    ensures { result ≡ places.next_place place byte }
{
    if byte == b'\n' {
        Place {
            line: place.line + 1,
            col: 1,
        }
    } else {
        Place {
            line: place.line,
            col: place.col + 1,
        }
    }
}

/// The place behind some bytes that stand at a place.
pub fn place_behind(place: Place, bytes: &[u8]) -> Place
    requires line { place.line + length bytes.now < 2 ^ 32 }
    requires column { place.col + length bytes.now < 2 ^ 32 }
    ensures { result ≡ fold places.next_place place bytes.now }
{
    let mut place = place;
    for byte in bytes {
        place = next_place(place, *byte);
    }
    place
}

/// How many bytes at the front of a text are UTF-8, where the byte behind them isn't and stands at this
/// index or before it. `None` exactly where there is no such byte.
fn broken_up_to(text: &[u8], index: usize) -> Option<usize>
    ensures some { IfSome result (IsValidUpTo text.now) }
    ensures before { IfSome result (λ valid. valid ≤ index) }
    ensures none { IfNone result ((valid : ℕ) → IsValidUpTo text.now valid → index < valid) }
    ensures whole { IfNone result (length text.now ≤ index → IsUtf8 text.now) }
{
    match str::from_utf8(text) {
        Ok(_) => None,
        Err(error) => {
            let valid = error.valid_up_to();
            if valid <= index { Some(valid) } else { None }
        }
    }
}

/// Why nothing can be read of what is left of a text.
fn stuck_cause(rest: &[u8]) -> FormCause
    ensures { result ≡ faults.stuck_cause rest.now }
{
    match rest.first() {
        Some(first) if is_digit(*first) => FormCause::WideNumber,
        _ => FormCause::BadToken,
    }
}

/// Adds a token of this kind between two rests of a text. White space or a comment adds nothing.
fn keep(
    tokens: &mut Vec<Token>,
    kind: Option<TokenKind>,
    text: &[u8],
    from: &[u8],
    rest: &[u8],
    place: Place,
) -> Result<(), LexStop>
    requires short { length text.now ≤ MOST_BYTES }
    requires from { length from.now ≤ length text.now }
    requires rest { length rest.now ≤ length text.now }
    requires place { place ≡ places.place_of text.now from.now }
    ensures ok { OnOk result (tokens.new.items ≡
        tokens.old.items ++ tokens_at text.now from.now kind rest.now) }
    ensures err { IfErr result (λ stop. stop ≡ LexStop.NoMemory) }
{
    if let Some(kind) = kind {
        tokens.push(Token {
            kind,
            start: (text.len() - from.len()) as u32,
            end: (text.len() - rest.len()) as u32,
            place,
        })?;
    }
    Ok(())
}

/// Cuts a text as far as it can be cut.
fn cut<'a>(alloc: Global, text: &'a [u8]) -> Result<CutText<'a>, LexStop>
    requires { length text.now ≤ MOST_BYTES }
    ensures cut { IfOk result (λ cut. AreCut text.now text.now cut.tokens.items cut.rest.now) }
    ensures ends { IfOk result (λ cut. IsEnd cut.rest.now) }
    ensures left { IfOk result (λ cut. length cut.rest.now ≤ length text.now) }
    ensures place { IfOk result (λ cut. cut.place ≡ places.place_of text.now cut.rest.now) }
    ensures err { IfErr result (λ stop. stop ≡ LexStop.NoMemory) }
{
    let mut tokens = Vec::new(alloc);
    let mut rest = text;
    let mut place = FIRST_PLACE;
    while !rest.is_empty() {
        let front = match read_front(alloc, rest) {
            Ok(front) => front,
            Err(FrontStop::NotRead) => {
                return Ok(CutText {
                    tokens,
                    rest,
                    place,
                });
            }
            Err(FrontStop::NoMemory) => return Err(LexStop::NoMemory),
        };
        keep(&mut tokens, front.token, text, rest, front.rest, place)?;
        place = place_behind(place, &rest[..rest.len() - front.rest.len()]);
        rest = front.rest;
    }
    Ok(CutText {
        tokens,
        rest,
        place,
    })
}

/// The token list of a text. `Fault` exactly where it has none, with the place and the cause: `TooLong`
/// at 1:1 for a text of more than 1 MiB, else what comes first of a byte that isn't UTF-8 (`Encoding`)
/// and a place from which nothing can be read (`WideNumber` for a number past 9223372036854775807, else
/// `BadToken`).
pub fn lex(alloc: Global, text: &[u8]) -> Result<Vec<Token>, LexStop>
    ensures found { IfOk result (λ tokens. HasTokens text.now tokens.items) }
    ensures only { IfOk result (λ tokens. (others : List TokenOf) → HasTokens text.now others →
        others ≡ tokens.items) }
    ensures fault { IfErr result (IsLexStop text.now) }
    ensures none { IfErr result (λ stop. stop ≢ LexStop.NoMemory → (tokens : List TokenOf) →
        HasTokens text.now tokens → ⊥) }
{
    if text.len() > MOST_BYTES {
        return Err(LexStop::Fault(FIRST_PLACE, FormCause::TooLong));
    }
    let cut = cut(alloc, text)?;
    if let Some(valid) = broken_up_to(text, text.len() - cut.rest.len()) {
        let place = place_behind(FIRST_PLACE, &text[..valid]);
        return Err(LexStop::Fault(place, FormCause::Encoding));
    }
    if !cut.rest.is_empty() {
        return Err(LexStop::Fault(cut.place, stuck_cause(cut.rest)));
    }
    Ok(cut.tokens)
}
