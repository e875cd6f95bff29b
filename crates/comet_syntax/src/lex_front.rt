//! What is cut off the front of a text.
ghost use Rattle.std.specs.Prelude.{◌≡◌, ◌<◌, false, ℕ, List, length, IfOk, IfErr};
ghost use Rattle.comet_syntax.specs.declared.token.TokenKind.{TokenKind as TokenKindOf};
ghost use Rattle.comet_syntax.specs.Lexeme.{IsLexeme};
ghost use Rattle.comet_syntax.specs.Tokens.Comment as comments;
ghost use Rattle.comet_syntax.specs.Tokens.Front.{IsFront, IsLongest, IsOfKind};
ghost use Rattle.comet_syntax.specs.Tokens.TokenFault.{IsStuck};

use crate::decimal::number;
use crate::lex_comment::{begins_comment, behind_comment};
use crate::lex_string::read_string;
use crate::lexeme::{is_number, is_space, lexeme_len};
use crate::stop::FrontStop;
use crate::token::TokenKind;
use crate::word::word_of;
use cbl_base::Text;
use std::alloc::Global;

/// What is cut off: a token, or white space or a comment, which are none; and what stands behind it.
#[derive(Drop)]
pub struct Front<'a> {
    pub token: Option<TokenKind>,
    pub rest: &'a [u8],
}

/// The kind of token that a lexeme is. `NotRead` exactly where it is a number that is too wide.
fn kind_of(alloc: Global, lexeme: &[u8]) -> Result<TokenKind, FrontStop>
    requires { IsLexeme lexeme.now }
    ensures ok { IfOk result (IsOfKind lexeme.now) }
    ensures refused { IfErr result (λ stop. stop ≡ FrontStop.NotRead →
        (kind : TokenKindOf) → IsOfKind lexeme.now kind → ⊥) }
{
    if is_number(lexeme) {
        let number = number(lexeme).ok_or(FrontStop::NotRead)?;
        return Ok(TokenKind::Number(number));
    }
    if let Some(word) = word_of(lexeme) {
        return Ok(TokenKind::Word(word));
    }
    let name = Text::from_slice(alloc, lexeme)?;
    Ok(TokenKind::Name(name))
}

/// Reads the longest lexeme at the front of a text where no comment begins. `NotRead` exactly where
/// there is none, or a number that is too wide.
fn read_lexeme<'a>(alloc: Global, text: &'a [u8]) -> Result<Front<'a>, FrontStop>
    requires { comments.begins_comment text.now ≡ false }
    ensures ok { IfOk result (λ front. IsFront text.now front.token front.rest.now) }
    ensures refused { IfErr result (λ stop. stop ≡ FrontStop.NotRead →
        (lexeme rest : List ℕ) (kind : TokenKindOf) → IsLongest text.now lexeme rest → IsOfKind lexeme kind → ⊥) }
{
    let len = lexeme_len(text);
    if len == 0 {
        return Err(FrontStop::NotRead);
    }
    let (lexeme, rest) = text.split_at(len);
    let kind = kind_of(alloc, lexeme)?;
    Ok(Front {
        token: Some(kind),
        rest,
    })
}

/// Reads what can be cut off the front of a text. `NotRead` exactly where nothing can.
pub fn read_front<'a>(alloc: Global, text: &'a [u8]) -> Result<Front<'a>, FrontStop>
    requires { 0 < length text.now }
    ensures ok { IfOk result (λ front. IsFront text.now front.token front.rest.now) }
    ensures refused { IfErr result (λ stop. stop ≡ FrontStop.NotRead → IsStuck text.now) }
{
    if begins_comment(text) {
        let Some(rest) = behind_comment(text) else {
            return Err(FrontStop::NotRead);
        };
        return Ok(Front { token: None, rest });
    }
    let Some((first, behind)) = text.split_first() else {
        return Err(FrontStop::NotRead);
    };
    if is_space(*first) {
        return Ok(Front {
            token: None,
            rest: behind,
        });
    }
    if *first == b'"' {
        let string = read_string(alloc, behind)?;
        return Ok(Front {
            token: Some(TokenKind::Str(string.value)),
            rest: string.rest,
        });
    }
    let front = read_lexeme(alloc, text)?;
    Ok(front)
}
