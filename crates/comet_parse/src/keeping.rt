//! What a tree keeps of a token.
ghost use Rattle.std.specs.Prelude.{◌≡◌, IfOk};
ghost use Rattle.comet_syntax.specs.Written.Expressions.{written, number};
ghost use Rattle.parse_stacks.specs.Values.{state};
ghost use Rattle.comet_parse.specs.Keeping.{Keeps};

use cbl_base::{NoMemory, Place, Text};
use comet_syntax::tree::{Expression, Name};
use comet_syntax::{Token, TokenKind};
use parse_stacks::{Stacks, put};
use std::alloc::Global;

// A number as an expression.
fn number_at(value: i64, place: Place) -> Expression
    ensures { written result ≡ number value place }
{
    Expression::Number { value, place }
}

// A name at its place.
fn name_at(alloc: Global, text: &Text, place: Place) -> Result<Name, NoMemory>
    ensures text { IfOk result (λ n. n.text ≡ text.now) }
    ensures place { IfOk result (λ n. n.place ≡ place) }
{
    let text = Text::from_slice(alloc, text.as_slice())?;
    Ok(Name { text, place })
}

/// Puts on the stacks what the tree keeps of a token: of a sign or a keyword its place, if it is to be kept.
pub fn keep(
    alloc: Global,
    stacks: &mut Stacks,
    keeps_place: bool,
    token: &Token,
) -> Result<(), NoMemory>
    ensures { IfOk result (λ _. Keeps keeps_place token.now (state stacks.old) (state stacks.new)) }
{
    match &token.kind {
        TokenKind::Name(text) => {
            let name = name_at(alloc, text, token.place)?;
            put(&mut stacks.names, name)?;
        }
        TokenKind::Number(value) => {
            put(&mut stacks.expressions, number_at(*value, token.place))?;
        }
        TokenKind::Str(text) => {
            let text = Text::from_slice(alloc, text.as_slice())?;
            put(&mut stacks.texts, text)?;
        }
        TokenKind::Word(_) => {
            if keeps_place {
                put(&mut stacks.places, token.place)?;
            }
        }
    }
    Ok(())
}
