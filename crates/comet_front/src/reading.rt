//! The program of a text.
ghost use Rattle.std.specs.Prelude.{◌≡◌, ◌≤◌, List, length, drop, IfOk, IfErr};
ghost use Rattle.cbl_base.specs.declared.limits.TheConstants.{MAX_NESTING};
ghost use Rattle.checked_tree.specs.Tasks.{program_of};
ghost use Rattle.comet_syntax.specs.declared.limits.TheConstants.{MOST_BYTES};
ghost use Rattle.comet_syntax.specs.Tokens.TokenList.{HasTokens};
ghost use Rattle.comet_parse.specs.Refusals.{IsRefusal};
ghost use Rattle.comet_front.specs.Reading.{HasProgram, HasTree, IsAccepted, IsBuilt, IsBuiltStop, IsTextStop, IsTypeStop, place_left};

use crate::stop::TextStop;
use cbl_base::Place;
use checked_tree::Checked;
use comet_parse::{ParseStop, parse};
use comet_syntax::tree::Program;
use comet_syntax::{FormCause, LexStop, Token, lex, place_behind};
use comet_types::{CheckStop, check};
use program_forms::is_built;
use std::alloc::Global;

/// The place of a text's first byte.
const FIRST_PLACE: Place = Place { line: 1, col: 1 };

/// The checked program that a text is. `Fault` exactly where its form is refused, or where it is well typed and
/// holds a form that isn't built; `IllTyped` exactly where a part of its tree is refused by the rules of types and
/// effects; each at its place and for its cause. `NoMemory` where there was none.
pub fn read_program(alloc: Global, text: &[u8]) -> Result<Checked, TextStop>
    ensures found { IfOk result (λ program. HasProgram text.now (program_of program)) }
    ensures refused { IfErr result (IsTextStop text.now) }
{
    let tree = read_tree(alloc, text)?;
    let program = check_types(alloc, tree)?;
    built(program)
}

/// The program, where each of its forms is built.
fn built(program: Checked) -> Result<Checked, TextStop>
    ensures found { IfOk result (IsBuilt (program_of program)) }
    ensures refused { IfErr result (IsBuiltStop (program_of program)) }
{
    if is_built(&program) {
        Ok(program)
    } else {
        Err(TextStop::Fault(FIRST_PLACE, FormCause::NotBuilt))
    }
}

/// Checks a tree by the rules of types and effects.
fn check_types(alloc: Global, tree: Program) -> Result<Checked, TextStop>
    ensures typed { IfOk result (λ program. IsAccepted tree (program_of program)) }
    ensures refused { IfErr result (IsTypeStop tree) }
{
    match check(alloc, tree) {
        Ok(program) => Ok(program),
        Err(CheckStop::Fault(place, code)) => Err(TextStop::IllTyped(place, code)),
        Err(CheckStop::NoMemory) => Err(TextStop::NoMemory),
    }
}

/// The tree of a text.
fn read_tree(alloc: Global, text: &[u8]) -> Result<Program, TextStop>
    ensures found { IfOk result (HasTree text.now) }
    ensures refused { IfErr result (IsTextStop text.now) }
{
    let tokens = match lex(alloc, text) {
        Ok(tokens) => tokens,
        Err(LexStop::Fault(place, cause)) => return Err(TextStop::Fault(place, cause)),
        Err(LexStop::NoMemory) => return Err(TextStop::NoMemory),
    };
    match parse(alloc, tokens.as_slice()) {
        Ok(program) => Ok(program),
        Err(stop) => Err(refusal(text, tokens.as_slice(), stop)),
    }
}

/// The refusal of a text whose tokens are refused.
fn refusal(text: &[u8], tokens: &[Token], stop: ParseStop) -> TextStop
    requires listed { HasTokens text.now tokens.now }
    requires refused { IsRefusal MAX_NESTING tokens.now stop }
    ensures { IsTextStop text.now result }
{
    match stop {
        ParseStop::Fault { token, cause } => {
            let place = place_left(text, tokens, token);
            TextStop::Fault(place, cause)
        }
        ParseStop::NoMemory => TextStop::NoMemory,
    }
}

/// The place of the token of this number from 0, or that behind the text's last byte where there are no
/// more tokens.
fn place_left(text: &[u8], tokens: &[Token], token: u32) -> Place
    requires { length text.now ≤ MOST_BYTES }
    ensures { result ≡ place_left text.now (drop token tokens.now) }
{
    match tokens.get(token as usize) {
        Some(token) => token.place,
        None => place_behind(FIRST_PLACE, text),
    }
}
