//! What comes of reading a text.

use cbl_base::{NoMemory, Place};
use comet_parse::{ParseStop, parse};
use comet_syntax::tree::Program;
use comet_syntax::{FormCause, LexStop, MOST_BYTES, Token, lex, place_behind};
use std::alloc::Global;
use std::cmp::min;
use tree_writer::{Places, Writer, write_program};

/// Why a text has no tree.
#[derive(Drop)]
enum Refused {
    At(Place, FormCause),
    NoMemory,
}

/// The place of the token of this number from 0, or that behind the text's last byte.
fn place_of(text: &[u8], tokens: &[Token], number: u32) -> Place {
    match tokens.get(number as usize) {
        Some(token) => token.place,
        None => {
            let shown = &text[..min(text.len(), MOST_BYTES)];
            place_behind(Place { line: 1, col: 1 }, shown)
        }
    }
}

/// The tree of a text.
fn read(alloc: Global, text: &[u8]) -> Result<Program, Refused> {
    let tokens = match lex(alloc, text) {
        Ok(tokens) => tokens,
        Err(LexStop::Fault(place, cause)) => return Err(Refused::At(place, cause)),
        Err(LexStop::NoMemory) => return Err(Refused::NoMemory),
    };
    if tokens.len() > MOST_BYTES {
        return Err(Refused::NoMemory);
    }
    match parse(alloc, tokens.as_slice()) {
        Ok(program) => Ok(program),
        Err(ParseStop::Fault { token, cause }) => {
            let place = place_of(text, tokens.as_slice(), token);
            Err(Refused::At(place, cause))
        }
        Err(ParseStop::NoMemory) => Err(Refused::NoMemory),
    }
}

/// What a user is told of a cause.
fn cause_text(cause: FormCause) -> &'static str {
    match cause {
        FormCause::Encoding => "not UTF-8",
        FormCause::TooLong => "text too long",
        FormCause::BadToken => "bad token",
        FormCause::WideNumber => "number too wide",
        FormCause::Unexpected => "unexpected token",
        FormCause::UnexpectedEnd => "unexpected end of text",
        FormCause::TooDeep => "nested too deeply",
        FormCause::NotBuilt => "not built yet",
    }
}

/// The tree of a text as a text, with its places or without them, or its refusal as `line:column: cause`.
pub(crate) fn answer_of(alloc: Global, text: &[u8], places: Places) -> Result<Vec<u8>, NoMemory> {
    let mut writer = Writer::new(alloc, places);
    match read(alloc, text) {
        Ok(program) => write_program(&mut writer, &program),
        Err(Refused::At(place, cause)) => {
            writer.place(place);
            writer.words(": ");
            writer.words(cause_text(cause));
        }
        Err(Refused::NoMemory) => return Err(NoMemory),
    }
    writer.text()
}
