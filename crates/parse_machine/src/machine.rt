//! The machine: one loop with a stack of what is still to come.
ghost use Rattle.std.specs.Prelude.{IfOk, IfErr};
ghost use Rattle.cbl_base.specs.declared.limits.TheConstants.{MAX_NESTING};
ghost use Rattle.parse_machine.specs.Listing.{IsStop, Lists};

use crate::choice::{choose, read};
use crate::event::Event;
use crate::grammar::{Part, Symbol};
use crate::item::Item;
use crate::stack::Stack;
use comet_syntax::Token;
use parse_base::{Stop, refuse};
use std::alloc::Global;

// What is to come before anything is read.
static START: [Symbol; 1] = [Symbol::Same(Part::Program)];

/// The listing of the one derivation of all the tokens in which no part is deeper than `MAX_NESTING`.
/// Where there is none, the token at which reading surely stops, and why.
pub fn list(alloc: Global, tokens: &[Token]) -> Result<Vec<Event>, Stop>
    ensures ok { IfOk result (λ log. Lists MAX_NESTING tokens.now log.items) }
    ensures err { IfErr result (λ stop. IsStop MAX_NESTING tokens.now stop) }
{
    let mut log = Vec::new(alloc);
    let mut stack = Stack::new(alloc);
    stack.push(&START, 0)?;
    let mut rest = tokens;
    while let Some(item) = stack.take()? {
        match item {
            Item::Token(keeps_place, kind) => {
                rest = read(rest, kind)?;
                log.push(Event::Read(keeps_place))?;
            }
            Item::Part(part, depth) => {
                let row = choose(rest, part, depth)?;
                stack.push(row.symbols, depth)?;
                log.push(Event::Chose(row.form))?;
            }
        }
    }
    if rest.is_empty() {
        Ok(log)
    } else {
        Err(refuse(rest))
    }
}
