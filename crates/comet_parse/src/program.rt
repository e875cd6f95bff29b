//! Programs: all the tokens, or the refusal of their list.
ghost use Rattle.std.specs.Prelude.{◌<◌, ◌^◌, length, IfOk, IfErr};
ghost use Rattle.cbl_base.specs.declared.limits.TheConstants.{MAX_NESTING};
ghost use Rattle.comet_syntax.specs.declared.tree.program.Program.{Program as ProgramOf};
ghost use Rattle.comet_syntax.specs.Spells.{Spells, SpellsAtAnyDepth};
ghost use Rattle.parse_machine.specs.Listing.{IsStop};
ghost use Rattle.parse_unique.specs.Bare.{SameProgram};
ghost use Rattle.comet_parse.specs.Refusals.{IsRefusal};

use crate::building::build;
use crate::stop::ParseStop;
use comet_syntax::Token;
use comet_syntax::tree::Program;
use parse_base::Stop;
use parse_machine::list;
use std::alloc::Global;

/// The program that the tokens spell, with nothing nested deeper than `MAX_NESTING`: the only one. There
/// are fewer than 2^32 tokens.
///
/// A list that spells none is refused at the first token that can't stand where it stands, or behind the last
/// token, or at the first one that begins a part nested too deeply. `NoMemory` where there was no memory.
pub fn parse(alloc: Global, tokens: &[Token]) -> Result<Program, ParseStop>
    requires { length tokens.now < 2 ^ 32 }
    ensures spells { IfOk result (λ p. Spells MAX_NESTING p tokens.now) }
    ensures only { IfOk result (λ p. (other : ProgramOf) → SpellsAtAnyDepth other tokens.now →
        SameProgram other p) }
    ensures refused { IfErr result (λ s. IsRefusal MAX_NESTING tokens.now s) }
{
    match list(alloc, tokens) {
        Ok(log) => match build(alloc, log, tokens) {
            Ok(program) => Ok(program),
            Err(_) => Err(ParseStop::NoMemory),
        },
        Err(stop) => Err(refusal(tokens, stop)),
    }
}

// The refusal of the tokens, where reading stops.
fn refusal(tokens: &[Token], stop: Stop) -> ParseStop
    requires few { length tokens.now < 2 ^ 32 }
    requires stop { IsStop MAX_NESTING tokens.now stop }
    ensures { IsRefusal MAX_NESTING tokens.now result }
{
    match stop {
        Stop::Fault { left, cause } => ParseStop::Fault {
            token: (tokens.len() - left) as u32,
            cause,
        },
        Stop::NoMemory => ParseStop::NoMemory,
    }
}
