//! The texts by which a journal differs from what is asked.
ghost use Rattle.std.specs.Prelude.{◌≡◌, codes, IfOk};
ghost use Rattle.replay_port.specs.Odds.{asked_text};

use cbl_base::{NoMemory, Text};
use itoa::Buffer;
use journal_text::print_request;
use pool_monitor::DeskRequest;
use std::alloc::Global;

/// A request with its iteration before it, as a journal writes it.
pub(crate) fn print_asked(
    alloc: Global,
    iteration: u32,
    request: &DeskRequest,
) -> Result<Text, NoMemory>
    ensures { IfOk result (λ text. text ≡ asked_text iteration request.now) }
{
    let request = print_request(alloc, request)?;
    let mut buffer = Buffer::new();
    let mut out = Vec::new(alloc);
    out.extend_from_slice(buffer.format(iteration).as_bytes())?;
    out.push(b' ')?;
    out.extend_from_slice(request.as_slice())?;
    Text::from_slice(alloc, out.as_slice())
}

/// What is said where a journal has no further entry.
pub(crate) fn print_nothing(alloc: Global) -> Result<Text, NoMemory>
    ensures { IfOk result (λ text. text ≡ codes "nothing") }
{
    Text::from_slice(alloc, b"nothing")
}
