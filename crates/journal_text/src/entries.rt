//! Entries and loops, as the words of a line.
ghost use Rattle.std.specs.Prelude.{◌≡◌};
ghost use Rattle.journal_text.specs.Refusal.{split};
ghost use Rattle.journal_text.specs.Reading.{Gives, is_entry, entry_of, loop_of};

use crate::cutting::{is_text, next_word, only_word};
use crate::numbers::number_up_to;
use crate::pairs::{has_request, may_have};
use crate::replies::reply_of;
use crate::requests::{index_field, request_of};
use crate::stop::Stop;
use crate::version::Version;
use best_monitor::Reply;
use best_turn::Entry;
use cbl_base::limits::MAX_ITERATIONS;
use pool_monitor::DeskRequest;
use std::alloc::Global;

// Whether these are an entry's arrow, iteration, request and reply.
fn is_entry(
    version: &Version,
    iterations: u32,
    arrow: &[u8],
    iteration: u32,
    request: &DeskRequest,
    reply: &Reply,
) -> bool
    ensures { result ≡
        is_entry version.now iterations arrow.now iteration request.now reply.now }
{
    is_text(arrow, "->")
        && iteration < iterations
        && has_request(version, request)
        && may_have(request, reply)
}

/// The entry of a loop of this many iterations that a line is.
#[tactic(auto, unfolding(crate::specs::Reading::entry_of))]
pub(crate) fn entry_of(
    alloc: Global,
    version: &Version,
    iterations: u32,
    line: &[u8],
) -> Result<Entry<DeskRequest, Reply>, Stop>
    ensures { Gives (λ e. e) result (entry_of version.now iterations (split 32 line.now)) }
{
    let (iteration, rest) = index_field(line)?;
    let (request, rest) = request_of(alloc, version, rest)?;
    let (arrow, rest) = next_word(rest)?;
    let reply = reply_of(alloc, rest)?;
    if is_entry(version, iterations, arrow, iteration, &request, &reply) {
        Ok(Entry {
            iteration,
            request,
            reply,
        })
    } else {
        Err(Stop::Fault)
    }
}

/// How many iterations a loop's line says.
#[tactic(auto, unfolding(crate::specs::Reading::loop_of))]
pub(crate) fn loop_of(line: &[u8]) -> Result<u32, Stop>
    ensures { Gives (λ n. n) result (loop_of (split 32 line.now)) }
{
    let (name, rest) = next_word(line)?;
    let word = only_word(rest)?;
    let iterations = number_up_to(MAX_ITERATIONS, word)?;
    if is_text(name, "loop") {
        Ok(iterations)
    } else {
        Err(Stop::Fault)
    }
}
