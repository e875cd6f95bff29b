//! Requests, as the words of a line.
ghost use Rattle.std.specs.Prelude.{◌≡◌};
ghost use Rattle.best_monitor.specs.declared.request.Request.TheVariants.{Value, Second, Has, Stop as Stopping, Stopped};
ghost use Rattle.pool_monitor.specs.declared.request.PoolRequest.TheVariants.{Size};
ghost use Rattle.pool_monitor.specs.declared.request.DeskRequest.TheVariants.{Best, Pool};
ghost use Rattle.journal_text.specs.Refusal.{split};
ghost use Rattle.journal_text.specs.Reading.{Gives, field, index_of, number_of, signed_of, list_of, second_of, report_of, copy_of, add_of, rank_of, take_of, plain_of, pool_of, named_of, request_of};

use crate::cutting::{is_text, next_word};
use crate::numbers::{list_of, number_of, number_up_to, signed_of};
use crate::stop::Stop;
use crate::version::Version;
use best_monitor::Request;
use cbl_base::Numbers;
use pool_monitor::{DeskRequest, PoolRequest};
use std::alloc::Global;

/// The number that the first word says, of a monitor, a pool or an iteration, and the words behind it.
#[tactic(auto, unfolding(crate::specs::Reading::field))]
pub(crate) fn index_field(words: &[u8]) -> Result<(u32, &[u8]), Stop>
    ensures { Gives (λ r. (r.0, split 32 r.1.now)) result (field index_of (split 32 words.now)) }
{
    let (word, rest) = next_word(words)?;
    let index = number_up_to(u32::MAX, word)?;
    Ok((index, rest))
}

#[tactic(auto, unfolding(crate::specs::Reading::field))]
fn room_field(words: &[u8]) -> Result<(u64, &[u8]), Stop>
    ensures { Gives (λ r. (r.0, split 32 r.1.now)) result (field number_of (split 32 words.now)) }
{
    let (word, rest) = next_word(words)?;
    let room = number_of(word)?;
    Ok((room, rest))
}

#[tactic(auto, unfolding(crate::specs::Reading::field))]
fn value_field(words: &[u8]) -> Result<(i64, &[u8]), Stop>
    ensures { Gives (λ r. (r.0, split 32 r.1.now)) result (field signed_of (split 32 words.now)) }
{
    let (word, rest) = next_word(words)?;
    let value = signed_of(word)?;
    Ok((value, rest))
}

#[tactic(auto, unfolding(crate::specs::Reading::field))]
fn list_field(alloc: Global, words: &[u8]) -> Result<(Numbers, &[u8]), Stop>
    ensures { Gives (λ r. (r.0, split 32 r.1.now)) result (field list_of (split 32 words.now)) }
{
    let (word, rest) = next_word(words)?;
    let list = list_of(alloc, word)?;
    Ok((list, rest))
}

// The second value, which is 0 in a version that has none.
#[tactic(auto, unfolding(crate::specs::Reading::second_of))]
fn second_field<'a>(version: &Version, words: &'a [u8]) -> Result<(i64, &'a [u8]), Stop>
    ensures { Gives (λ r. (r.0, split 32 r.1.now)) result
        (second_of version.now (split 32 words.now)) }
{
    if version.has_seconds {
        value_field(words)
    } else {
        Ok((0, words))
    }
}

#[tactic(auto, unfolding(crate::specs::Reading::report_of))]
fn report_of<'a>(
    alloc: Global,
    version: &Version,
    words: &'a [u8],
) -> Result<(DeskRequest, &'a [u8]), Stop>
    ensures { Gives (λ r. (r.0, split 32 r.1.now)) result
        (report_of version.now (split 32 words.now)) }
{
    let (monitor, rest) = index_field(words)?;
    let (value, rest) = value_field(rest)?;
    let (second, rest) = second_field(version, rest)?;
    let (list, rest) = list_field(alloc, rest)?;
    let request = Request::Report {
        monitor,
        value,
        second,
        list,
    };
    Ok((DeskRequest::Best(request), rest))
}

#[tactic(auto, unfolding(crate::specs::Reading::copy_of))]
fn copy_of(words: &[u8]) -> Result<(DeskRequest, &[u8]), Stop>
    ensures { Gives (λ r. (r.0, split 32 r.1.now)) result (copy_of (split 32 words.now)) }
{
    let (monitor, rest) = index_field(words)?;
    let (room, rest) = room_field(rest)?;
    Ok((DeskRequest::Best(Request::Copy { monitor, room }), rest))
}

#[tactic(auto, unfolding(crate::specs::Reading::add_of))]
fn add_of(alloc: Global, words: &[u8]) -> Result<(DeskRequest, &[u8]), Stop>
    ensures { Gives (λ r. (r.0, split 32 r.1.now)) result (add_of (split 32 words.now)) }
{
    let (pool, rest) = index_field(words)?;
    let (value, rest) = value_field(rest)?;
    let (list, rest) = list_field(alloc, rest)?;
    Ok((
        DeskRequest::Pool(PoolRequest::Add { pool, value, list }),
        rest,
    ))
}

#[tactic(auto, unfolding(crate::specs::Reading::rank_of))]
fn rank_of(words: &[u8]) -> Result<(DeskRequest, &[u8]), Stop>
    ensures { Gives (λ r. (r.0, split 32 r.1.now)) result (rank_of (split 32 words.now)) }
{
    let (pool, rest) = index_field(words)?;
    let (rank, rest) = value_field(rest)?;
    Ok((DeskRequest::Pool(PoolRequest::Rank { pool, rank }), rest))
}

#[tactic(auto, unfolding(crate::specs::Reading::take_of))]
fn take_of(words: &[u8]) -> Result<(DeskRequest, &[u8]), Stop>
    ensures { Gives (λ r. (r.0, split 32 r.1.now)) result (take_of (split 32 words.now)) }
{
    let (pool, rest) = index_field(words)?;
    let (rank, rest) = value_field(rest)?;
    let (room, rest) = room_field(rest)?;
    Ok((
        DeskRequest::Pool(PoolRequest::Take { pool, rank, room }),
        rest,
    ))
}

#[tactic(auto, unfolding(crate::specs::Reading::plain_of))]
fn value_of(words: &[u8]) -> Result<(DeskRequest, &[u8]), Stop>
    ensures { Gives (λ r. (r.0, split 32 r.1.now)) result
        (plain_of (λ m. Best (Value m)) (split 32 words.now)) }
{
    let (index, rest) = index_field(words)?;
    Ok((DeskRequest::Best(Request::Value { monitor: index }), rest))
}

#[tactic(auto, unfolding(crate::specs::Reading::plain_of))]
fn second_of(words: &[u8]) -> Result<(DeskRequest, &[u8]), Stop>
    ensures { Gives (λ r. (r.0, split 32 r.1.now)) result
        (plain_of (λ m. Best (Second m)) (split 32 words.now)) }
{
    let (index, rest) = index_field(words)?;
    Ok((DeskRequest::Best(Request::Second { monitor: index }), rest))
}

#[tactic(auto, unfolding(crate::specs::Reading::plain_of))]
fn has_of(words: &[u8]) -> Result<(DeskRequest, &[u8]), Stop>
    ensures { Gives (λ r. (r.0, split 32 r.1.now)) result
        (plain_of (λ m. Best (Has m)) (split 32 words.now)) }
{
    let (index, rest) = index_field(words)?;
    Ok((DeskRequest::Best(Request::Has { monitor: index }), rest))
}

#[tactic(auto, unfolding(crate::specs::Reading::plain_of))]
fn stop_of(words: &[u8]) -> Result<(DeskRequest, &[u8]), Stop>
    ensures { Gives (λ r. (r.0, split 32 r.1.now)) result
        (plain_of (λ m. Best (Stopping m)) (split 32 words.now)) }
{
    let (index, rest) = index_field(words)?;
    Ok((DeskRequest::Best(Request::Stop { monitor: index }), rest))
}

#[tactic(auto, unfolding(crate::specs::Reading::plain_of))]
fn stopped_of(words: &[u8]) -> Result<(DeskRequest, &[u8]), Stop>
    ensures { Gives (λ r. (r.0, split 32 r.1.now)) result
        (plain_of (λ m. Best (Stopped m)) (split 32 words.now)) }
{
    let (index, rest) = index_field(words)?;
    Ok((DeskRequest::Best(Request::Stopped { monitor: index }), rest))
}

#[tactic(auto, unfolding(crate::specs::Reading::plain_of))]
fn size_of(words: &[u8]) -> Result<(DeskRequest, &[u8]), Stop>
    ensures { Gives (λ r. (r.0, split 32 r.1.now)) result
        (plain_of (λ m. Pool (Size m)) (split 32 words.now)) }
{
    let (index, rest) = index_field(words)?;
    Ok((DeskRequest::Pool(PoolRequest::Size { pool: index }), rest))
}

// The request to a pool of this name.
fn pool_of<'a>(alloc: Global, name: &[u8], words: &'a [u8]) -> Result<(DeskRequest, &'a [u8]), Stop>
    ensures { Gives (λ r. (r.0, split 32 r.1.now)) result (pool_of name.now (split 32 words.now)) }
{
    if is_text(name, "add") {
        return add_of(alloc, words);
    }
    if is_text(name, "size") {
        return size_of(words);
    }
    if is_text(name, "rank") {
        return rank_of(words);
    }
    if is_text(name, "take") {
        return take_of(words);
    }
    Err(Stop::Fault)
}

// The request of this name.
fn named_of<'a>(
    alloc: Global,
    version: &Version,
    name: &[u8],
    words: &'a [u8],
) -> Result<(DeskRequest, &'a [u8]), Stop>
    ensures { Gives (λ r. (r.0, split 32 r.1.now)) result
        (named_of version.now name.now (split 32 words.now)) }
{
    if is_text(name, "report") {
        return report_of(alloc, version, words);
    }
    if is_text(name, "value") {
        return value_of(words);
    }
    if is_text(name, "second") {
        return second_of(words);
    }
    if is_text(name, "has") {
        return has_of(words);
    }
    if is_text(name, "copy") {
        return copy_of(words);
    }
    if is_text(name, "stop") {
        return stop_of(words);
    }
    if is_text(name, "stopped") {
        return stopped_of(words);
    }
    pool_of(alloc, name, words)
}

/// The request that the first words are, and the words behind it.
#[tactic(auto, unfolding(crate::specs::Reading::request_of))]
pub(crate) fn request_of<'a>(
    alloc: Global,
    version: &Version,
    words: &'a [u8],
) -> Result<(DeskRequest, &'a [u8]), Stop>
    ensures { Gives (λ r. (r.0, split 32 r.1.now)) result
        (request_of version.now (split 32 words.now)) }
{
    let (name, rest) = next_word(words)?;
    named_of(alloc, version, name, rest)
}
