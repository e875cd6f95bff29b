//! The text of a journal, and of its parts.
ghost use Rattle.std.specs.Prelude.{◌≡◌, ◌++◌, ◌∷◌, [], IfOk, OnOk, map, codes, if◌then◌else◌};
ghost use Rattle.std.specs.Fmt.{decimal, signed_decimal};
ghost use Rattle.std.specs.List.{flat_map};
ghost use Rattle.journal_text.specs.Texts.{joined, list_text, second_words, best_words, pool_words, request_words, request_text, reply_text, loop_text};
ghost use Rattle.journal_text.specs.Grammar.{entry_line, loop_lines, ended, journal_text};
ghost use Rattle.journal_text.specs.Printed.{asks_pool, entries_ask_pool, loops_ask_pool, version_for, printed};

use crate::version::{VERSION_2, VERSION_3, Version};
use best_monitor::{Reply, Request};
use best_turn::Entry;
use cbl_base::{NoMemory, Text};
use itoa::Buffer;
use pool_monitor::{DeskRequest, Journal, LoopHistory, PoolRequest};
use std::alloc::Global;

fn push_bytes(out: &mut Vec<u8>, bytes: &[u8]) -> Result<(), NoMemory>
    ensures { OnOk result (out.new.items ≡ out.old.items ++ bytes.now) }
{
    out.extend_from_slice(bytes)?;
    Ok(())
}

fn push_text(out: &mut Vec<u8>, text: &str) -> Result<(), NoMemory>
    ensures { OnOk result (out.new.items ≡ out.old.items ++ text.now) }
{
    push_bytes(out, text.as_bytes())
}

fn push_unsigned(out: &mut Vec<u8>, number: u64) -> Result<(), NoMemory>
    ensures { OnOk result (out.new.items ≡ out.old.items ++ decimal number) }
{
    let mut buffer = Buffer::new();
    push_text(out, buffer.format(number))
}

fn push_signed(out: &mut Vec<u8>, number: i64) -> Result<(), NoMemory>
    ensures { OnOk result (out.new.items ≡ out.old.items ++ signed_decimal number) }
{
    let mut buffer = Buffer::new();
    push_text(out, buffer.format(number))
}

// A space, and a number.
fn push_field(out: &mut Vec<u8>, number: u64) -> Result<(), NoMemory>
    ensures { OnOk result (out.new.items ≡ out.old.items ++ 32 ∷ decimal number) }
{
    push_text(out, " ")?;
    push_unsigned(out, number)
}

// A space, and a signed number.
fn push_value(out: &mut Vec<u8>, number: i64) -> Result<(), NoMemory>
    ensures { OnOk result (out.new.items ≡ out.old.items ++ 32 ∷ signed_decimal number) }
{
    push_text(out, " ")?;
    push_signed(out, number)
}

// Numbers, each behind a comma.
#[tactic(auto, using(crate::proofs::PrintLaws::rest_more))]
fn push_rest(out: &mut Vec<u8>, numbers: &[i64]) -> Result<(), NoMemory>
    ensures { OnOk result (out.new.items ≡
        out.old.items ++ flat_map (λ z. 44 ∷ signed_decimal z) numbers.now) }
{
    for number in numbers {
        push_text(out, ",")?;
        push_signed(out, *number)?;
    }
    Ok(())
}

#[tactic(auto, using(crate::proofs::PrintLaws::items_text))]
fn push_items(out: &mut Vec<u8>, numbers: &[i64]) -> Result<(), NoMemory>
    ensures { OnOk result (out.new.items ≡
        out.old.items ++ joined 44 (map signed_decimal numbers.now)) }
{
    match numbers {
        [] => Ok(()),
        [first, rest @ ..] => {
            push_signed(out, *first)?;
            push_rest(out, rest)
        }
    }
}

fn push_list(out: &mut Vec<u8>, numbers: &[i64]) -> Result<(), NoMemory>
    ensures { OnOk result (out.new.items ≡ out.old.items ++ list_text numbers.now) }
{
    push_text(out, "[")?;
    push_items(out, numbers)?;
    push_text(out, "]")
}

// A word, and a number.
fn push_named(out: &mut Vec<u8>, name: &str, number: u64) -> Result<(), NoMemory>
    ensures { OnOk result (out.new.items ≡
        out.old.items ++ joined 32 (name.now ∷ decimal number ∷ [])) }
{
    push_text(out, name)?;
    push_field(out, number)
}

// A word, a number and a value.
fn push_valued(out: &mut Vec<u8>, name: &str, number: u64, value: i64) -> Result<(), NoMemory>
    ensures { OnOk result (out.new.items ≡
        out.old.items ++ joined 32 (name.now ∷ decimal number ∷ signed_decimal value ∷ [])) }
{
    push_named(out, name, number)?;
    push_value(out, value)
}

// A second value behind the first, in a version that has them.
fn push_second(out: &mut Vec<u8>, version: &Version, second: i64) -> Result<(), NoMemory>
    ensures { OnOk result (out.new.items ≡
        out.old.items ++ (if version.now.has_seconds then 32 ∷ signed_decimal second else [])) }
{
    if version.has_seconds {
        push_value(out, second)
    } else {
        Ok(())
    }
}

// A list behind a space.
fn push_last_list(out: &mut Vec<u8>, list: &[i64]) -> Result<(), NoMemory>
    ensures { OnOk result (out.new.items ≡ out.old.items ++ 32 ∷ list_text list.now) }
{
    push_text(out, " ")?;
    push_list(out, list)
}

#[tactic(auto, using(crate::proofs::PrintLaws::report_text))]
fn push_report(
    out: &mut Vec<u8>,
    version: &Version,
    monitor: u32,
    value: i64,
    second: i64,
    list: &[i64],
) -> Result<(), NoMemory>
    ensures { OnOk result (out.new.items ≡ out.old.items ++ joined 32 (codes "report" ∷
        decimal monitor ∷ signed_decimal value ∷
        (second_words version.now second ++ list_text list.now ∷ []))) }
{
    push_valued(out, "report", u64::from(monitor), value)?;
    push_second(out, version, second)?;
    push_last_list(out, list)
}

fn push_copy(out: &mut Vec<u8>, monitor: u32, room: u64) -> Result<(), NoMemory>
    ensures { OnOk result (out.new.items ≡
        out.old.items ++ joined 32 (codes "copy" ∷ decimal monitor ∷ decimal room ∷ [])) }
{
    push_named(out, "copy", u64::from(monitor))?;
    push_field(out, room)
}

fn push_add(out: &mut Vec<u8>, pool: u32, value: i64, list: &[i64]) -> Result<(), NoMemory>
    ensures { OnOk result (out.new.items ≡ out.old.items ++ joined 32 (codes "add" ∷
        decimal pool ∷ signed_decimal value ∷ list_text list.now ∷ [])) }
{
    push_valued(out, "add", u64::from(pool), value)?;
    push_last_list(out, list)
}

fn push_take(out: &mut Vec<u8>, pool: u32, rank: i64, room: u64) -> Result<(), NoMemory>
    ensures { OnOk result (out.new.items ≡ out.old.items ++ joined 32 (codes "take" ∷
        decimal pool ∷ signed_decimal rank ∷ decimal room ∷ [])) }
{
    push_valued(out, "take", u64::from(pool), rank)?;
    push_field(out, room)
}

fn push_best(out: &mut Vec<u8>, version: &Version, request: &Request) -> Result<(), NoMemory>
    ensures { OnOk result (out.new.items ≡
        out.old.items ++ joined 32 (best_words version.now request.now)) }
{
    match request {
        Request::Report {
            monitor,
            value,
            second,
            list,
        } => push_report(out, version, *monitor, *value, *second, list.as_slice()),
        Request::Value { monitor } => push_named(out, "value", u64::from(*monitor)),
        Request::Second { monitor } => push_named(out, "second", u64::from(*monitor)),
        Request::Has { monitor } => push_named(out, "has", u64::from(*monitor)),
        Request::Copy { monitor, room } => push_copy(out, *monitor, *room),
        Request::Stop { monitor } => push_named(out, "stop", u64::from(*monitor)),
        Request::Stopped { monitor } => push_named(out, "stopped", u64::from(*monitor)),
    }
}

fn push_pool(out: &mut Vec<u8>, request: &PoolRequest) -> Result<(), NoMemory>
    ensures { OnOk result (out.new.items ≡ out.old.items ++ joined 32 (pool_words request.now)) }
{
    match request {
        PoolRequest::Add { pool, value, list } => push_add(out, *pool, *value, list.as_slice()),
        PoolRequest::Size { pool } => push_named(out, "size", u64::from(*pool)),
        PoolRequest::Rank { pool, rank } => push_valued(out, "rank", u64::from(*pool), *rank),
        PoolRequest::Take { pool, rank, room } => push_take(out, *pool, *rank, *room),
    }
}

fn push_request(out: &mut Vec<u8>, version: &Version, request: &DeskRequest) -> Result<(), NoMemory>
    ensures { OnOk result (out.new.items ≡
        out.old.items ++ joined 32 (request_words version.now request.now)) }
{
    match request {
        DeskRequest::Best(request) => push_best(out, version, request),
        DeskRequest::Pool(request) => push_pool(out, request),
    }
}

fn push_reply(out: &mut Vec<u8>, reply: &Reply) -> Result<(), NoMemory>
    ensures { OnOk result (out.new.items ≡ out.old.items ++ reply_text reply.now) }
{
    match reply {
        Reply::Truth(true) => push_text(out, "true"),
        Reply::Truth(false) => push_text(out, "false"),
        Reply::Number(number) => push_signed(out, *number),
        Reply::List(list) => push_list(out, list.as_slice()),
        Reply::Missing => push_text(out, "none"),
        Reply::Long(length) => push_named(out, "long", *length),
        Reply::Done => push_text(out, "ok"),
    }
}

// The line of an entry, with a line feed behind it.
#[tactic(auto, using(crate::proofs::PrintLaws::pushed_entry))]
fn push_entry(
    out: &mut Vec<u8>,
    version: &Version,
    entry: &Entry<DeskRequest, Reply>,
) -> Result<(), NoMemory>
    ensures { OnOk result (out.new.items ≡
        out.old.items ++ (entry_line version.now entry.now ++ codes "\n")) }
{
    push_unsigned(out, u64::from(entry.iteration))?;
    push_text(out, " ")?;
    push_request(out, version, &entry.request)?;
    push_text(out, " -> ")?;
    push_reply(out, &entry.reply)?;
    push_text(out, "\n")
}

#[tactic(auto, using(crate::proofs::PrintLaws::entries_more))]
fn push_entries(
    out: &mut Vec<u8>,
    version: &Version,
    entries: &[Entry<DeskRequest, Reply>],
) -> Result<(), NoMemory>
    ensures { OnOk result (out.new.items ≡
        out.old.items ++ ended (map (entry_line version.now) entries.now)) }
{
    for entry in entries {
        push_entry(out, version, entry)?;
    }
    Ok(())
}

#[tactic(auto, using(crate::proofs::PrintLaws::pushed_loop))]
fn push_loop(out: &mut Vec<u8>, version: &Version, history: &LoopHistory) -> Result<(), NoMemory>
    ensures { OnOk result (out.new.items ≡
        out.old.items ++ ended (loop_lines version.now history.now)) }
{
    push_named(out, "loop", u64::from(history.iterations))?;
    push_text(out, "\n")?;
    push_entries(out, version, history.entries.as_slice())
}

#[tactic(auto, using(crate::proofs::PrintLaws::loops_more))]
fn push_loops(out: &mut Vec<u8>, version: &Version, loops: &[LoopHistory]) -> Result<(), NoMemory>
    ensures { OnOk result (out.new.items ≡
        out.old.items ++ ended (flat_map (loop_lines version.now) loops.now)) }
{
    for history in loops {
        push_loop(out, version, history)?;
    }
    Ok(())
}

fn push_journal(out: &mut Vec<u8>, version: &Version, loops: &[LoopHistory]) -> Result<(), NoMemory>
    ensures { OnOk result (out.new.items ≡
        out.old.items ++ journal_text version.now loops.now) }
{
    push_bytes(out, &version.header)?;
    push_text(out, "\n")?;
    push_loops(out, version, loops)?;
    push_text(out, "end\n")
}

fn asks_pool(request: &DeskRequest) -> bool
    ensures { result ≡ asks_pool request.now }
{
    match request {
        DeskRequest::Best(_) => false,
        DeskRequest::Pool(_) => true,
    }
}

fn entries_ask_pool(entries: &[Entry<DeskRequest, Reply>]) -> bool
    ensures { result ≡ entries_ask_pool entries.now }
{
    for entry in entries {
        if asks_pool(&entry.request) {
            return true;
        }
    }
    false
}

fn loops_ask_pool(loops: &[LoopHistory]) -> bool
    ensures { result ≡ loops_ask_pool loops.now }
{
    for history in loops {
        if entries_ask_pool(history.entries.as_slice()) {
            return true;
        }
    }
    false
}

// The version in which these loops are printed.
fn version_for(loops: &[LoopHistory]) -> Version
    ensures { result ≡ version_for loops.now }
{
    if loops_ask_pool(loops) {
        VERSION_3
    } else {
        VERSION_2
    }
}

/// The journal's text: in the second version where no pool is asked in it, else in the third.
pub fn print(alloc: Global, journal: &Journal) -> Result<Text, NoMemory>
    ensures { IfOk result (λ text. text ≡ printed journal.now) }
{
    let mut out = Vec::new(alloc);
    let version = version_for(journal.as_slice());
    push_journal(&mut out, &version, journal.as_slice())?;
    Text::from_slice(alloc, out.as_slice())
}

/// How a journal of the third version writes a request.
pub fn print_request(alloc: Global, request: &DeskRequest) -> Result<Text, NoMemory>
    ensures { IfOk result (λ text. text ≡ request_text request.now) }
{
    let mut out = Vec::new(alloc);
    push_request(&mut out, &VERSION_3, request)?;
    Text::from_slice(alloc, out.as_slice())
}

/// How a journal writes a reply.
pub fn print_reply(alloc: Global, reply: &Reply) -> Result<Text, NoMemory>
    ensures { IfOk result (λ text. text ≡ reply_text reply.now) }
{
    let mut out = Vec::new(alloc);
    push_reply(&mut out, reply)?;
    Text::from_slice(alloc, out.as_slice())
}

/// The line with which a journal begins a loop of `n` iterations, without its line feed.
pub fn loop_line(alloc: Global, n: u32) -> Result<Text, NoMemory>
    ensures { IfOk result (λ text. text ≡ loop_text n) }
{
    let mut out = Vec::new(alloc);
    push_named(&mut out, "loop", u64::from(n))?;
    Text::from_slice(alloc, out.as_slice())
}
