//! A journal, read line by line.
ghost use Rattle.std.specs.Prelude.{◌≡◌, ◌++◌, ◌∷◌, [], List, Some, Ok};
ghost use Rattle.pool_monitor.specs.declared.journal.LoopHistory.{LoopHistory};
ghost use Rattle.journal_text.specs.declared.reader.Reader.TheVariants.{Between, Ended};
ghost use Rattle.journal_text.specs.Grammar.{Spells};
ghost use Rattle.journal_text.specs.Refusal.{split, IsReading, Told};
ghost use Rattle.journal_text.specs.Reading.{Gives};
ghost use Rattle.journal_text.specs.Steps.{opens, adds, begins_loop, in_loop, step, finished, pieces_of, journal_of, Reads};

use crate::cutting::{cut, is_text};
use crate::entries::{entry_of, loop_of};
use crate::stop::{JournalStop, Stop};
use crate::version::{Version, version_of};
use pool_monitor::{Entries, Journal, LoopHistory};
use std::alloc::Global;

/// What was read so far, behind the header.
#[derive(Drop)]
pub(crate) enum Reader {
    /// These loops, behind which no entry stands yet.
    Between(Journal),
    /// The same, and then a loop to which entries may be added.
    Open(Journal, LoopHistory),
    /// All of the journal.
    Ended(Journal),
}

fn begins_loop(line: &[u8]) -> bool
    ensures { result ≡ begins_loop line.now }
{
    match line.first() {
        Some(byte) => *byte == b'l',
        None => false,
    }
}

// A loop without entries, whose line this is.
#[tactic(auto, unfolding(crate::specs::Steps::opens))]
fn begin_loop(alloc: Global, journal: Journal, line: &[u8]) -> Result<Reader, Stop>
    ensures { Gives (λ r. r) result (opens journal line.now) }
{
    let iterations = loop_of(line)?;
    let entries = Entries::from_vec(Vec::new(alloc));
    Ok(Reader::Open(
        journal,
        LoopHistory {
            iterations,
            entries,
        },
    ))
}

// The loop with the entry that the line is.
#[tactic(auto, unfolding(crate::specs::Steps::adds))]
fn add_entry(
    alloc: Global,
    version: &Version,
    journal: Journal,
    history: LoopHistory,
    line: &[u8],
) -> Result<Reader, Stop>
    ensures { Gives (λ r. r) result (adds version.now journal history line.now) }
{
    let LoopHistory {
        iterations,
        entries,
    } = history;
    let entry = entry_of(alloc, version, iterations, line)?;
    let mut entries = entries.into_vec();
    entries.push(entry)?;
    let entries = Entries::from_vec(entries);
    Ok(Reader::Open(
        journal,
        LoopHistory {
            iterations,
            entries,
        },
    ))
}

// A line behind a loop or its entries, but for the last line.
fn go_on(
    alloc: Global,
    version: &Version,
    mut journal: Journal,
    history: LoopHistory,
    line: &[u8],
) -> Result<Reader, Stop>
    ensures { Gives (λ r. r) result (in_loop version.now journal history line.now) }
{
    if !begins_loop(line) {
        return add_entry(alloc, version, journal, history, line);
    }
    journal.push(history)?;
    begin_loop(alloc, journal, line)
}

fn close_last(mut journal: Journal, history: LoopHistory) -> Result<Reader, Stop>
    ensures { Gives (λ r. r) result (Some (Ended (journal ++ history ∷ []))) }
{
    journal.push(history)?;
    Ok(Reader::Ended(journal))
}

// What was read, with one line more.
fn step(alloc: Global, version: &Version, reader: Reader, line: &[u8]) -> Result<Reader, Stop>
    ensures { Gives (λ r. r) result (step version.now reader line.now) }
{
    match reader {
        Reader::Between(journal) => {
            if is_text(line, "end") {
                Ok(Reader::Ended(journal))
            } else {
                begin_loop(alloc, journal, line)
            }
        }
        Reader::Open(journal, history) => {
            if is_text(line, "end") {
                close_last(journal, history)
            } else {
                go_on(alloc, version, journal, history, line)
            }
        }
        Reader::Ended(_) => Err(Stop::Fault),
    }
}

// The end of a text: what is left has no line feed.
fn finish(reader: Reader, rest: &[u8], line: u64) -> Result<Journal, JournalStop>
    ensures { Reads result (finished line reader rest.now) }
{
    match reader {
        Reader::Ended(journal) => {
            if rest.is_empty() {
                Ok(journal)
            } else {
                Err(JournalStop::Fault { line })
            }
        }
        Reader::Between(_) => Err(JournalStop::Fault { line }),
        Reader::Open(_, _) => Err(JournalStop::Fault { line }),
    }
}

// The lines behind the header, of which the first is the text's second.
#[tactic(auto, using(crate::proofs::LineLaws::line_more, crate::proofs::LineLaws::line_fault, crate::proofs::LineLaws::line_last))]
fn read_lines(alloc: Global, version: &Version, lines: &[u8]) -> Result<Journal, JournalStop>
    ensures { Reads result (pieces_of version.now 2 (Between []) (split 10 lines.now)) }
{
    let mut reader = Reader::Between(Journal::new(alloc));
    let mut rest = lines;
    for line in 2..u64::MAX {
        let Some((front, behind)) = cut(rest, b'\n') else {
            return finish(reader, rest, line);
        };
        reader = match step(alloc, version, reader, front) {
            Ok(next) => next,
            Err(Stop::NoMemory) => return Err(JournalStop::NoMemory),
            Err(Stop::Fault) => return Err(JournalStop::Fault { line }),
        };
        rest = behind;
    }
    Err(JournalStop::NoMemory)
}

#[tactic(auto, using(crate::proofs::TextLaws::headed_text, crate::proofs::TextLaws::no_header, crate::proofs::TextLaws::no_line))]
fn read_text(alloc: Global, text: &[u8]) -> Result<Journal, JournalStop>
    ensures { Reads result (journal_of (split 10 text.now)) }
{
    let Some((front, lines)) = cut(text, b'\n') else {
        return Err(JournalStop::Fault { line: 1 });
    };
    match version_of(front) {
        Some(version) => read_lines(alloc, &version, lines),
        None => Err(JournalStop::Fault { line: 1 }),
    }
}

/// The journal that a text spells in one of the versions, without second values where the version has none.
/// `Fault` comes exactly where the text spells none within the bounds, at the first line through which no
/// journal begins so; the rest behind the last line feed counts as the last line, together with the end of
/// the text. `NoMemory` where there is none for the journal.
pub fn read(alloc: Global, text: &[u8]) -> Result<Journal, JournalStop>
    ensures reading { Told result (IsReading text.now) }
    ensures only { (journal : List LoopHistory) → Spells text.now journal →
        Told result (λ told. told ≡ Ok journal) }
{
    read_text(alloc, text)
}
