//! Reads short texts, and says which has another tree or another refusal than it should: the word names the
//! table of texts, whose head says how it is written.
//!
//! It knows nothing of how a text is read. The program prints a line for each text that differs and then how
//! many there are, and ends with the status 1 where one differs or where the table isn't in form.
#![tactic(auto)]

mod notation;
mod reading;

use crate::notation::bytes_of;
use crate::reading::answer_of;
use std::process::ExitCode;
use table_file::{Stop, status_of, table_of};
use tree_writer::Places;

/// What the answers of a table are compared with.
#[derive(Clone, Copy, PartialEq, Eq, Debug)]
enum Row<'a> {
    Text(&'a str),
    Answer(Places, &'a str),
    Comment,
}

/// What a line of a table says.
fn row_of(line: &str) -> Result<Row<'_>, Stop> {
    let (sign, rest) = line.split_once(' ').unwrap_or((line, ""));
    match sign {
        "<" => Ok(Row::Text(rest)),
        ">" | "!" => Ok(Row::Answer(Places::Omitted, rest)),
        "@" => Ok(Row::Answer(Places::Written, rest)),
        "" => Ok(Row::Comment),
        _ if sign.starts_with('#') => Ok(Row::Comment),
        _ => Err(Stop::Form),
    }
}

/// Reads each text, prints what differs, and says whether nothing does.
fn read_table<R: Print + AllocGlobal>(rt: &R, table: &str) -> Result<bool, Stop> {
    let alloc = rt.alloc();
    let mut text = String::new(alloc);
    let mut texts = 0u32;
    let mut good = true;
    for line in table.lines() {
        match row_of(line)? {
            Row::Text(next) => text = String::from_str(alloc, next)?,
            Row::Answer(places, wanted) => {
                texts = texts.saturating_add(1);
                good = is_answer(rt, text.as_str(), places, wanted)? && good;
            }
            Row::Comment => {}
        }
    }
    println!(rt; "{texts} texts")?;
    Ok(good)
}

/// Whether that is what comes of a text. It prints what does, where it isn't.
fn is_answer<R: Print + AllocGlobal>(
    rt: &R,
    text: &str,
    places: Places,
    wanted: &str,
) -> Result<bool, Stop> {
    let alloc = rt.alloc();
    let found = answer_of(alloc, bytes_of(alloc, text)?.as_slice(), places)?;
    if found.as_slice() == bytes_of(alloc, wanted)?.as_slice() {
        return Ok(true);
    }
    let found = str::from_utf8(found.as_slice()).unwrap_or("no text");
    println!(rt; "{text}\n  wanted {wanted}\n  found  {found}")?;
    Ok(false)
}

fn main(rt: HostRuntime) -> ExitCode {
    let good = match table_of(&rt) {
        Ok(table) => read_table(&rt, table.as_str()),
        Err(stop) => Err(stop),
    };
    status_of(good)
}
