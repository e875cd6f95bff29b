//! Reads a table of programs and what checking says of each, checks each program, and prints where the two differ.
//!
//! A row is `ok` or a code, and a program. The sign `^` stands before the token that is refused and is no part of
//! the program; the sign `~` stands for a line feed. A line that begins with `#` is none.
#![tactic(auto)]

use cbl_base::{NoMemory, Place};
use comet_parse::parse;
use comet_syntax::{MOST_BYTES, lex};
use comet_types::{CheckStop, check};
use std::alloc::Global;
use std::process::ExitCode;
use table_file::{Stop, status_of, table_of};

/// What is said of a program.
#[derive(Clone, Copy, PartialEq, Eq, Debug)]
enum Said {
    Accepted,
    /// By its code, from 1 to 12, at a place.
    Refused(u8, Place),
    /// The program has no tree.
    NoTree,
    NoMemory,
}

/// A row of the table.
#[derive(Drop)]
struct Row {
    said: Said,
    program: Vec<u8>,
}

/// The program of a row, and the place of its mark.
fn unmark(alloc: Global, marked: &[u8]) -> Result<(Vec<u8>, Place), NoMemory> {
    let mut program = Vec::new(alloc);
    let mut mark = Place { line: 0, col: 0 };
    let mut here = Place { line: 1, col: 1 };
    for byte in marked {
        match *byte {
            b'^' => mark = here,
            b'~' => {
                program.push(b'\n')?;
                here = Place {
                    line: here.line.saturating_add(1),
                    col: 1,
                };
            }
            other => {
                program.push(other)?;
                here = Place {
                    line: here.line,
                    col: here.col.saturating_add(1),
                };
            }
        }
    }
    Ok((program, mark))
}

/// The row of a line. `None` where it is none.
fn row_of(alloc: Global, line: &str) -> Result<Option<Row>, NoMemory> {
    let Some((said, marked)) = line.split_once(' ') else {
        return Ok(None);
    };
    if said == "ok" {
        let (program, _) = unmark(alloc, marked.as_bytes())?;
        return Ok(Some(Row {
            said: Said::Accepted,
            program,
        }));
    }
    let Some(digits) = said.strip_prefix("T") else {
        return Ok(None);
    };
    let Ok(code) = digits.parse::<u8>() else {
        return Ok(None);
    };
    let (program, place) = unmark(alloc, marked.as_bytes())?;
    Ok(Some(Row {
        said: Said::Refused(code, place),
        program,
    }))
}

/// What checking says of a program.
fn said_of(alloc: Global, program: &[u8]) -> Said {
    let Ok(tokens) = lex(alloc, program) else {
        return Said::NoTree;
    };
    if tokens.len() > MOST_BYTES {
        return Said::NoTree;
    }
    let Ok(tree) = parse(alloc, tokens.as_slice()) else {
        return Said::NoTree;
    };
    match check(alloc, tree) {
        Ok(_) => Said::Accepted,
        Err(CheckStop::Fault(place, code)) => Said::Refused(code, place),
        Err(CheckStop::NoMemory) => Said::NoMemory,
    }
}

/// Checks each program, prints what differs, and says whether nothing does.
fn check_table<R: Print + AllocGlobal>(rt: &R, table: &str) -> Result<bool, Stop> {
    let alloc = rt.alloc();
    let mut rows = 0u32;
    let mut differ = 0u32;
    for line in table.lines() {
        let Some(row) = row_of(alloc, line)? else {
            continue;
        };
        rows = rows.saturating_add(1);
        let said = said_of(alloc, row.program.as_slice());
        if said != row.said {
            differ = differ.saturating_add(1);
            println!(rt; "{line}: {said:?}")?;
        }
    }
    println!(rt; "{rows} rows, {differ} differ")?;
    Ok(differ == 0)
}

fn main(rt: HostRuntime) -> ExitCode {
    let good = match table_of(&rt) {
        Ok(table) => check_table(&rt, table.as_str()),
        Err(stop) => Err(stop),
    };
    status_of(good)
}
