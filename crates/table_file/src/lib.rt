//! What the programs that read a table of cases share: why one stops, the table that its first word names, and
//! the status that it ends with.
//!
//! It knows nothing of what a table says. The programs above use `table_of`, and `Stop` for their own refusals.
#![tactic(auto)]

use cbl_base::NoMemory;
use std::alloc::{AllocError, AllocFailed};
use std::process::ExitCode;
use std::{env, fs, io};

/// Why a table isn't read to its end.
#[derive(Clone, Copy, PartialEq, Eq, Debug)]
pub enum Stop {
    NoMemory,
    /// The system gave no table, or took no text.
    System,
    /// No word names a table, or a line isn't in form.
    Form,
}

impl From<NoMemory> for Stop {
    fn from(_error: NoMemory) -> Stop {
        Stop::NoMemory
    }
}

impl From<AllocError> for Stop {
    fn from(_error: AllocError) -> Stop {
        Stop::NoMemory
    }
}

impl<T: Drop> From<AllocFailed<T>> for Stop {
    fn from(_error: AllocFailed<T>) -> Stop {
        Stop::NoMemory
    }
}

impl From<io::Error> for Stop {
    fn from(_error: io::Error) -> Stop {
        Stop::System
    }
}

/// The text of the table that the first word names. `Form` where there is no word, `System` where the system
/// doesn't give the words or the file, or the file isn't UTF-8.
pub fn table_of(rt: &HostRuntime) -> Result<String, Stop> {
    let mut words = env::args(rt)?.skip(1);
    match words.next() {
        Some(name) => Ok(fs::read_to_string(rt, name.as_str())?),
        None => Err(Stop::Form),
    }
}

/// The status of a program that read a table: success where every case was as it should be.
pub fn status_of(good: Result<bool, Stop>) -> ExitCode {
    match good {
        Ok(true) => ExitCode::SUCCESS,
        _ => ExitCode::FAILURE,
    }
}
