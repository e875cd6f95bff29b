//! The program: a stack of its own, on which it makes the files and streams of the system and the two users' constraints
//! that every program can post, one call of `comet_run`, and its status.
#![tactic(auto)]

use cbl_io::{Files, RealFiles, RealSink, Sink};
use comet::{Cause, comet_run, say};
use main_constraints::{AllEqual, Increasing};
use std::alloc::{AllocError, Global};
use std::env;
use std::io::ErrorKind;
use std::process::ExitCode;
use std::rt::Env;
use std::thread::Builder;
use user_constraint::UserConstraint;

/// The bytes of the stack that a run gets. The deepest run takes a sixth of them (docs/PERFORMANCE.md).
const STACK_BYTES: usize = 16 << 20;

fn main(rt: HostRuntime) -> ExitCode {
    match Builder::new()
        .stack_size(STACK_BYTES)
        .spawn(&rt, move || run(rt))
    {
        Ok(run) => ExitCode::from(run.join(&rt)),
        Err(_) => ExitCode::from(refused(&Cause::NoMemory, &mut RealSink::new(rt.stderr()))),
    }
}

/// Runs what the command line says, and gives the run's status.
fn run(rt: HostRuntime) -> u8 {
    let mut err = RealSink::new(rt.stderr());
    let words = match words_of(&rt) {
        Ok(words) => words,
        Err(cause) => return refused(&cause, &mut err),
    };
    let mut files = RealFiles::new(rt.alloc(), rt);
    let mut out = RealSink::new(rt.stdout());
    match run_words(rt.alloc(), words.as_slice(), &mut files, &mut out, &mut err) {
        Ok(status) => status,
        Err(AllocError) => refused(&Cause::NoMemory, &mut err),
    }
}

/// Runs the program that the words name, with `allequal` and `increasing`, and gives the run's status.
fn run_words<F: Files, O: Sink, E: Sink>(
    alloc: Global,
    words: &[String],
    files: &mut F,
    out: &mut O,
    err: &mut E,
) -> Result<u8, AllocError> {
    let all_equal: Box<dyn UserConstraint> = Box::new(alloc, AllEqual::new(alloc))?;
    let increasing: Box<dyn UserConstraint> = Box::new(alloc, Increasing::new(alloc))?;
    let users = vec![in alloc; all_equal, increasing]?;
    Ok(comet_run(alloc, words, files, out, err, users).status)
}

/// Says why there is nothing to run, and gives the status.
fn refused<E: Sink>(cause: &Cause, err: &mut E) -> u8 {
    say(cause, err);
    cause.status()
}

/// The words behind the program's own name. A word that isn't UTF-8 is out of form.
fn words_of<R: Env + AllocGlobal>(rt: &R) -> Result<Vec<String>, Cause> {
    match env::args(rt) {
        Ok(words) => words
            .skip(1)
            .collect(rt.alloc())
            .map_err(|_| Cause::NoMemory),
        Err(error) if error.kind() == ErrorKind::OutOfMemory => Err(Cause::NoMemory),
        Err(_) => Err(Cause::Words),
    }
}
