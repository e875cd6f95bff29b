//! How long a store over queens takes.

mod asking;
mod linking;
mod moves;
mod one_list;
mod parts;
mod pieces;
mod queens;

use crate::stop::Stop;
use crate::store::asking::time_queens;
use std::time::CpuClock;

/// Times a store over as many queens as each word says, and prints a line for each: nanoseconds of the processor of a
/// probe of one assignment, of a probe of a swap, and of a commit of one assignment.
pub(crate) fn time_stores<R: CpuClock + Print + AllocGlobal>(
    rt: &R,
    words: &[String],
) -> Result<(), Stop> {
    for word in words {
        let count = word.parse::<u32>().map_err(|_| Stop::Words)?;
        time_queens(rt, count)?;
    }
    Ok(())
}
