//! How long one probe and one apply of one change take, for each kind of node.

mod kinds;
mod sample;
mod timing;

use crate::nodes::kinds::{KINDS, Shape, time_kind};
use crate::nodes::timing::Times;
use crate::stop::Stop;
use std::alloc::Global;
use std::time::CpuClock;

/// Prints a line for each kind of node, with nanoseconds of the processor for each number of inputs that the
/// words say, from 2 to 1,000,000. What takes two numbers stands in the first column alone.
pub(crate) fn time_nodes<R: CpuClock + Print + AllocGlobal>(
    rt: &R,
    words: &[String],
) -> Result<(), Stop> {
    let sizes = sizes_of(rt.alloc(), words)?;
    print_heads(rt, sizes.as_slice())?;
    for (name, operation, shape) in &KINDS {
        print!(rt; "{name:<16}")?;
        for (column, size) in sizes.iter().enumerate() {
            if column == 0 || !matches!(shape, Shape::Pair) {
                let times = time_kind(rt, rt.alloc(), operation, *shape, *size)?;
                print!(rt; "{:>11}{:>11}", times.probe, times.apply)?;
            }
        }
        println!(rt; "")?;
    }
    Ok(())
}

/// Prints what stands above the lines.
fn print_heads<R: Print>(rt: &R, sizes: &[u32]) -> Result<(), Stop> {
    print!(rt; "{:<16}", "inputs")?;
    for size in sizes {
        print!(rt; "{size:>22}")?;
    }
    print!(rt; "\n{:<16}", "operation")?;
    for _size in sizes {
        print!(rt; "{:>11}{:>11}", "probe", "apply")?;
    }
    println!(rt; "")?;
    Ok(())
}

/// The numbers of inputs that the words say.
fn sizes_of(alloc: Global, words: &[String]) -> Result<Vec<u32>, Stop> {
    let mut sizes = Vec::new(alloc);
    for word in words {
        sizes.push(word.parse::<u32>().map_err(|_| Stop::Words)?)?;
    }
    Ok(sizes)
}
