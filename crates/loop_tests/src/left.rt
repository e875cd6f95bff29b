//! The journal that a loop leaves.
use crate::loops::report_all;
use best_monitor::{Reply, Request};
use best_turn::Entry;
use cbl_base::{NoMemory, Text};
use journal_text::print;
use parall_loop::{LoopResult, OpenGate};
use pool_monitor::{DeskRequest, Entries, Journal, LoopHistory};
use std::alloc::Global;
use std::test::*;

// The text of the journal of one loop over a board.
fn text_of_loop(
    alloc: Global,
    iterations: u32,
    history: Vec<Entry<Request, Reply>>,
) -> Result<Text, NoMemory> {
    let mut entries = Vec::new(alloc);
    for entry in history {
        entries.push(Entry {
            iteration: entry.iteration,
            request: DeskRequest::Best(entry.request),
            reply: entry.reply,
        })?;
    }
    let mut journal = Journal::new(alloc);
    journal.push(LoopHistory {
        iterations,
        entries: Entries::from_vec(entries),
    })?;
    print(alloc, &journal)
}

// The language's example of a journal.
static EXAMPLE: &str =
    "comet journal 2\nloop 4\n0 report 0 4 0 [1] -> true\n1 report 0 1 0 [2] -> true\n2 report 0 0 0 [3] -> true\n3 report 0 1 0 [4] -> false\nend\n";

#[test]
fn a_loop_of_one_worker_leaves_the_example(rt: HostRuntime) -> Result<(), Fail> {
    let LoopResult {
        outcomes: _,
        state: _,
        history,
    } = report_all(&rt, rt.alloc(), &OpenGate, 4, 1)?;
    let text = text_of_loop(rt.alloc(), 4, history)?;
    assert!(rt; text.as_slice() == EXAMPLE.as_bytes());
    Ok(())
}

#[test]
fn a_loop_of_no_iterations_leaves_its_line(rt: HostRuntime) -> Result<(), Fail> {
    let LoopResult {
        outcomes,
        state: _,
        history,
    } = report_all(&rt, rt.alloc(), &OpenGate, 0, 4)?;
    assert!(rt; outcomes.is_empty());
    let text = text_of_loop(rt.alloc(), 0, history)?;
    assert!(rt; text.as_slice() == b"comet journal 2\nloop 0\nend\n".as_slice());
    Ok(())
}
