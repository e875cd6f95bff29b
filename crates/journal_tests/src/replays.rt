//! A port that replays a short list of entries.
ghost use Rattle.std.specs.Prelude.{IfOk};
ghost use Rattle.pool_monitor.specs.Replies.{CanHave};

use best_monitor::{MonitorPort, PortStop, Reply, Request};
use best_turn::Entry;
use cbl_base::{NoMemory, Numbers, Text};
use pool_monitor::{DeskRequest, PoolRequest};
use replay_port::{EntryLine, ReplayPort};
use std::alloc::Global;
use std::test::*;

// The report `0 1 0 [4]`.
fn report(alloc: Global) -> Result<DeskRequest, NoMemory> {
    Ok(DeskRequest::Best(Request::Report {
        monitor: 0,
        value: 1,
        second: 0,
        list: Numbers::from_slice(alloc, &[4])?,
    }))
}

fn take(room: u64) -> DeskRequest {
    DeskRequest::Pool(PoolRequest::Take {
        pool: 7,
        rank: -2,
        room,
    })
}

// The report of iteration 3, which didn't replace the best.
fn reported(alloc: Global) -> Result<Entry<DeskRequest, Reply>, NoMemory>
    ensures { IfOk result (λ e. CanHave e.request e.reply) }
{
    Ok(Entry {
        iteration: 3,
        request: DeskRequest::Best(Request::Report {
            monitor: 0,
            value: 1,
            second: 0,
            list: Numbers::from_slice(alloc, &[4])?,
        }),
        reply: Reply::Truth(false),
    })
}

// What iteration 3 took behind it, which wasn't there.
fn taken() -> Entry<DeskRequest, Reply>
    ensures { CanHave result.request result.reply }
{
    Entry {
        iteration: 3,
        request: DeskRequest::Pool(PoolRequest::Take {
            pool: 7,
            rank: -2,
            room: 9,
        }),
        reply: Reply::Missing,
    }
}

// Whether a port stopped on this line, and said this.
fn differs(answer: &Result<Reply, PortStop>, line: u64, expected: &str, found: &str) -> bool {
    match answer {
        Err(PortStop::Differs(on, asked, had)) => {
            *on == line && is_text(asked, expected) && is_text(had, found)
        }
        _ => false,
    }
}

fn is_text(text: &Text, wanted: &str) -> bool {
    text.as_slice() == wanted.as_bytes()
}

#[tactic(auto, using(crate::proofs::Replayed::two_had))]
#[test]
fn entries_are_replayed_in_order(rt: HostRuntime) -> Result<(), Fail> {
    let one = reported(rt.alloc())?;
    let two = taken();
    let lines = [
        EntryLine {
            line: 6,
            entry: &one,
        },
        EntryLine {
            line: 8,
            entry: &two,
        },
    ];
    let mut port = ReplayPort::new(rt.alloc(), 2, 3, &lines);
    let other = port.ask(take(9));
    assert!(rt; differs(&other, 6, "3 take 7 -2 9", "3 report 0 1 0 [4]"));
    assert_eq!(rt; port.left().len(), 2);
    let first = port.ask(report(rt.alloc())?);
    assert!(rt; matches!(first, Ok(Reply::Truth(false))));
    assert_eq!(rt; port.left().len(), 1);
    let again = port.ask(take(8));
    assert!(rt; differs(&again, 8, "3 take 7 -2 8", "3 take 7 -2 9"));
    assert!(rt; matches!(port.ask(take(9)), Ok(Reply::Missing)));
    assert!(rt; port.left().is_empty());
    let none = port.ask(report(rt.alloc())?);
    assert!(rt; differs(&none, 2, "3 report 0 1 0 [4]", "nothing"));
    Ok(())
}
