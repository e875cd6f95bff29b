//! Handlers, and the queue of events.
use cbl_base::VarId;
use ls_events::{Handlers, Queue, VarChange};
use std::alloc::Global;
use std::test::*;

const X: VarId = VarId {
    solver: 0,
    index: 3,
};

const Y: VarId = VarId {
    solver: 0,
    index: 5,
};

// A variable of another solver.
const Z: VarId = VarId {
    solver: 1,
    index: 3,
};

static HANDLERS: [(VarId, u32); 4] = [(X, 0), (Y, 1), (X, 2), (Z, 3)];

fn handlers(alloc: Global) -> Result<Handlers, Fail> {
    let mut handlers = Handlers::new(alloc);
    for (var, closure) in &HANDLERS {
        if handlers.add(*var, *closure).is_err() {
            return Err(Fail::from("no memory"));
        }
    }
    Ok(handlers)
}

const CHANGES: [VarChange; 2] = [
    VarChange {
        var: Y,
        old: 1,
        new: -2,
    },
    VarChange {
        var: X,
        old: 7,
        new: 8,
    },
];

// The events that the test makes of them.
static WANTED: [(u32, i64, i64); 5] = [(1, 1, -2), (0, 7, 8), (2, 7, 8), (0, 7, 8), (2, 7, 8)];

// The next event, as its three numbers.
fn next(queue: &mut Queue) -> Option<(u32, i64, i64)> {
    queue
        .next()
        .map(|event| (event.closure, event.old, event.new))
}

// Changes come before handlers, and what waits stays in front.
#[test]
fn events_leave_in_the_order_of_changes(rt: HostRuntime) -> Result<(), Fail> {
    let handlers = handlers(rt.alloc())?;
    let mut queue = Queue::new(rt.alloc());
    assert_eq!(rt; next(&mut queue), None);
    for changes in [CHANGES.as_slice(), &[], &CHANGES[1..]] {
        if handlers.queue(changes, &mut queue).is_err() {
            return Err(Fail::from("no memory"));
        }
    }
    for event in &WANTED {
        assert_eq!(rt; next(&mut queue), Some(*event));
    }
    assert!(rt; queue.is_empty());
    assert_eq!(rt; next(&mut queue), None);
    Ok(())
}
