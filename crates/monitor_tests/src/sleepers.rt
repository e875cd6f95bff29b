//! Many threads that wait for one turn.
ghost use Rattle.std.specs.Prelude.{◌≡◌, ◌<◌, ◌+◌, length, IfOk};
ghost use Rattle.best_turn.specs.Seats.{start_of, IsSeatOf, view_of};

use best_monitor::{Board, Request};
use best_turn::{Front, Seat, Turn};
use cbl_base::NoMemory;
use std::alloc::Global;
use std::sync::Wait;
use std::test::*;
use std::thread;
use std::thread::Threads;

const CALLERS: u32 = 64;

const CALLS: u32 = 1000;

// A thread's seat.
#[derive(Drop)]
struct Caller<'a> {
    turn: &'a Turn<Board>,
    seat: Seat<Board>,
    number: u32,
    ghost own: { IsSeatOf turn.now seat × (0 < length (start_of turn.now)) },
}

fn seated<'a>(turn: &'a Turn<Board>, seat: Seat<Board>, number: u32) -> Caller<'a>
    requires { IsSeatOf turn.now seat × (0 < length (start_of turn.now)) }
{
    Caller { turn, seat, number }
}

// How many of the calls were made.
fn call_often<R: Wait>(rt: &R, caller: Caller) -> u32 {
    let Caller {
        turn,
        mut seat,
        number,
    } = caller;
    for made in 0..CALLS {
        let Ok(_) = seat.call(rt, turn, number, Request::Has { monitor: 0 }) else {
            return made;
        };
    }
    CALLS
}

// How long the history is behind the calls of all threads, with one more.
fn call_from_all<R: Threads + Wait + Sync>(
    rt: &R,
    alloc: Global,
    turn: &Turn<Board>,
    first: &mut Seat<Board>,
) -> Result<Front, NoMemory>
    requires seat { IsSeatOf turn.now first.old × (64 < (view_of first.old).rest) }
    requires declared { 0 < length (start_of turn.now) }
{
    let mut callers = Vec::new(alloc);
    for number in 0..CALLERS {
        let seat = first.split(turn);
        let Ok(()) = callers.push(seated(turn, seat, number)) else {
            return Err(NoMemory);
        };
    }
    let call = |caller: Caller| -> u32 { call_often(rt, caller) };
    let Ok(_made) = thread::map_vec(rt, callers, &call) else {
        return Err(NoMemory);
    };
    let (_, front) = first.call(rt, turn, CALLERS, Request::Has { monitor: 0 })?;
    Ok(front)
}

#[test]
fn of_64_threads_each_gets_its_1000_turns(rt: HostRuntime) -> Result<(), Fail> {
    let mut board = Board::new(rt.alloc());
    board.declare()?;
    let (turn, mut first) = Turn::make(rt.alloc(), board)?;
    let front = call_from_all(&rt, rt.alloc(), &turn, &mut first)?;
    assert_eq!(rt; front, Front(64_001));
    Ok(())
}
