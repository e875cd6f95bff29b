//! What a board of monitors answers, by itself, and through seats and ports.
ghost use Rattle.std.specs.Prelude.{◌≡◌, ◌<◌, ℕ, List, [], ◌∷◌, ◌++◌, Option, None, Some, length, IfOk, IfSome};
ghost use Rattle.best_monitor.specs.declared.request.Reply.{Reply};
ghost use Rattle.best_turn.specs.Seats.{start_of, IsSeatOf, view_of};
ghost use Rattle.best_monitor.specs.Board.{monitor_of};
ghost use Rattle.best_monitor.specs.declared.request.Request.{Request};
ghost use Rattle.best_monitor.specs.Port.{StopsAsTold, GoesAstray, with_all, entries_for};

use crate::answers::{Answer, answer_of};
use best_monitor::{Board, MonitorPort, PortStop, Reply, Request, SeatPort};
use best_turn::{Front, Replays, Seat, Turn};
use cbl_base::{NoMemory, Numbers, Text};
use std::alloc::Global;
use std::collections::VecDeque;
use std::sync::Wait;
use std::test::*;
use std::thread;
use std::thread::Threads;

fn board_of_one(alloc: Global) -> Result<Board, NoMemory>
    ensures { IfOk result (λ b. length b ≡ 1) }
{
    let mut board = Board::new(alloc);
    board.declare()?;
    Ok(board)
}

fn report(alloc: Global, value: i64, list: &[i64]) -> Result<Request, NoMemory>
    ensures { IfOk result (λ q. monitor_of q ≡ 0) }
{
    report_pair(alloc, value, 0, list)
}

fn report_pair(alloc: Global, value: i64, second: i64, list: &[i64]) -> Result<Request, NoMemory>
    ensures { IfOk result (λ q. monitor_of q ≡ 0) }
{
    Ok(Request::Report {
        monitor: 0,
        value,
        second,
        list: Numbers::from_slice(alloc, list)?,
    })
}

#[test]
fn an_equal_report_does_not_replace(rt: HostRuntime) -> Result<(), Fail> {
    let board = board_of_one(rt.alloc())?;
    let (turn, mut seat) = Turn::make(rt.alloc(), board)?;
    let (reply, front) = seat.call(&rt, &turn, 0, report(rt.alloc(), 5, &[1])?)?;
    assert!(rt; matches!(reply, Reply::Truth(true)));
    assert_eq!(rt; front, Front(1));
    let (reply, front) = seat.call(&rt, &turn, 0, report(rt.alloc(), 5, &[2])?)?;
    assert!(rt; matches!(reply, Reply::Truth(false)));
    assert_eq!(rt; front, Front(2));
    Ok(())
}

// A report of a pair, whether it replaces the best, and the best pair after it.
struct PairRow {
    value: i64,
    second: i64,
    replaces: bool,
    best_value: i64,
    best_second: i64,
}

// Values decide, and second values between equal values. An equal pair isn't replaced.
static PAIRS: [PairRow; 7] = [
    PairRow {
        value: 5,
        second: 7,
        replaces: true,
        best_value: 5,
        best_second: 7,
    },
    PairRow {
        value: 5,
        second: 7,
        replaces: false,
        best_value: 5,
        best_second: 7,
    },
    PairRow {
        value: 5,
        second: 8,
        replaces: false,
        best_value: 5,
        best_second: 7,
    },
    PairRow {
        value: 5,
        second: 6,
        replaces: true,
        best_value: 5,
        best_second: 6,
    },
    PairRow {
        value: 6,
        second: -9,
        replaces: false,
        best_value: 5,
        best_second: 6,
    },
    PairRow {
        value: 4,
        second: 9,
        replaces: true,
        best_value: 4,
        best_second: 9,
    },
    PairRow {
        value: i64::MIN,
        second: i64::MAX,
        replaces: true,
        best_value: i64::MIN,
        best_second: i64::MAX,
    },
];

#[test]
fn the_least_pair_stays(rt: HostRuntime) -> Result<(), Fail> {
    let mut board = board_of_one(rt.alloc())?;
    assert_eq!(rt;
        answer_of(board.reply(&Request::Second { monitor: 0 })?),
        Answer::Missing
    );
    for row in &PAIRS {
        let report = report_pair(rt.alloc(), row.value, row.second, &[])?;
        assert_eq!(rt;
            answer_of(board.reply(&report)?),
            Answer::Truth(row.replaces)
        );
        assert_eq!(rt;
            answer_of(board.step(&report)?),
            Answer::Truth(row.replaces)
        );
        let value = board.reply(&Request::Value { monitor: 0 })?;
        assert_eq!(rt; answer_of(value), Answer::Number(row.best_value));
        let second = board.reply(&Request::Second { monitor: 0 })?;
        assert_eq!(rt; answer_of(second), Answer::Number(row.best_second));
    }
    Ok(())
}

#[test]
fn a_list_is_copied_where_there_is_room(rt: HostRuntime) -> Result<(), Fail> {
    let mut board = board_of_one(rt.alloc())?;
    let copy = |room| Request::Copy { monitor: 0, room };
    assert!(rt; matches!(board.reply(&copy(1))?, Reply::Missing));
    board.step(&report(rt.alloc(), 5, &[1])?)?;
    assert!(rt; matches!(board.reply(&copy(0))?, Reply::Long(1)));
    let Reply::List(list) = board.reply(&copy(1))? else {
        return Err(Fail::new("no list"));
    };
    assert_eq!(rt; list.len(), 1);
    assert_eq!(rt; list.get(0), Some(1));
    Ok(())
}

// Reports 1,000 values from `from` down, each with itself as its list.
fn report_all<R: Wait>(
    rt: &R,
    alloc: Global,
    turn: &Turn<Board>,
    mut seat: Seat<Board>,
    iteration: u32,
    from: i64,
) -> Option<Seat<Board>>
    requires seat { IsSeatOf turn.now seat }
    requires declared { 0 < length (start_of turn.now) }
    ensures seat { IfSome result (λ s. IsSeatOf turn.now s) }
    ensures numbers { IfSome result (λ s. (length (view_of s).made ≡ length (view_of seat).made) ×
        ((view_of s).rest ≡ (view_of seat).rest)) }
{
    for i in 0..1000i64 {
        let value = from.wrapping_sub(i);
        let request = report(alloc, value, &[value]).ok()?;
        let Ok(_) = seat.call(rt, turn, iteration, request) else {
            return None;
        };
    }
    Some(seat)
}

// Two threads report through seats of their own. What the board's best is then, and how long the history.
#[tactic(auto, using(best_monitor::specs::BoardLaws::length_fold))]
fn report_by_two<R: Threads + Wait + Sync>(
    rt: &R,
    alloc: Global,
) -> Option<(Result<Reply, NoMemory>, usize)> {
    let board = board_of_one(alloc).ok()?;
    let (turn, mut one) = Turn::make(alloc, board).ok()?;
    let two = one.split(&turn);
    let shared = &turn;
    let (a, b) = thread::join(
        rt,
        move || -> Option<Seat<Board>>
            requires { IsSeatOf shared.now one × (0 < length (start_of shared.now)) }
            ensures { IfSome result (λ s. IsSeatOf shared.entry.now s ×
                (length (view_of s).made ≡ length (view_of one).made) ×
                ((view_of s).rest ≡ (view_of one).rest)) }
        { report_all(rt, alloc, shared, one, 0, 5000) },
        move || -> Option<Seat<Board>>
            requires { IsSeatOf shared.now two × (0 < length (start_of shared.now)) }
            ensures { IfSome result (λ s. IsSeatOf shared.entry.now s ×
                (length (view_of s).made ≡ length (view_of two).made) ×
                ((view_of s).rest ≡ (view_of two).rest)) }
        { report_all(rt, alloc, shared, two, 1, 3000) },
    );
    let mut last = a?;
    last.join(&turn, b?);
    let (state, history) = turn.close(last);
    Some((state.reply(&Request::Value { monitor: 0 }), history.len()))
}

#[test]
fn two_threads_report_and_the_least_stays(rt: HostRuntime) -> Result<(), Fail> {
    let Some((best, calls)) = report_by_two(&rt, rt.alloc()) else {
        return Err(Fail::new("no memory"));
    };
    assert!(rt; matches!(best, Ok(Reply::Number(2001))));
    assert_eq!(rt; calls, 2000);
    Ok(())
}

// Asks twice, through any port.
fn ask_twice<P: MonitorPort<Board>>(
    port: &mut P,
    first: Request,
    second: Request,
) -> Result<Reply, PortStop>
    requires { P.takes port.old first × P.takes port.old second }
    ensures asked { IfOk result (λ r. (x : Reply) ×
        (P.asked port.new ≡ P.asked port.old ++ (first, x) ∷ [] ++ (second, r) ∷ [])) }
    ensures base { P.base port.new ≡ P.base port.old }
{
    port.ask(first)?;
    let reply = port.ask(second)?;
    Ok(reply)
}

// Two iterations ask twice each, one after the other, through ports over one seat. It then made the entries of
// the first, and behind them those of the second.
#[tactic(auto, using(best_monitor::proofs::Asked::seat_of_base))]
fn ask_by_two_iterations<R: Wait>(
    rt: &R,
    turn: &Turn<Board>,
    seat: Seat<Board>,
    alloc: Global,
) -> Option<Seat<Board>>
    requires seat { IsSeatOf turn.now seat }
    requires declared { 0 < length (start_of turn.now) }
    ensures seat { IfSome result (λ s. IsSeatOf turn.now s ×
        ((view_of s).rest ≡ (view_of seat).rest) ×
        (length (view_of s).made ≡ length (view_of seat).made)) }
    ensures order { IfSome result (λ s. (first second : List (Request × Reply)) ×
        ((view_of s).made ≡ with_all (entries_for 1 second)
        (with_all (entries_for 0 first) (view_of seat).made))) }
{
    let mut port = SeatPort::new(rt, turn, seat, 0);
    let one = report(alloc, 5, &[1]).ok()?;
    ask_twice(&mut port, one, Request::Has { monitor: 0 }).ok()?;
    let seat = port.into_seat();
    let mut port = SeatPort::new(rt, turn, seat, 1);
    let two = report(alloc, 4, &[2]).ok()?;
    ask_twice(&mut port, two, Request::Value { monitor: 0 }).ok()?;
    Some(port.into_seat())
}

#[test]
fn a_seat_keeps_the_order_of_its_iterations(rt: HostRuntime) -> Result<(), Fail> {
    let board = board_of_one(rt.alloc())?;
    let (turn, seat) = Turn::make(rt.alloc(), board)?;
    let Some(seat) = ask_by_two_iterations(&rt, &turn, seat, rt.alloc()) else {
        return Err(Fail::new("no memory"));
    };
    let (_, history) = turn.close(seat);
    let iterations: [u32; 4] = [0, 0, 1, 1];
    assert_eq!(rt; history.len(), 4);
    for (entry, iteration) in history.iter().zip(iterations) {
        assert_eq!(rt; entry.iteration, iteration);
    }
    Ok(())
}

// A state that answers each request with itself.
#[derive(Drop)]
struct Echo;

impl Replays for Echo {
    type Request = u64;

    type Reply = u64;

    ghost takes = { λ s q. Unit {0} };

    ghost after = { λ s q. s };

    ghost answer = { λ s q. q };

    ghost can_have = { λ q r. Unit {0} };

    fn reply(&self, request: &u64) -> Result<u64, NoMemory> {
        Ok(*request)
    }

    fn step(&mut self, request: &u64) -> Result<u64, NoMemory> {
        Ok(*request)
    }

    ghost takes_same = { λ s q p t. ((λ a. a), (λ a. a)) };

    ghost answer_had = { λ s q t. tt };
}

// A port that replays these requests and replies.
#[derive(Drop)]
struct ReplayPort {
    alloc: Global,
    asked: Vec<(u64, u64)>,
    rest: VecDeque<(u64, u64)>,
}

impl MonitorPort<Echo> for ReplayPort {
    ghost asked = { λ p. p.asked.items };

    ghost rest = { λ p. Some p.rest.items };

    ghost odds = { λ p q. (q, [], []) };

    ghost takes = { λ p q. Unit {0} };

    ghost base = { λ p. None };

    fn ask(&mut self, request: u64) -> Result<u64, PortStop> {
        let Ok(()) = self.asked.reserve(1) else {
            return Err(PortStop::NoMemory);
        };
        let Some((next, reply)) = self.rest.front().copied() else {
            return Err(differs(self.alloc, request));
        };
        if next != request {
            return Err(differs(self.alloc, request));
        }
        let _ = self.rest.pop_front();
        self.asked.push_reserved((request, reply));
        Ok(reply)
    }

    ghost rest_had = { λ p i e h. tt };
}

fn differs(alloc: Global, request: u64) -> PortStop
    ensures { (rest : Option (List (ℕ × ℕ))) → GoesAstray rest request →
        StopsAsTold rest request (request, [], []) result }
{
    let Ok(asked) = Text::from_slice(alloc, &[]) else {
        return PortStop::NoMemory;
    };
    let Ok(had) = Text::from_slice(alloc, &[]) else {
        return PortStop::NoMemory;
    };
    PortStop::Differs(request, asked, had)
}

#[test]
fn a_port_that_replays_tells_what_differs(rt: HostRuntime) -> Result<(), Fail> {
    let mut rest = VecDeque::new(rt.alloc());
    rest.push_back((3, 3))?;
    rest.push_back((4, 4))?;
    let mut port = ReplayPort {
        alloc: rt.alloc(),
        asked: Vec::new(rt.alloc()),
        rest,
    };
    assert!(rt; matches!(port.ask(3), Ok(3)));
    assert!(rt; matches!(port.ask(5), Err(PortStop::Differs(5, _, _))));
    assert!(rt; matches!(port.ask(4), Ok(4)));
    assert!(rt; matches!(port.ask(4), Err(PortStop::Differs(4, _, _))));
    Ok(())
}
