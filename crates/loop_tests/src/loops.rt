//! The loop of four reports over one monitor, and a gate that shows that iterations run beside each other.
ghost use Rattle.std.specs.Prelude.{◌≡◌, ◌≤◌, length, IfOk};
ghost use Rattle.loop_tests.specs.Asking.{asks_of, report_of, is_yes, stop_of};

use best_monitor::{Board, MonitorPort, PortStop, Reply, Request};
use best_turn::Replays;
use cbl_base::{NoMemory, Numbers};
use parall_loop::{Gate, IterBody, LoopResult, OpenGate, run_loop};
use std::alloc::Global;
use std::sync::Wait;
use std::sync::atomic::{AtomicBool, Ordering};
use std::test::*;
use std::thread;
use std::thread::Threads;

// Each iteration reports its value, with the number behind its own as its list, and ends with whether the best was
// replaced.
#[derive(Drop)]
struct Reports {
    alloc: Global,
    values: Vec<i64>,
}

impl IterBody<Board> for Reports {
    type Outcome = Result<bool, PortStop>;

    ghost asks = { λ b k replies. asks_of b.values.items k replies };

    ghost stop = { λ outcome. stop_of outcome };

    fn run<P: MonitorPort<Board>>(
        &self,
        iteration: u32,
        mut port: P,
    ) -> (P, Result<bool, PortStop>) {
        let Ok(request) = self.report(iteration) else {
            return (port, Err(PortStop::NoMemory));
        };
        match port.ask(request) {
            Ok(reply) => (port, Ok(says_yes(&reply))),
            Err(stop) => (port, Err(stop)),
        }
    }
}

impl Reports {
    fn report(&self, iteration: u32) -> Result<Request, NoMemory>
        ensures { IfOk result (λ q. q ≡ report_of self.now.values.items iteration) }
    {
        let value = self.values.get(iteration as usize).copied().unwrap_or(0);
        let list = [i64::from(iteration) + 1];
        let list = Numbers::from_slice(self.alloc, &list)?;
        Ok(Request::Report {
            monitor: 0,
            value,
            second: 0,
            list,
        })
    }
}

/// Whether a reply says yes.
pub(crate) fn says_yes(reply: &Reply) -> bool
    ensures { result ≡ is_yes reply.now }
{
    matches!(reply, Reply::Truth(true))
}

fn board_of_one(alloc: Global) -> Result<Board, NoMemory>
    ensures { IfOk result (λ b. length b ≡ 1) }
{
    let mut board = Board::new(alloc);
    board.declare()?;
    Ok(board)
}

// The loop of the reports 4, 1, 0 and 1, or of the first few of them.
pub(crate) fn report_all<G: Gate + Sync, R: Threads + Wait + Sync>(
    rt: &R,
    alloc: Global,
    gate: &G,
    n: u32,
    workers: u32,
) -> Result<LoopResult<Board, Result<bool, PortStop>>, NoMemory>
    requires { (1 ≤ workers) × (workers ≤ 64) }
{
    let mut values = Vec::new(alloc);
    values.extend_from_slice(&[4, 1, 0, 1])?;
    let body = Reports { alloc, values };
    let board = board_of_one(alloc)?;
    run_loop(rt, alloc, &body, gate, n, workers, board)
}

// Whether each iteration reported once, each reply is what a board replies there, it is the iteration's outcome, and
// the least value is the best at the end, with the list of its report.
fn is_told_as_asked(
    alloc: Global,
    left: &LoopResult<Board, Result<bool, PortStop>>,
) -> Result<bool, NoMemory> {
    let mut board = board_of_one(alloc)?;
    let mut seen = [false; 4];
    for entry in left.history.iter() {
        let k = entry.iteration as usize;
        if entry.request.monitor() != 0 {
            return Ok(false);
        }
        if k >= seen.len() {
            return Ok(false);
        }
        if seen[k] {
            return Ok(false);
        }
        seen[k] = true;
        let reply = says_yes(&board.step(&entry.request)?);
        if says_yes(&entry.reply) != reply || !ended_with(left.outcomes.get(k), reply) {
            return Ok(false);
        }
    }
    if left.history.len() != 4 {
        return Ok(false);
    }
    has_best(&board, 0, 3)
}

fn ended_with(outcome: Option<&Result<bool, PortStop>>, reply: bool) -> bool {
    match outcome {
        Some(Ok(said)) => *said == reply,
        _ => false,
    }
}

// Whether the one monitor's best is this value, with a list of just this number.
fn has_best(board: &Board, value: i64, number: i64) -> Result<bool, NoMemory>
    requires { length board.now ≡ 1 }
{
    let Reply::Number(best) = board.reply(&Request::Value { monitor: 0 })? else {
        return Ok(false);
    };
    let Reply::List(list) = board.reply(&Request::Copy {
        monitor: 0,
        room: 1,
    })?
    else {
        return Ok(false);
    };
    Ok(best == value && list.len() == 1 && list.get(0) == Some(number))
}

// Whether the entries of the iterations stand one iteration after the other.
fn is_in_order(left: &LoopResult<Board, Result<bool, PortStop>>) -> bool {
    let mut latest = 0;
    for entry in left.history.iter() {
        if entry.iteration < latest {
            return false;
        }
        latest = entry.iteration;
    }
    true
}

#[test]
fn one_worker_reports_in_order(rt: HostRuntime) -> Result<(), Fail> {
    let left = report_all(&rt, rt.alloc(), &OpenGate, 4, 1)?;
    assert!(rt; is_told_as_asked(rt.alloc(), &left)?);
    assert!(rt; is_in_order(&left));
    assert_eq!(rt; left.outcomes.len(), 4);
    assert!(rt; matches!(left.outcomes[2], Ok(true)));
    assert!(rt; matches!(left.outcomes[3], Ok(false)));
    Ok(())
}

#[test]
fn four_workers_report_once_each(rt: HostRuntime) -> Result<(), Fail> {
    let result = report_all(&rt, rt.alloc(), &OpenGate, 4, 4)?;
    assert!(rt; is_told_as_asked(rt.alloc(), &result)?);
    Ok(())
}

// Holds iteration 0 until iteration 1 has entered, for so many turns at most, and says whether it met that limit.
#[derive(Drop)]
struct HoldFirst {
    entered: AtomicBool,
    met_limit: AtomicBool,
}

const MOST_TURNS: u32 = 100_000_000;

impl Gate for HoldFirst {
    fn enter(&self, iteration: u32) {
        if iteration == 1 {
            self.entered.store(true, Ordering::SeqCst);
        }
        if iteration == 0 && !self.is_let_in() {
            self.met_limit.store(true, Ordering::SeqCst);
        }
    }

    fn leave(&self, _iteration: u32) {}
}

impl HoldFirst {
    fn is_let_in(&self) -> bool {
        for _turn in 0..MOST_TURNS {
            if self.entered.load(Ordering::SeqCst) {
                return true;
            }
            thread::yield_now();
        }
        false
    }
}

#[test]
fn two_workers_run_beside_each_other(rt: HostRuntime) -> Result<(), Fail> {
    let gate = HoldFirst {
        entered: AtomicBool::new(false),
        met_limit: AtomicBool::new(false),
    };
    let result = report_all(&rt, rt.alloc(), &gate, 4, 2)?;
    assert!(rt; !gate.met_limit.load(Ordering::SeqCst));
    assert!(rt; is_told_as_asked(rt.alloc(), &result)?);
    Ok(())
}
