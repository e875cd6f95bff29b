//! A loop over a desk whose iterations report to a monitor and add to a pool.
ghost use Rattle.std.specs.Prelude.{◌≡◌, ◌<◌, ◌≤◌, length, IfOk};
ghost use Rattle.loop_tests.specs.Asking.{asks_desk, report_of, add_of, stop_of};

use crate::loops::says_yes;
use best_monitor::{MonitorPort, PortStop, Reply, Request};
use best_turn::Replays;
use cbl_base::{NoMemory, Numbers};
use parall_loop::{IterBody, LoopResult, OpenGate, run_loop};
use pool_monitor::{Desk, DeskRequest, PoolRequest};
use std::alloc::Global;
use std::sync::Wait;
use std::test::*;
use std::thread::Threads;

// Each iteration reports its value, with the number behind its own as its list, adds the same to a pool, and ends with
// whether the best was replaced and whether the pool kept it.
#[derive(Drop)]
struct Finds {
    alloc: Global,
    values: Vec<i64>,
}

impl IterBody<Desk> for Finds {
    type Outcome = Result<(bool, bool), PortStop>;

    ghost asks = { λ b k replies. asks_desk b.values.items k replies };

    ghost stop = { λ outcome. stop_of outcome };

    fn run<P: MonitorPort<Desk>>(
        &self,
        iteration: u32,
        mut port: P,
    ) -> (P, Result<(bool, bool), PortStop>) {
        let Ok(report) = self.report(iteration) else {
            return (port, Err(PortStop::NoMemory));
        };
        let first = match port.ask(DeskRequest::Best(report)) {
            Ok(reply) => reply,
            Err(stop) => return (port, Err(stop)),
        };
        let Ok(add) = self.add(iteration) else {
            return (port, Err(PortStop::NoMemory));
        };
        match port.ask(DeskRequest::Pool(add)) {
            Ok(second) => (port, Ok((says_yes(&first), says_yes(&second)))),
            Err(stop) => (port, Err(stop)),
        }
    }
}

impl Finds {
    fn report(&self, iteration: u32) -> Result<Request, NoMemory>
        ensures { IfOk result (λ q. q ≡ report_of self.now.values.items iteration) }
    {
        let value = self.values.get(iteration as usize).copied().unwrap_or(0);
        let list = [i64::from(iteration) + 1];
        let list = Numbers::from_slice(self.alloc, &list)?;
        Ok(Request::Report {
            monitor: 0,
            value,
            second: 0,
            list,
        })
    }

    fn add(&self, iteration: u32) -> Result<PoolRequest, NoMemory>
        ensures { IfOk result (λ q. q ≡ add_of self.now.values.items iteration) }
    {
        let value = self.values.get(iteration as usize).copied().unwrap_or(0);
        let list = [i64::from(iteration) + 1];
        let list = Numbers::from_slice(self.alloc, &list)?;
        Ok(PoolRequest::Add {
            pool: 0,
            value,
            list,
        })
    }
}

// A desk with a monitor and a pool of two.
fn desk_of_both(alloc: Global) -> Result<Desk, NoMemory>
    ensures { IfOk result (λ d. (length d.board ≡ 1) × (length d.pools ≡ 1)) }
{
    let mut desk = Desk::new(alloc);
    desk.declare()?;
    desk.declare_pool(2)?;
    Ok(desk)
}

// The loop that finds 4, 1, 0 and 1.
fn find_all<R: Threads + Wait + Sync>(
    rt: &R,
    alloc: Global,
    workers: u32,
) -> Result<LoopResult<Desk, Result<(bool, bool), PortStop>>, NoMemory>
    requires { (1 ≤ workers) × (workers ≤ 64) }
    ensures { IfOk result (λ left. (0 < length left.state.board) × (0 < length left.state.pools)) }
{
    let mut values = Vec::new(alloc);
    values.extend_from_slice(&[4, 1, 0, 1])?;
    let body = Finds { alloc, values };
    let desk = desk_of_both(alloc)?;
    let left = run_loop(rt, alloc, &body, &OpenGate, 4, workers, desk)?;
    Ok(left)
}

// Whether the desk's best is 0 with the list [3], and its pool has this as the first of two.
fn has_least(desk: &Desk) -> Result<bool, NoMemory>
    requires { (0 < length desk.now.board) × (0 < length desk.now.pools) }
{
    let best = desk.reply(&DeskRequest::Best(Request::Value { monitor: 0 }))?;
    let size = desk.reply(&DeskRequest::Pool(PoolRequest::Size { pool: 0 }))?;
    let first = desk.reply(&DeskRequest::Pool(PoolRequest::Take {
        pool: 0,
        rank: 1,
        room: 1,
    }))?;
    let second = desk.reply(&DeskRequest::Pool(PoolRequest::Rank { pool: 0, rank: 2 }))?;
    Ok(is_number(&best, 0) && is_number(&size, 2) && is_list(&first, 3) && is_number(&second, 1))
}

fn is_number(reply: &Reply, number: i64) -> bool {
    match reply {
        Reply::Number(found) => *found == number,
        _ => false,
    }
}

fn is_list(reply: &Reply, number: i64) -> bool {
    match reply {
        Reply::List(list) => list.len() == 1 && list.get(0) == Some(number),
        _ => false,
    }
}

// Whether each iteration asked its monitor and then its pool, and ended with what the two replied.
fn is_told_as_asked(left: &LoopResult<Desk, Result<(bool, bool), PortStop>>) -> bool {
    let mut told = [(false, false); 4];
    let mut calls = [0u32; 4];
    for entry in left.history.iter() {
        let k = entry.iteration as usize;
        if k >= 4 {
            return false;
        }
        match (&entry.request, calls[k]) {
            (DeskRequest::Best(_), 0) => told[k].0 = says_yes(&entry.reply),
            (DeskRequest::Pool(_), 1) => told[k].1 = says_yes(&entry.reply),
            _ => return false,
        }
        calls[k] += 1;
    }
    for (k, outcome) in left.outcomes.iter().enumerate() {
        if k >= 4 || calls[k] != 2 || !matches!(outcome, Ok(both) if *both == told[k]) {
            return false;
        }
    }
    left.outcomes.len() == 4
}

#[test]
fn one_worker_reports_and_adds_in_order(rt: HostRuntime) -> Result<(), Fail> {
    let left = find_all(&rt, rt.alloc(), 1)?;
    let iterations: [u32; 8] = [0, 0, 1, 1, 2, 2, 3, 3];
    assert_eq!(rt; left.history.len(), 8);
    for (entry, iteration) in left.history.iter().zip(iterations) {
        assert_eq!(rt; entry.iteration, iteration);
    }
    assert!(rt; is_told_as_asked(&left));
    let ended = [(true, true), (true, true), (true, true), (false, false)];
    for (outcome, both) in left.outcomes.iter().zip(ended) {
        assert!(rt; matches!(outcome, Ok(found) if *found == both));
    }
    assert!(rt; has_least(&left.state)?);
    Ok(())
}

#[test]
fn four_workers_report_and_add_side_by_side(rt: HostRuntime) -> Result<(), Fail> {
    let left = find_all(&rt, rt.alloc(), 4)?;
    assert_eq!(rt; left.history.len(), 8);
    assert!(rt; is_told_as_asked(&left));
    assert!(rt; has_least(&left.state)?);
    Ok(())
}
