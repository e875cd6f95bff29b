//! A worker draws iterations and runs them, until none is left.
ghost use Rattle.std.specs.Prelude.{◌≡◌, ℕ, ◌<◌, List, length, IfOk, IfSome, vec_len};
ghost use Rattle.std.specs.List.{All, AllByRecursion};
ghost use Rattle.best_turn.specs.Seats.{start_of};
ghost use Rattle.iter_claim.specs.Seats.{count_of};
ghost use Rattle.parall_loop.specs.Iteration.{Next, Asks};
ghost use Rattle.parall_loop.specs.Runs.{IsFresh, HasEnded};

use crate::body::{IterBody, run_iteration};
use crate::gate::Gate;
use best_turn::{Replays, Seat, Turn};
use cbl_base::NoMemory;
use iter_claim::{ClaimSeat, Claims};
use std::alloc::Global;
use std::sync::Wait;
use std::thread;
use std::thread::Threads;

/// From where a worker calls and draws.
#[derive(Drop)]
pub(crate) struct Worker<S: Replays> {
    pub(crate) seat: Seat<S>,
    pub(crate) claimer: ClaimSeat,
}

/// The same behind its last iteration, with the outcomes, each with its iteration.
#[derive(Drop)]
pub(crate) struct Worked<S: Replays, T> {
    pub(crate) seat: Seat<S>,
    pub(crate) claimer: ClaimSeat,
    pub(crate) outcomes: Vec<(u32, T)>,
}

// Draws iterations and runs them until none is left. `None` where there is no memory for an outcome.
fn work<S: Replays, B: IterBody<S>, G: Gate, R: Wait>(
    rt: &R,
    alloc: Global,
    turn: &Turn<S>,
    claims: &Claims,
    body: &B,
    gate: &G,
    worker: Worker<S>,
) -> Option<Worked<S, B::Outcome>>
    requires fresh { IsFresh turn.now claims.now worker.seat worker.claimer }
    requires takes { (k : ℕ) (replies : List S.Reply) (q : S.Request) → k < count_of claims.now →
        B.asks body.now k replies ≡ Asks q → S.takes (start_of turn.now) q }
    ensures { IfSome result (λ w. HasEnded turn.now claims.now
        (B.asks body.now) B.stop w.seat w.claimer w.outcomes.items) }
{
    let Worker {
        mut seat,
        mut claimer,
    } = worker;
    let mut outcomes = Vec::new(alloc);
    for _ in rt.forever() {
        let Ok(()) = outcomes.reserve(1) else {
            return None;
        };
        let Some(iteration) = claimer.claim(claims) else {
            return Some(Worked {
                seat,
                claimer,
                outcomes,
            });
        };
        gate.enter(iteration);
        let (next, outcome) = run_iteration(rt, turn, body, seat, iteration);
        gate.leave(iteration);
        seat = next;
        outcomes.push_reserved((iteration, outcome));
    }
    unreachable!()
}

/// All workers, each in a thread of its own where one can be made.
pub(crate) fn work_beside<S, B, G, R>(
    rt: &R,
    alloc: Global,
    turn: &Turn<S>,
    claims: &Claims,
    body: &B,
    gate: &G,
    workers: Vec<Worker<S>>,
) -> Result<Vec<Option<Worked<S, B::Outcome>>>, NoMemory>
where
    S: Replays + Send,
    S::Request: Send,
    S::Reply: Send,
    B: IterBody<S> + Sync,
    B::Outcome: Send,
    G: Gate + Sync,
    R: Threads + Wait + Sync,
    requires fresh { All (λ w. IsFresh turn.now claims.now w.seat w.claimer) workers.items }
    requires takes { (k : ℕ) (replies : List S.Reply) (q : S.Request) → k < count_of claims.now →
        B.asks body.now k replies ≡ Asks q → S.takes (start_of turn.now) q }
    ensures count { IfOk result (λ all. vec_len all ≡ vec_len workers) }
    ensures ended { IfOk result (λ all. AllByRecursion (λ one. IfSome one (λ w. HasEnded turn.now claims.now (B.asks body.now) B.stop w.seat w.claimer w.outcomes.items)) all.items) }
{
    let run = |worker: Worker<S>| -> Option<Worked<S, B::Outcome>>
        requires { IsFresh turn.now claims.now worker.seat worker.claimer ×
            ((k : ℕ) (replies : List S.Reply) (q : S.Request) → k < count_of claims.now →
            B.asks body.now k replies ≡ Asks q → S.takes (start_of turn.now) q) }
        ensures { IfSome result (λ w. HasEnded turn.entry.now claims.entry.now
            (B.asks body.entry.now) B.stop w.seat w.claimer w.outcomes.items) }
    { work(rt, alloc, turn, claims, body, gate, worker) };
    let Ok(all) = thread::map_vec(rt, workers, &run) else {
        return Err(NoMemory);
    };
    Ok(all)
}
