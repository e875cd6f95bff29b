//! A whole loop: workers run its iterations beside each other, and what they asked is one history.
ghost use Rattle.std.specs.Prelude.{◌≡◌, ℕ, ◌<◌, ◌≤◌, ◌+◌, List, None, length, map, slice_get, slice_index_or, IfOk, IfSome, vec_len, ◌++◌, ◌||◌};
ghost use Rattle.std.specs.List.{All, AllByRecursion};
ghost use Rattle.best_turn.specs.History.{fold_of, IsLegal};
ghost use Rattle.best_turn.specs.Rule.{both};
ghost use Rattle.best_turn.specs.Seats.{start_of, view_of, IsSeatOf};
ghost use Rattle.iter_claim.specs.Numbers.{AllLess};
ghost use Rattle.iter_claim.specs.Seats.{count_of, drawn_by, seats_from, is_done, IsSeatOf as IsClaimerOf};
ghost use Rattle.parall_loop.specs.Iteration.{Next, Asks, RunsOnSeat, Fits, asked_by, one_by_one};
ghost use Rattle.parall_loop.specs.Runs.{IsFresh, HasSplit, HasTakenIn, put_into};

use crate::body::IterBody;
use crate::gate::Gate;
use crate::outcomes::{empty_places, in_order, put_all};
use crate::worker::{Worked, Worker, work_beside};
use best_turn::{Entry, Replays, Turn};
use cbl_base::NoMemory;
use iter_claim::Claims;
use std::alloc::Global;
use std::sync::Wait;
use std::thread::Threads;

/// What a loop leaves: the outcomes in order of iteration, the shared state, and the history of what its
/// iterations asked.
#[derive(Drop)]
pub struct LoopResult<S: Replays, T> {
    pub outcomes: Vec<T>,
    pub state: S,
    pub history: Vec<Entry<S::Request, S::Reply>>,
}

/// Runs a loop of `n` iterations by as many workers as are asked for. Each draws iterations, enters the gate, runs
/// the body over a seat of its own, and leaves the gate. It may wait.
///
/// The history is legal from the state that was handed in, and its fold is the state that is given back. What an
/// outcome's iteration asked stands in it, in order, and is what the body says; an outcome is cut for want of memory
/// alone, and where none is cut the history fits the loop. With one worker it is one iteration after the other.
/// `NoMemory` where there is none for the turn,
/// the claims, a seat or an outcome.
pub fn run_loop<S, B, G, R>(
    rt: &R,
    alloc: Global,
    body: &B,
    gate: &G,
    n: u32,
    workers: u32,
    state: S,
) -> Result<LoopResult<S, B::Outcome>, NoMemory>
where
    S: Replays + Send,
    S::Request: Send,
    S::Reply: Send,
    B: IterBody<S> + Sync,
    B::Outcome: Send,
    G: Gate + Sync,
    R: Threads + Wait + Sync,
    requires workers { (1 ≤ workers) × (workers ≤ 64) }
    requires takes { (k : ℕ) (replies : List S.Reply) (q : S.Request) → k < n →
        B.asks body.now k replies ≡ Asks q → S.takes state q }
    ensures legal { IfOk result (λ r. IsLegal S.takes S.after S.answer state r.history.items) }
    ensures state { IfOk result (λ r. r.state ≡ fold_of S.after state r.history.items) }
    ensures iterations { IfOk result (λ r. AllByRecursion (λ e. e.iteration < n) r.history.items) }
    ensures outcomes { IfOk result (λ r. length r.outcomes.items ≡ n) }
    ensures ran { IfOk result (λ r. (k : ℕ) (t : B.Outcome) →
        slice_get r.outcomes.items k ≡ Some t →
        RunsOnSeat (B.asks body.now k) (B.stop t) (asked_by k r.history.items) t) }
    ensures fits { IfOk result (λ r. (d : B.Outcome) →
        AllByRecursion (λ t. B.stop t ≡ None) r.outcomes.items →
        Fits S.takes S.after S.answer state (B.asks body.now) n (λ k.
        slice_index_or r.outcomes.items k d) r.history.items) }
    ensures order { IfOk result (λ r. workers ≡ 1 →
        r.history.items ≡ one_by_one r.history.items 0 n) }
{
    let (turn, seat) = Turn::make(alloc, state)?;
    let (claims, claimer) = Claims::make(alloc, n)?;
    let mut first = Worker { seat, claimer };
    let places = run_workers(
        rt, alloc, &turn, &claims, body, gate, n, workers, &mut first,
    )?;
    let Worker { seat, claimer } = first;
    claims.close(claimer);
    let (state, history) = turn.close(seat);
    let outcomes = in_order(alloc, places)?;
    Ok(LoopResult {
        outcomes,
        state,
        history,
    })
}

// Splits the workers from the first seats, lets them work, and takes them in again, with each outcome in the place of
// its iteration.
fn run_workers<S, B, G, R>(
    rt: &R,
    alloc: Global,
    turn: &Turn<S>,
    claims: &Claims,
    body: &B,
    gate: &G,
    n: u32,
    workers: u32,
    first: &mut Worker<S>,
) -> Result<Vec<Option<B::Outcome>>, NoMemory>
where
    S: Replays + Send,
    S::Request: Send,
    S::Reply: Send,
    B: IterBody<S> + Sync,
    B::Outcome: Send,
    G: Gate + Sync,
    R: Threads + Wait + Sync,
    requires first { HasSplit turn.now claims.now 0 first.old.seat first.old.claimer }
    requires count { count_of claims.now ≡ n }
    requires few { workers ≤ 64 }
    requires takes { (k : ℕ) (replies : List S.Reply) (q : S.Request) → k < count_of claims.now →
        B.asks body.now k replies ≡ Asks q → S.takes (start_of turn.now) q }
    ensures { IfOk result (λ places. HasTakenIn turn.now claims.now
        (B.asks body.now) B.stop workers 0 first.new.seat first.new.claimer places.items) }
{
    let seated = seat_workers(alloc, turn, claims, workers, first)?;
    let worked = work_beside(rt, alloc, turn, claims, body, gate, seated)?;
    let mut places = empty_places(alloc, n)?;
    for one in worked {
        let Some(worked) = one else {
            return Err(NoMemory);
        };
        take_in(turn, claims, first, &mut places, worked);
    }
    Ok(places)
}

// So many workers, split from the first seats.
fn seat_workers<S: Replays>(
    alloc: Global,
    turn: &Turn<S>,
    claims: &Claims,
    workers: u32,
    first: &mut Worker<S>,
) -> Result<Vec<Worker<S>>, NoMemory>
    requires first { HasSplit turn.now claims.now 0 first.old.seat first.old.claimer }
    requires few { workers ≤ 64 }
    ensures count { IfOk result (λ seated. vec_len seated ≡ workers) }
    ensures fresh { IfOk result (λ seated.
        All (λ w. IsFresh turn.now claims.now w.seat w.claimer) seated.items) }
    ensures split { IfOk result (λ _. HasSplit turn.now claims.now workers first.new.seat first.new.claimer) }
{
    let mut seated = Vec::new(alloc);
    for _worker in 0..workers {
        let seat = first.seat.split(turn);
        let claimer = first.claimer.split(claims);
        let Ok(()) = seated.push(Worker { seat, claimer }) else {
            return Err(NoMemory);
        };
    }
    Ok(seated)
}

// Takes the seats of a worker in, and puts its outcomes into the places of their iterations.
fn take_in<S: Replays, T: Drop>(
    turn: &Turn<S>,
    claims: &Claims,
    first: &mut Worker<S>,
    places: &mut Vec<Option<T>>,
    worked: Worked<S, T>,
)
    requires seats { IsSeatOf turn.now first.old.seat × IsSeatOf turn.now worked.seat }
    requires claimers { IsClaimerOf claims.now first.old.claimer ×
        IsClaimerOf claims.now worked.claimer }
    requires places { AllLess (length places.old.items) (map (λ x. x.0) worked.outcomes.items) }
    ensures seat { IsSeatOf turn.now first.new.seat ×
        (view_of first.new.seat ≡ both (view_of first.old.seat) (view_of worked.seat)) }
    ensures claimer { IsClaimerOf claims.now first.new.claimer ×
        (seats_from first.new.claimer ≡ seats_from first.old.claimer + seats_from worked.claimer) ×
        (drawn_by first.new.claimer ≡ drawn_by first.old.claimer ++ drawn_by worked.claimer) ×
        (is_done first.new.claimer ≡ (is_done first.old.claimer || is_done worked.claimer)) }
    ensures places { places.new.items ≡ put_into places.old.items worked.outcomes.items }
{
    let Worked {
        seat,
        claimer,
        outcomes,
    } = worked;
    first.seat.join(turn, seat);
    first.claimer.join(claims, claimer);
    put_all(places, outcomes);
}
