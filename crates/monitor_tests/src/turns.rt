//! The calls of two seats of a turn, by one thread and by two.
ghost use Rattle.std.specs.Prelude.{◌≡◌, length, IfSome};
ghost use Rattle.best_turn.specs.Seats.{start_of, IsSeatOf, view_of};

use best_turn::{Front, Replays, Seat, Turn};
use cbl_base::NoMemory;
use std::sync::Wait;
use std::test::*;
use std::thread;
use std::thread::Threads;

/// A state that answers each request with the one before it.
#[derive(Drop)]
struct Last {
    last: u64,
}

impl Replays for Last {
    type Request = u64;

    type Reply = u64;

    ghost takes = { λ s q. Unit {0} };

    ghost after = { λ s q. record { last = q } };

    ghost answer = { λ s q. s.last };

    ghost can_have = { λ q r. Unit {0} };

    fn reply(&self, _request: &u64) -> Result<u64, NoMemory> {
        Ok(self.last)
    }

    fn step(&mut self, request: &u64) -> Result<u64, NoMemory> {
        let before = self.last;
        self.last = *request;
        Ok(before)
    }

    ghost takes_same = { λ s q p t. ((λ a. a), (λ a. a)) };

    ghost answer_had = { λ s q t. tt };
}

#[test]
fn each_call_is_answered_behind_those_before_it(rt: HostRuntime) -> Result<(), Fail> {
    let (turn, mut first) = Turn::make(rt.alloc(), Last { last: 7 })?;
    let mut second = first.split(&turn);
    assert_eq!(rt; first.call(&rt, &turn, 0, 5)?, (7, Front(1)));
    assert_eq!(rt; second.call(&rt, &turn, 1, 6)?, (5, Front(2)));
    assert_eq!(rt; first.call(&rt, &turn, 2, 8)?, (6, Front(3)));
    first.join(&turn, second);
    let (state, history) = turn.close(first);
    assert_eq!(rt; state.last, 8);
    assert_eq!(rt; history.len(), 3);
    for (entry, want) in history.iter().zip([(0, 5, 7), (1, 6, 5), (2, 8, 6)]) {
        assert_eq!(rt; (entry.iteration, entry.request, entry.reply), want);
    }
    Ok(())
}

// One call, whose reply is let go.
fn call_once<S: Replays, R: Wait>(
    rt: &R,
    turn: &Turn<S>,
    mut seat: Seat<S>,
    iteration: u32,
    request: S::Request,
) -> Option<Seat<S>>
    requires seat { IsSeatOf turn.now seat }
    requires takes { S.takes (start_of turn.now) request }
    ensures { IfSome result (λ s. IsSeatOf turn.now s ×
        (length (view_of s).made ≡ length (view_of seat).made) ×
        ((view_of s).rest ≡ (view_of seat).rest)) }
{
    let Ok(_) = seat.call(rt, turn, iteration, request) else {
        return None;
    };
    Some(seat)
}

// Two threads make one call each, on any state that can go to another thread.
fn call_by_two<S: Replays + Send, R: Threads + Wait + Sync>(
    rt: &R,
    turn: &Turn<S>,
    one: Seat<S>,
    two: Seat<S>,
    first: S::Request,
    second: S::Request,
) -> (Option<Seat<S>>, Option<Seat<S>>)
where
    S::Request: Send,
    S::Reply: Send,
    requires seats { IsSeatOf turn.now one × IsSeatOf turn.now two }
    requires takes { S.takes (start_of turn.now) first × S.takes (start_of turn.now) second }
    ensures one { IfSome result.0 (λ s. IsSeatOf turn.now s ×
        (length (view_of s).made ≡ length (view_of one).made) ×
        ((view_of s).rest ≡ (view_of one).rest)) }
    ensures two { IfSome result.1 (λ s. IsSeatOf turn.now s ×
        (length (view_of s).made ≡ length (view_of two).made) ×
        ((view_of s).rest ≡ (view_of two).rest)) }
{
    thread::join(
        rt,
        move || -> Option<Seat<S>>
            requires { IsSeatOf turn.now one × S.takes (start_of turn.now) first }
            ensures { IfSome result (λ s. IsSeatOf turn.entry.now s ×
                (length (view_of s).made ≡ length (view_of one).made) ×
                ((view_of s).rest ≡ (view_of one).rest)) }
        { call_once(rt, turn, one, 0, first) },
        move || -> Option<Seat<S>>
            requires { IsSeatOf turn.now two × S.takes (start_of turn.now) second }
            ensures { IfSome result (λ s. IsSeatOf turn.entry.now s ×
                (length (view_of s).made ≡ length (view_of two).made) ×
                ((view_of s).rest ≡ (view_of two).rest)) }
        { call_once(rt, turn, two, 1, second) },
    )
}

#[test]
fn two_threads_call(rt: HostRuntime) -> Result<(), Fail> {
    let (turn, mut one) = Turn::make(rt.alloc(), Last { last: 7 })?;
    let two = one.split(&turn);
    let (first, second) = call_by_two(&rt, &turn, one, two, 5, 6);
    let Some(mut first) = first else {
        return Err(Fail::new("no memory"));
    };
    let Some(second) = second else {
        return Err(Fail::new("no memory"));
    };
    first.join(&turn, second);
    let (_, history) = turn.close(first);
    assert_eq!(rt; history.len(), 2);
    Ok(())
}
