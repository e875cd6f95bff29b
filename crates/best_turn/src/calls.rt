//! How a turn is made, called, shared and closed.
ghost use Rattle.std.specs.Prelude.{◌≡◌, ◌+◌, ◌<◌, [], length, IfOk, MatchResult};
ghost use Rattle.best_turn.specs.Calls.{Called, Looked};
ghost use Rattle.best_turn.specs.Rule.{all_numbers, newcomer, gave_number, split_off, both, Closes};
ghost use Rattle.best_turn.specs.Seats.{start_of, IsSeatOf, view_of};

use crate::book::Book;
use crate::replays::{Entry, Front, Replays};
use crate::turn::{Halves, Seat, Turn};
use atomic_table::Table;
use cbl_base::NoMemory;
use std::alloc::Global;
use std::snapshot::Snapshot;
use std::sync::Wait;

// The first seat has number 0, and 2^32 more can be given.
const ALL_NUMBERS: u64 = (1 << 32) + 1;

impl<S: Replays> Turn<S> {
    /// A turn of this state with an empty history, and the one seat that may be split. `NoMemory` where
    /// there is none for its table.
    pub fn make(alloc: Global, state: S) -> Result<(Turn<S>, Seat<S>), NoMemory>
        ensures turn { IfOk result (λ m. (start_of m.0 ≡ state) × IsSeatOf m.0 m.1) }
        ensures seat { IfOk result (λ m. view_of m.1 ≡ newcomer state [] 0 4294967296) }
    {
        let key = Snapshot::of(&state);
        let mut slots = Vec::new(alloc);
        let Ok(()) = slots.push(Book::new(alloc, state)) else {
            return Err(NoMemory);
        };
        match Table::new(alloc, &[0, 0], slots, &key) {
            Ok((table, token)) => Ok((
                Turn { table },
                Seat {
                    token,
                    number: 0,
                    rest: 1 << 32,
                },
            )),
            Err(_) => Err(NoMemory),
        }
    }

    /// Ends the turn, once all other seats were joined into this one, and gives the state and the whole
    /// history: the entries of each seat are those that it made, in order, and there are no others.
    pub fn close(self, seat: Seat<S>) -> (S, Vec<Entry<S::Request, S::Reply>>)
        requires seat { IsSeatOf self seat }
        requires last { length (view_of seat).made + (view_of seat).rest ≡ all_numbers }
        ensures { Closes S.takes S.after S.answer (start_of self)
            (view_of seat) result.0 result.1.items }
    {
        let Turn { table } = self;
        let Seat {
            token,
            number: _,
            rest: _,
        } = seat;
        let mut closed = table.close_with(token);
        let book = closed.take(0);
        closed.free();
        book.into_parts()
    }
}

impl<S: Replays> Seat<S> {
    /// Waits for the turn, asks the state, and keeps the call in the history under this iteration. Gives
    /// the reply, and the length of the history with this call. All memory is taken before the call
    /// counts: with `NoMemory` the state and the history stay as they were.
    pub fn call<R: Wait>(
        &mut self,
        rt: &R,
        turn: &Turn<S>,
        iteration: u32,
        request: S::Request,
    ) -> Result<(S::Reply, Front), NoMemory>
        requires seat { IsSeatOf turn.now self.old }
        requires takes { S.takes (start_of turn.now) request }
        ensures seat { IsSeatOf turn.now self.new }
        ensures had { IfOk result (λ r. S.can_have request r.0) }
        ensures call { MatchResult result (λ r.
            Called S.takes S.after S.answer (view_of self.old) iteration request r.0 r.1.0
            (view_of self.new)) (λ _. Looked S.takes S.after S.answer (view_of self.old)
            (view_of self.new)) }
    {
        turn.take(rt, &mut self.token);
        let Ok(reply) = turn.ask(&mut self.token, self.number, iteration, request) else {
            turn.give(&mut self.token);
            return Err(NoMemory);
        };
        let found = turn.count(&mut self.token);
        turn.give(&mut self.token);
        Ok((reply, Front(found + 1)))
    }

    /// A seat for another thread. It has seen as much, has a number of its own, has made nothing, and may
    /// not be split itself.
    pub fn split(&mut self, turn: &Turn<S>) -> Seat<S>
        requires seat { IsSeatOf turn.now self.old }
        requires numbers { 0 < (view_of self.old).rest }
        ensures seats { IsSeatOf turn.now self.new × IsSeatOf turn.now result }
        ensures views { (view_of self.new ≡ gave_number (view_of self.old)) ×
            (view_of result ≡ split_off (view_of self.old)) }
    {
        let token = turn.table.shared.split_seat::<Halves<S>>(&mut self.token);
        let number = ALL_NUMBERS - self.rest;
        self.rest -= 1;
        Seat {
            token,
            number,
            rest: 0,
        }
    }

    /// Takes in another seat, with the numbers that it holds and what was made under them. It has then
    /// seen what the one of them has that saw more.
    pub fn join(&mut self, turn: &Turn<S>, other: Seat<S>)
        requires seats { IsSeatOf turn.now self.old × IsSeatOf turn.now other }
        ensures seat { IsSeatOf turn.now self.new }
        ensures view { view_of self.new ≡ both (view_of self.old) (view_of other) }
    {
        let Seat {
            token,
            number: _,
            rest,
        } = other;
        turn.table
            .shared
            .join_seat::<Halves<S>>(&mut self.token, token);
        self.rest = self.rest.max(rest);
    }
}
