//! The book of a turn: the state, and the history of the calls on it. It lies where only the seat that
//! has the turn reaches it.
ghost use Rattle.std.specs.Prelude.{◌≡◌, ℕ, ◌<◌, ◌^◌, List, [], ◌∷◌, ◌++◌, length, map, MatchResult};
ghost use Rattle.std.specs.List.{zip};
ghost use Rattle.best_turn.specs.declared.replays.Entry.{Entry};

use crate::replays::{Entry, Replays};
use cbl_base::NoMemory;
use std::alloc::Global;
use std::marker::Model;

/// Contracts see it as the state, and the entries, each with the number of the seat that made it.
#[derive(Drop)]
pub struct Book<S, Q, R> {
    state: S,
    history: Vec<Entry<Q, R>>,
    numbers: Vec<u64>,
}

impl<S, Q, R> Model for Book<S, Q, R> {
    ghost Value = { S × List (ℕ × Entry Q R) };

    ghost view = { λ d. (d.state, zip d.numbers.items d.history.items) };

    ghost invariant = { λ d. length d.numbers.items ≡ length d.history.items };
}

impl<S: Replays> Book<S, S::Request, S::Reply> {
    /// The book of a state that was not called yet.
    pub(crate) fn new(alloc: Global, state: S) -> Book<S, S::Request, S::Reply>
        ensures { result ≡ (state, []) }
    {
        Book {
            state,
            history: Vec::new(alloc),
            numbers: Vec::new(alloc),
        }
    }

    /// Answers the request, and puts it at the end of the history. With `NoMemory`, which comes before the
    /// state changes, the book stays as it was.
    pub(crate) fn ask(
        &mut self,
        number: u64,
        iteration: u32,
        request: S::Request,
    ) -> Result<S::Reply, NoMemory>
        requires { S.takes self.old.0 request }
        ensures { MatchResult result (λ r. (r ≡ S.answer self.old.0 request) ×
            (self.new ≡ (
              S.after self.old.0 request,
              self.old.1 ++
                  (number, record { iteration = iteration; request = request; reply = r }) ∷ [],
            )) ×
            (length self.new.1 < 2 ^ 64)) (λ _. self.new ≡ self.old) }
    {
        let Ok(kept) = self.state.reply(&request) else {
            return Err(NoMemory);
        };
        let Ok(()) = self.history.reserve(1) else {
            return Err(NoMemory);
        };
        let Ok(()) = self.numbers.reserve(1) else {
            return Err(NoMemory);
        };
        let Ok(reply) = self.state.step(&request) else {
            return Err(NoMemory);
        };
        self.numbers.push_reserved(number);
        self.history.push_reserved(Entry {
            iteration,
            request,
            reply: kept,
        });
        Ok(reply)
    }

    /// The state, and the history without the numbers.
    pub(crate) fn into_parts(self) -> (S, Vec<Entry<S::Request, S::Reply>>)
        ensures state { result.0 ≡ self.0 }
        ensures history { result.1.items ≡ map (λ x. x.1) self.1 }
    {
        let Book {
            state,
            history,
            numbers: _,
        } = self;
        (state, history)
    }
}
