//! The turn, the seats from which threads call, and the steps of a call.
ghost use Rattle.std.specs.Prelude.{◌≡◌, ℕ, ◌+◌, ◌<◌, ◌≤◌, List, [], ◌∷◌, ◌++◌, length, IsSome, IfOk, MatchResult, false};
ghost use Rattle.best_turn.specs.Calls.{entry, HasNumber, HoldsBook, Pushed, IsNext, IsWhole};
ghost use Rattle.best_turn.specs.Rule.{gave, Takes, Counts};

use crate::book::Book;
use crate::replays::Replays;
use crate::view::View;
use atomic_table::{Join, Play, Split, Table, TableRule};
use cbl_base::NoMemory;
use std::alloc::Global;
use std::marker::{Model, PhantomData};
use std::snapshot::Snapshot;
use std::sync::Wait;

type Held<S> = Book<S, <S as Replays>::Request, <S as Replays>::Reply>;

type Knows<S> = View<S, <S as Replays>::Request, <S as Replays>::Reply>;

type Token<S> = atomic_table::Seat<Held<S>, Knows<S>>;

// What word 0 says: nobody has the turn, a seat has it, or a seat has it and others may sleep.
const FREE: u64 = 0;

const TAKEN: u64 = 1;

const AWAITED: u64 = 2;

pub struct InTurn<S> {
    marker: PhantomData<S>,
}

impl<S: Replays> TableRule<Held<S>, Knows<S>, Snapshot<S>> for InTurn<S> {
    ghost use Rattle.best_turn.specs.Rule.{Kept, newcomer};
    ghost use Rattle.std.specs.Prelude.{[]};

    ghost holds = { λ key. Kept S.takes S.after S.answer key.value };

    ghost first = { λ key. newcomer key.value [] 0 4294967296 };
}

struct Take<S> {
    marker: PhantomData<S>,
}

impl<S: Replays> Play<Held<S>, Knows<S>> for Take<S> {
    ghost use Rattle.best_turn.specs.Rule.{take_tells};

    ghost then = { take_tells S.takes S.after S.answer };
}

struct Warn<S> {
    marker: PhantomData<S>,
}

impl<S: Replays> Play<Held<S>, Knows<S>> for Warn<S> {
    ghost use Rattle.best_turn.specs.Rule.{warn_tells};

    ghost then = { warn_tells };
}

struct Count<S> {
    marker: PhantomData<S>,
}

impl<S: Replays> Play<Held<S>, Knows<S>> for Count<S> {
    ghost use Rattle.best_turn.specs.Rule.{count_tells};

    ghost then = { count_tells };
}

struct Give<S> {
    marker: PhantomData<S>,
}

impl<S: Replays> Play<Held<S>, Knows<S>> for Give<S> {
    ghost use Rattle.best_turn.specs.Rule.{give_tells};

    ghost then = { give_tells };
}

pub(crate) struct Halves<S> {
    marker: PhantomData<S>,
}

impl<S: Replays> Split<Knows<S>> for Halves<S> {
    ghost use Rattle.best_turn.specs.Rule.{gave_number, split_off};

    ghost left = { gave_number };

    ghost right = { split_off };
}

impl<S: Replays> Join<Knows<S>> for Halves<S> {
    ghost use Rattle.best_turn.specs.Rule.{both as both_of, spent as spent_view};

    ghost both = { both_of };

    ghost spent = { spent_view };
}

/// A state that threads call one at a time, with the history of their calls. Threads share it by
/// reference. Contracts see it as its table's name and the state that it began with.
#[derive(Drop)]
pub struct Turn<S: Replays> {
    pub(crate) table: Table<Held<S>, Knows<S>, Snapshot<S>, InTurn<S>, Global>,
}

impl<S: Replays> Model for Turn<S> {
    ghost use Rattle.std.specs.Prelude.{◌≡◌};
    ghost use Rattle.atomic_table.specs.Seated.{TableId};

    ghost Value = { TableId × S };

    ghost view = { λ t. (t.table.shared.table_id, t.table.shared.key.value) };

    ghost invariant = { λ t. (t.table.shared.table_id.words ≡ 2) ×
        (t.table.shared.table_id.slots ≡ 1) };
}

/// Where a thread calls from. It can go to another thread. Contracts see it as the name of its turn's
/// table and what it knows.
#[derive(Drop)]
pub struct Seat<S: Replays> {
    pub(crate) token: Token<S>,
    pub(crate) number: u64,
    pub(crate) rest: u64,
}

impl<S: Replays> Model for Seat<S> {
    ghost use Rattle.std.specs.Prelude.{◌≡◌, ◌≤◌, [], false};
    ghost use Rattle.atomic_table.specs.Seated.{TableId};
    ghost use Rattle.best_turn.specs.declared.view.View.{View};
    ghost use Rattle.best_turn.specs.Calls.{HasNumber};

    ghost Value = { TableId × View S S.Request S.Reply };

    ghost view = { λ s. (s.token.table_id, s.token.me.0) };

    ghost invariant = { λ s. (s.token.me.1 ≡ []) × (s.token.me.0.has_turn ≡ false) ×
        HasNumber s.number s.token.me.0.made × (s.token.me.0.rest ≡ s.rest) ×
        (s.rest ≤ 4294967296) };
}

impl<S: Replays> Turn<S> {
    // Waits until the turn is free, and takes it: the book is with the seat, which sees the whole history.
    // A thread that waits sleeps, and says so before in the word. One that slept takes the turn with a word
    // that says so still, since others may sleep.
    pub(crate) fn take<R: Wait>(&self, rt: &R, token: &mut Token<S>)
        requires table { token.old.table_id ≡ self.now.0 }
        requires seat { IsSome token.old.me.0.start × (0 < length token.old.me.0.made) }
        ensures table { (token.new.table_id ≡ token.old.table_id) × (token.new.id ≡ token.old.id) }
        ensures taken { Takes S.takes S.after S.answer token.old.me token.new.me }
    {
        let table = &self.table.shared;
        if table.compare_exchange::<Take<S>>(token, 0, FREE, TAKEN) == FREE {
            return;
        }
        for _ in rt.forever() {
            if table.compare_exchange::<Warn<S>>(token, 0, TAKEN, AWAITED) != FREE {
                table.park(rt, 0, AWAITED as u32);
            }
            if table.compare_exchange::<Take<S>>(token, 0, FREE, AWAITED) == FREE {
                return;
            }
        }
        unreachable!()
    }

    // Asks the state in the book that the seat holds.
    pub(crate) fn ask(
        &self,
        token: &mut Token<S>,
        number: u64,
        iteration: u32,
        request: S::Request,
    ) -> Result<S::Reply, NoMemory>
        requires table { token.old.table_id ≡ self.now.0 }
        requires held { HoldsBook token.old.me (λ d. S.takes d.0 request) }
        ensures table { (token.new.table_id ≡ token.old.table_id) × (token.new.id ≡ token.old.id) ×
            (token.new.me.0 ≡ token.old.me.0) }
        ensures asked { HoldsBook token.old.me (λ d.
            MatchResult result (λ r. (r ≡ S.answer d.0 request) ×
            Pushed S.after d number iteration request r token.new.me) (λ _.
            token.new.me.1 ≡ (0, d) ∷ [])) }
    {
        let book = token.slot_mut(&self.table.shared, 0);
        book.ask(number, iteration, request)
    }

    // Counts the last entry of the book that the seat holds. This one step fixes its place in the history.
    pub(crate) fn count(&self, token: &mut Token<S>) -> u64
        requires table { token.old.table_id ≡ self.now.0 }
        requires held { HoldsBook token.old.me (λ d.
            IsNext S.takes S.after S.answer token.old.me.0 d) }
        ensures table { (token.new.table_id ≡ token.old.table_id) × (token.new.id ≡ token.old.id) }
        ensures counted { (result ≡ length token.old.me.0.seen) ×
            (token.new.me.1 ≡ token.old.me.1) ×
            Counts token.old.me.0 token.old.me.1 token.new.me.0 }
    {
        self.table.shared.fetch_add::<Count<S>>(token, 1, 1)
    }

    // Gives the turn up, and the book comes home. Only where a thread may sleep one is woken.
    pub(crate) fn give(&self, token: &mut Token<S>)
        requires table { token.old.table_id ≡ self.now.0 }
        requires held { HoldsBook token.old.me (λ d. IsWhole S.after token.old.me.0 d) }
        ensures table { (token.new.table_id ≡ token.old.table_id) × (token.new.id ≡ token.old.id) }
        ensures given { token.new.me ≡ (gave token.old.me.0, []) }
    {
        let found = self.table.shared.swap::<Give<S>>(token, 0, FREE);
        if found == AWAITED {
            self.table.shared.wake_one(0);
        }
    }
}
