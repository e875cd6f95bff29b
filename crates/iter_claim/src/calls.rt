//! How claims are made, drawn and closed.
ghost use Rattle.std.specs.Prelude.{◌≡◌, ◌+◌, ◌<◌, ◌≤◌, ◌++◌, ◌∷◌, ◌||◌, [], true, false, length, IfOk, IfSome, IfNone};
ghost use Rattle.iter_claim.specs.Numbers.{AllLess, HoldsEachOnce};
ghost use Rattle.iter_claim.specs.Seats.{all_seats, count_of, drawn_by, seats_from, is_done, IsSeatOf};

use crate::claims::{ClaimSeat, Claims, Draw, Sharing};
use atomic_table::Table;
use cbl_base::NoMemory;
use std::alloc::Global;

impl Claims {
    /// The numbers from 0 to `n` - 1, and the one seat that may be split. `NoMemory` where there is none
    /// for the table.
    pub fn make(alloc: Global, n: u32) -> Result<(Claims, ClaimSeat), NoMemory>
        ensures count { IfOk result (λ m. count_of m.0 ≡ n) }
        ensures seat { IfOk result (λ m. IsSeatOf m.0 m.1 × (seats_from m.1 ≡ all_seats)) }
        ensures fresh { IfOk result (λ m. (drawn_by m.1 ≡ []) × (is_done m.1 ≡ false)) }
    {
        match Table::of_words(alloc, &[0], &n) {
            Ok((table, token)) => Ok((
                Claims { table, count: n },
                ClaimSeat {
                    token,
                    stopped: false,
                },
            )),
            Err(_) => Err(NoMemory),
        }
    }

    /// Ends the claims, once all other seats were joined into this one: the numbers drawn are the first
    /// ones, each once, and all of them if a seat was answered `None`.
    pub fn close(self, seat: ClaimSeat)
        requires seat { IsSeatOf self seat }
        requires last { seats_from seat ≡ all_seats }
        ensures once { HoldsEachOnce (drawn_by seat) }
        ensures within { length (drawn_by seat) ≤ count_of self }
        ensures all { is_done seat ≡ true → length (drawn_by seat) ≡ count_of self }
    {
        let Claims { table, count: _ } = self;
        let ClaimSeat { token, stopped: _ } = seat;
        table.close_with(token).free();
    }
}

impl ClaimSeat {
    /// A seat for another thread, which has drawn nothing and may not be split itself.
    pub fn split(&mut self, claims: &Claims) -> ClaimSeat
        requires seat { IsSeatOf claims.now self.old }
        requires seats { 2 ≤ seats_from self.old }
        ensures seats { IsSeatOf claims.now self.new × IsSeatOf claims.now result }
        ensures given { (seats_from self.new + 1 ≡ seats_from self.old) × (seats_from result ≡ 1) }
        ensures drawn { (drawn_by self.new ≡ drawn_by self.old) × (drawn_by result ≡ []) }
        ensures done { (is_done self.new ≡ is_done self.old) × (is_done result ≡ is_done self.old) }
    {
        let token = claims.table.shared.split_seat::<Sharing>(&mut self.token);
        ClaimSeat {
            token,
            stopped: self.stopped,
        }
    }

    /// The next number that no seat has drawn, from 0 on. `None` exactly where all were drawn, and from
    /// then on.
    pub fn claim(&mut self, claims: &Claims) -> Option<u32>
        requires { IsSeatOf claims.now self.old }
        ensures seat { IsSeatOf claims.now self.new × (seats_from self.new ≡ seats_from self.old) }
        ensures number { IfSome result (λ k. (k < count_of claims.now) ×
            AllLess k (drawn_by self.old) × (drawn_by self.new ≡ drawn_by self.old ++ k ∷ [])) }
        ensures going { IfSome result (λ _. (is_done self.old ≡ false) ×
            (is_done self.new ≡ false)) }
        ensures none { IfNone result ((is_done self.new ≡ true) ×
            (drawn_by self.new ≡ drawn_by self.old)) }
    {
        if self.stopped {
            return None;
        }
        let found = claims.table.shared.fetch_add::<Draw>(&mut self.token, 0, 1);
        if found < claims.count as u64 {
            return Some(found as u32);
        }
        self.stopped = true;
        None
    }

    /// Takes in another seat, with the numbers that it drew behind its own.
    pub fn join(&mut self, claims: &Claims, other: ClaimSeat)
        requires seats { IsSeatOf claims.now self.old × IsSeatOf claims.now other }
        ensures seat { IsSeatOf claims.now self.new }
        ensures given { seats_from self.new ≡ seats_from self.old + seats_from other }
        ensures drawn { drawn_by self.new ≡ drawn_by self.old ++ drawn_by other }
        ensures done { is_done self.new ≡ (is_done self.old || is_done other) }
    {
        let ClaimSeat { token, stopped } = other;
        claims
            .table
            .shared
            .join_seat::<Sharing>(&mut self.token, token);
        self.stopped = self.stopped || stopped;
    }
}
