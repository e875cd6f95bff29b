//! Where one iteration asks.
ghost use Rattle.std.specs.Prelude.{◌≡◌, ◌↔◌, ℕ, List, [], ◌∷◌, ◌++◌, Option, IfOk, IfErr, MatchResult};
ghost use Rattle.best_monitor.specs.Port.{Base, Odds, GoesOn, StopsAsTold, HoldsAll};

use best_turn::Replays;
use cbl_base::Text;

/// Why a port gave no reply.
#[derive(Drop, Debug)]
pub enum PortStop {
    NoMemory,
    /// The journal that is replayed has another request there, or none: its line, what was asked and what
    /// the journal has.
    Differs(u64, Text, Text),
}

/// Where one iteration asks a shared state.
///
/// Its meanings are `asked` (the requests and replies so far), `rest` (where a journal is replayed, the
/// requests and replies that are still to come), `odds` (with which line and texts a request that the
/// rest doesn't begin with is answered; it is looked at only where a rest is told), `takes` (which
/// requests it takes) and `base` (where it stands on a seat or on a journal, what no request changes of
/// that).
pub trait MonitorPort<S: Replays> {
    ghost asked: { Self → List (S.Request × S.Reply) };

    ghost rest: { Self → Option (List (S.Request × S.Reply)) };

    ghost odds: { Self → S.Request → Odds };

    ghost takes: { Self → S.Request → Type 0 };

    ghost base: { Self → Option (Base S S.Request S.Reply) };

    /// The reply to a request. After every answer but `Ok` what was asked, what is still to come and the odds
    /// are as before. `Differs` comes exactly where a rest is told and doesn't begin with the request.
    fn ask(&mut self, request: S::Request) -> Result<S::Reply, PortStop>
        requires { takes self.old request }
        ensures asked { MatchResult result (λ r.
            asked self.new ≡ asked self.old ++ (request, r) ∷ []) (λ _.
            asked self.new ≡ asked self.old) }
        ensures rest { MatchResult result (λ r. GoesOn (rest self.old) request r (rest self.new))
            (λ _. rest self.new ≡ rest self.old) }
        ensures stop { IfErr result (λ stop.
            StopsAsTold (rest self.old) request (odds self.old request) stop) }
        ensures odds { IfErr result (λ _. (q : S.Request) → odds self.new q ≡ odds self.old q) }
        ensures had { IfOk result (λ r. S.can_have request r) }
        ensures base { base self.new ≡ base self.old }
        ensures takes { (q : S.Request) → (takes self.new q ↔ takes self.old q) };

    // The requests still to come can have their replies.
    ghost rest_had: { (p : Self) → HoldsAll S.can_have (rest p) };
}
