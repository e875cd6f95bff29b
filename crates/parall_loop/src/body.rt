//! The body of a loop, and one iteration of it over a seat.
ghost use Rattle.std.specs.Prelude.{◌≡◌, ◌++◌, ℕ, List, Option, length};
ghost use Rattle.best_turn.specs.Seats.{start_of, IsSeatOf, view_of};
ghost use Rattle.best_monitor.specs.declared.port.PortStop.{PortStop};
ghost use Rattle.best_monitor.specs.Port.{entries_for, with_all};
ghost use Rattle.parall_loop.specs.Iteration.{Next, Asks, Runs, RunsOnSeat, CutAsTold, with_asked, then_comes};

use best_monitor::{MonitorPort, SeatPort};
use best_turn::{Replays, Seat, Turn};
use std::sync::Wait;

/// What a loop does in each iteration.
///
/// Its meanings are `asks` (what an iteration does next, behind a list of replies) and `stop` (for what the
/// iteration of an outcome broke off, if it did: want of memory, or its port's journal that differs).
pub trait IterBody<S: Replays> {
    type Outcome: Drop;

    ghost asks: { Self → ℕ → List S.Reply → Next S.Request Self.Outcome };

    ghost stop: { Self.Outcome → Option PortStop };

    /// Runs an iteration, and gives its port back with the outcome. It asks the port just what `asks` says of
    /// the replies so far, so that of a rest that is told there is left what stands behind what was asked.
    /// Unless it is cut, it ends as `asks` says. It is cut for want of memory, or by `Differs` where the rest
    /// doesn't begin with what it asks, with the odds of that.
    fn run<P: MonitorPort<S>>(&self, iteration: u32, port: P) -> (P, Self::Outcome)
        requires { (replies : List S.Reply) (q : S.Request) →
            asks self.now iteration replies ≡ Asks q → P.takes port q }
        ensures ran { (asked : List (S.Request × S.Reply)) ×
            (P.asked result.0 ≡ P.asked port ++ asked) ×
            (P.rest port ≡ with_asked asked (P.rest result.0)) ×
            Runs (asks self.now iteration) (stop result.1) asked result.1 ×
            CutAsTold (then_comes (asks self.now iteration) asked) (P.rest result.0)
            (P.odds result.0) (stop result.1) }
        ensures base { P.base result.0 ≡ P.base port };
}

/// Runs an iteration over a seat, which makes its entries behind all that it had made before. If it is cut, then
/// for want of memory. It may wait.
pub fn run_iteration<S: Replays, B: IterBody<S>, R: Wait>(
    rt: &R,
    turn: &Turn<S>,
    body: &B,
    seat: Seat<S>,
    iteration: u32,
) -> (Seat<S>, B::Outcome)
    requires seat { IsSeatOf turn.now seat }
    requires takes { (replies : List S.Reply) (q : S.Request) →
        B.asks body.now iteration replies ≡ Asks q → S.takes (start_of turn.now) q }
    ensures seat { IsSeatOf turn.now result.0 × ((view_of result.0).rest ≡ (view_of seat).rest) ×
        (length (view_of result.0).made ≡ length (view_of seat).made) }
    ensures made { (asked : List (S.Request × S.Reply)) ×
        ((view_of result.0).made ≡ with_all (entries_for iteration asked) (view_of seat).made) ×
        RunsOnSeat (B.asks body.now iteration) (B.stop result.1) asked result.1 }
{
    let port = SeatPort::new(rt, turn, seat, iteration);
    let (port, outcome) = body.run(iteration, port);
    (port.into_seat(), outcome)
}
