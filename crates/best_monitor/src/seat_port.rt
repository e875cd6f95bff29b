//! A port over a seat of a turn.
ghost use Rattle.std.specs.Prelude.{◌≡◌, [], None, Some};
ghost use Rattle.best_turn.specs.Seats.{start_of, IsSeatOf, view_of};
ghost use Rattle.best_monitor.specs.Port.{OverSeat, asked_since, base_of, MadeSince};

use crate::port::{MonitorPort, PortStop};
use best_turn::{Replays, Seat, Turn};
use cbl_base::NoMemory;
use std::snapshot::Snapshot;
use std::sync::Wait;

/// Asks through a seat in the name of one iteration, and waits for the turn. It tells no rest, so it
/// never differs. It takes the requests that the turn's state takes.
#[derive(Drop)]
pub struct SeatPort<'a, S: Replays, R> {
    rt: &'a R,
    pub turn: &'a Turn<S>,
    pub seat: Seat<S>,
    pub iteration: u32,
    // The seat as it was when the port was opened.
    opened: Snapshot<Seat<S>>,
    ghost since: { MadeSince iteration opened.value seat },
    ghost own: { IsSeatOf turn.now seat },
}

impl<'a, S: Replays, R> SeatPort<'a, S, R> {
    /// A port over this seat for this iteration, through which nothing was asked yet.
    pub fn new(rt: &'a R, turn: &'a Turn<S>, seat: Seat<S>, iteration: u32) -> SeatPort<'a, S, R>
        requires { IsSeatOf turn.now seat }
        ensures turn { result.turn.now ≡ turn.now }
        ensures seat { result.seat ≡ seat }
        ensures iteration { result.iteration ≡ iteration }
        ensures opened { result.opened.value ≡ seat }
        ensures fresh { asked_since (view_of result.opened.value).made (view_of result.seat).made ≡
            [] }
    {
        let opened = Snapshot::of(&seat);
        SeatPort {
            rt,
            turn,
            seat,
            iteration,
            opened,
        }
    }

    /// The seat, which made what was asked through the port, behind all that it had made before.
    pub fn into_seat(self) -> Seat<S>
        ensures seat { result ≡ self.entry.seat }
        ensures since { MadeSince self.entry.iteration self.entry.opened.value result }
        ensures own { IsSeatOf self.entry.turn.now result }
    {
        let SeatPort {
            rt: _,
            turn: _,
            seat,
            iteration: _,
            opened: _,
        } = self;
        seat
    }
}

impl<'a, S: Replays, R: Wait> MonitorPort<S> for SeatPort<'a, S, R> {
    ghost asked = { λ p. asked_since (view_of p.opened.value).made (view_of p.seat).made };

    ghost rest = { λ p. None };

    ghost odds = { λ p q. (0, [], []) };

    ghost takes = { λ p q. S.takes (start_of p.turn.now) q };

    ghost base = { λ p. Some (OverSeat (base_of p.opened.value p.iteration)) };

    fn ask(&mut self, request: S::Request) -> Result<S::Reply, PortStop> {
        match self.seat.call(self.rt, self.turn, self.iteration, request) {
            Ok((reply, _)) => Ok(reply),
            Err(NoMemory) => Err(PortStop::NoMemory),
        }
    }

    ghost rest_had = { λ p. tt };
}
