//! The port.
ghost use Rattle.std.specs.Prelude.{◌≡◌, ◌≤◌, ◌+◌, Some, List, Option, IfOk, MatchResult, drop, take, length, slice_get, option_copied};
ghost use Rattle.best_monitor.specs.Port.{OverJournal, GoesAstray, StopsAsTold, HoldsAll};
ghost use Rattle.pool_monitor.specs.declared.request.DeskRequest.{DeskRequest};
ghost use Rattle.best_monitor.specs.declared.request.Reply.{Reply};
ghost use Rattle.pool_monitor.specs.Replies.{CanHave};
ghost use Rattle.replay_port.specs.Lines.{lines_of, pairs_of};
ghost use Rattle.replay_port.specs.Odds.{odds_of};
ghost use Rattle.replay_port.specs.LineLaws.{had_prop};

use crate::lines::EntryLine;
use crate::same::is_same;
use crate::texts::{print_asked, print_nothing};
use best_monitor::{MonitorPort, PortStop, Reply};
use cbl_base::{NoMemory, Numbers, Text};
use pool_monitor::{Desk, DeskRequest};
use std::alloc::Global;

/// Replays the entries of one iteration. It replies as they do while it is asked what they ask, in order. It takes
/// each request, and differs exactly where no entry is left or the next one has another request.
#[derive(Drop)]
pub struct ReplayPort<'a> {
    alloc: Global,
    loop_line: u64,
    iteration: u32,
    entries: &'a [EntryLine<'a>],
    // How many of the entries were replayed.
    replayed: usize,
    ghost had: { HoldsAll CanHave (Some (pairs_of (lines_of entries.now))) } by { had_prop (Some (pairs_of (lines_of entries.now))) },
}

impl<'a> ReplayPort<'a> {
    /// A port over these entries of an iteration, each with its line, in the loop that begins on this line of the
    /// journal. Each entry's reply is one that its request can have.
    pub fn new(
        alloc: Global,
        loop_line: u64,
        iteration: u32,
        entries: &'a [EntryLine<'a>],
    ) -> ReplayPort<'a>
        requires had { HoldsAll CanHave (Some (pairs_of (lines_of entries.now))) }
        ensures line { result.loop_line ≡ loop_line }
        ensures iteration { result.iteration ≡ iteration }
        ensures entries { result.entries.now ≡ entries.now }
        ensures fresh { result.replayed ≡ 0 }
    {
        ReplayPort {
            alloc,
            loop_line,
            iteration,
            entries,
            replayed: 0,
        }
    }

    /// The entries that are left.
    pub fn left(&self) -> &'a [EntryLine<'a>]
        ensures { result.now ≡ drop self.now.replayed self.now.entries.now }
    {
        self.entries.get(self.replayed..).unwrap_or(&[])
    }

    // By what a request differs from what is left.
    fn differs(&self, request: &DeskRequest) -> PortStop
        ensures { (rest : Option (List (DeskRequest × Reply))) → GoesAstray rest request.now →
            StopsAsTold rest request.now (odds_of self.now.loop_line self.now.iteration
            (drop self.now.replayed (lines_of self.now.entries.now)) request.now) result }
    {
        let Ok(asked) = print_asked(self.alloc, self.iteration, request) else {
            return PortStop::NoMemory;
        };
        let Some(next) = self.entries.get(self.replayed) else {
            return match print_nothing(self.alloc) {
                Ok(nothing) => PortStop::Differs(self.loop_line, asked, nothing),
                Err(NoMemory) => PortStop::NoMemory,
            };
        };
        match print_asked(self.alloc, next.entry.iteration, &next.entry.request) {
            Ok(found) => PortStop::Differs(next.line, asked, found),
            Err(NoMemory) => PortStop::NoMemory,
        }
    }
}

fn copied(alloc: Global, reply: &Reply) -> Result<Reply, NoMemory>
    ensures { IfOk result (λ r. r ≡ reply.now) }
{
    match reply {
        Reply::Truth(holds) => Ok(Reply::Truth(*holds)),
        Reply::Number(number) => Ok(Reply::Number(*number)),
        Reply::List(list) => Ok(Reply::List(Numbers::from_slice(alloc, list.as_slice())?)),
        Reply::Missing => Ok(Reply::Missing),
        Reply::Long(length) => Ok(Reply::Long(*length)),
        Reply::Done => Ok(Reply::Done),
    }
}

impl<'a> MonitorPort<Desk> for ReplayPort<'a> {
    ghost use Rattle.std.specs.Prelude.{Some, drop, take};
    ghost use Rattle.best_monitor.specs.Port.{OverJournal};
    ghost use Rattle.replay_port.specs.Lines.{lines_of, pairs_of};
    ghost use Rattle.replay_port.specs.Odds.{odds_of};
    ghost use Rattle.replay_port.specs.LineLaws.{left_had};
    ghost use Rattle.pool_monitor.specs.Replies.{CanHave};

    ghost asked = { λ p. take p.replayed (pairs_of (lines_of p.entries.now)) };

    ghost rest = { λ p. Some (drop p.replayed (pairs_of (lines_of p.entries.now))) };

    ghost odds = { λ p q. odds_of p.loop_line p.iteration
        (drop p.replayed (lines_of p.entries.now)) q };

    ghost takes = { λ p q. Unit {0} };

    ghost base = { λ p. Some (OverJournal (record {
      line = p.loop_line;
      iteration = p.iteration;
      whole = lines_of p.entries.now;
    })) };

    fn ask(&mut self, request: DeskRequest) -> Result<Reply, PortStop> {
        let Some(next) = self.entries.get(self.replayed) else {
            return Err(self.differs(&request));
        };
        if !is_same(&next.entry.request, &request) {
            return Err(self.differs(&request));
        }
        let Ok(reply) = copied(self.alloc, &next.entry.reply) else {
            return Err(PortStop::NoMemory);
        };
        self.replayed += 1;
        Ok(reply)
    }

    ghost rest_had = { λ p. left_had CanHave p.replayed (pairs_of (lines_of p.entries.now)) p.had };
}
