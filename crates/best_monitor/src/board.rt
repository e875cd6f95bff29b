//! The board: all monitors of a program.
ghost use Rattle.std.specs.Prelude.{◌≡◌, ◌<◌, [], ◌∷◌, ◌++◌, length, false, IfOk, OnErr, MatchResult, Some};
ghost use Rattle.best_monitor.specs.Board.{board_step, board_after, board_answer, IsDeclared, fresh_monitor};
ghost use Rattle.best_monitor.specs.Replies.{CanHave, TakesMemory, CopiesOut};

use crate::monitor::Monitor;
use crate::request::{Reply, Request};
use best_turn::Replays;
use cbl_base::NoMemory;
use std::alloc::Global;
use std::marker::Model;

/// The monitors of a program, and seen as their list.
#[derive(Drop)]
pub struct Board {
    monitors: Vec<Monitor>,
    alloc: Global,
}

impl Model for Board {
    ghost use Rattle.std.specs.Prelude.{List};
    ghost use Rattle.best_monitor.specs.declared.monitor.Monitor.{Monitor};

    ghost Value = { List Monitor };

    ghost view = { λ b. b.monitors.items };
}

impl Board {
    /// A board without monitors.
    pub fn new(alloc: Global) -> Board
        ensures { result ≡ [] }
    {
        Board {
            monitors: Vec::new(alloc),
            alloc,
        }
    }

    /// Adds a monitor without a best, and gives its number: how many there were. With `NoMemory`, which
    /// also stands for more monitors than 32 bits count, the board stays as it was.
    pub fn declare(&mut self) -> Result<u32, NoMemory>
        ensures { MatchResult result (λ m. (m ≡ length self.old) ×
            (self.new ≡ self.old ++ fresh_monitor ∷ [])) (λ _. self.new ≡ self.old) }
    {
        let Ok(number) = u32::try_from(self.monitors.len()) else {
            return Err(NoMemory);
        };
        self.monitors.push(Monitor::new())?;
        Ok(number)
    }
}

impl Replays for Board {
    ghost use Rattle.best_monitor.specs.BoardLaws.{takes_same, answer_had};

    type Request = Request;

    type Reply = Reply;

    ghost takes = { IsDeclared };

    ghost after = { board_after };

    ghost answer = { board_answer };

    ghost can_have = { CanHave };

    /// The reply that `step` would give. It changes nothing, and is always Ok but for `Copy`.
    fn reply(&self, request: &Request) -> Result<Reply, NoMemory>
        requires { IsDeclared self.now request.now }
        ensures reply { IfOk result (λ r. r ≡ board_answer self.now request.now) }
        ensures memory { OnErr result (CopiesOut request.now) }
    {
        let monitor = &self.monitors[request.monitor() as usize];
        monitor.reply(self.alloc, request)
    }

    /// Makes the board after the request, and gives its reply. With `NoMemory` the board stays as it was.
    /// It is always Ok but for `Report` and `Copy`.
    fn step(&mut self, request: &Request) -> Result<Reply, NoMemory>
        requires { IsDeclared self.old request.now }
        ensures step { MatchResult result (λ r.
            board_step self.old request.now ≡ Some (self.new, r)) (λ _. self.new ≡ self.old) }
        ensures monitors { length self.new ≡ length self.old }
        ensures memory { OnErr result (TakesMemory request.now) }
    {
        let alloc = self.alloc;
        let monitor = &mut self.monitors[request.monitor() as usize];
        monitor.step(alloc, request)
    }

    ghost takes_same = { takes_same };

    ghost answer_had = { answer_had };
}
