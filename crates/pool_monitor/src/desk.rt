//! The desk: all monitors and pools of a program.
ghost use Rattle.std.specs.Prelude.{◌≡◌, ◌<◌, ◌≤◌, [], ◌∷◌, ◌++◌, length, IfOk, OnErr, MatchResult, Some};
ghost use Rattle.best_monitor.specs.Board.{fresh_monitor};
ghost use Rattle.pool_monitor.specs.Pool.{empty_pool};
ghost use Rattle.pool_monitor.specs.Desk.{desk_step, desk_after, desk_answer, IsDeclared};
ghost use Rattle.pool_monitor.specs.Replies.{CanHave, TakesMemory, CopiesOut};

use crate::pool::Pool;
use crate::request::DeskRequest;
use best_monitor::{Board, Reply};
use best_turn::Replays;
use cbl_base::NoMemory;
use cbl_base::limits::MAX_POOL_SOLUTIONS;
use std::alloc::Global;
use std::marker::Model;

/// The monitors and the pools of a program.
#[derive(Drop)]
pub struct Desk {
    board: Board,
    pools: Vec<Pool>,
    alloc: Global,
}

impl Model for Desk {
    ghost use Rattle.pool_monitor.specs.Desk.{DeskState};

    ghost Value = { DeskState };

    ghost view = { λ d. record { board = d.board; pools = d.pools.items } };
}

impl Desk {
    /// A desk without monitors and pools.
    pub fn new(alloc: Global) -> Desk
        ensures { result ≡ record { board = []; pools = [] } }
    {
        Desk {
            board: Board::new(alloc),
            pools: Vec::new(alloc),
            alloc,
        }
    }

    /// Adds a monitor without a best, and gives its number: how many monitors there were. With
    /// `NoMemory`, which also stands for more monitors than 32 bits count, the desk stays as it was.
    pub fn declare(&mut self) -> Result<u32, NoMemory>
        ensures { MatchResult result (λ m. (m ≡ length self.old.board) × (self.new ≡ record {
          board = self.old.board ++ fresh_monitor ∷ [];
          pools = self.old.pools;
        })) (λ _. self.new ≡ self.old) }
    {
        self.board.declare()
    }

    /// Adds an empty pool that keeps at most `most` solutions, and gives its number: how many pools there
    /// were. With `NoMemory`, which also stands for more pools than 32 bits count, the desk stays as it
    /// was.
    pub fn declare_pool(&mut self, most: u32) -> Result<u32, NoMemory>
        requires { (1 ≤ most) × (most ≤ MAX_POOL_SOLUTIONS) }
        ensures { MatchResult result (λ p. (p ≡ length self.old.pools) × (self.new ≡ record {
          board = self.old.board;
          pools = self.old.pools ++ empty_pool most ∷ [];
        })) (λ _. self.new ≡ self.old) }
    {
        let Ok(number) = u32::try_from(self.pools.len()) else {
            return Err(NoMemory);
        };
        self.pools.push(Pool::new(self.alloc, most))?;
        Ok(number)
    }
}

impl Replays for Desk {
    ghost use Rattle.pool_monitor.specs.DeskLaws.{takes_same, answer_had};

    type Request = DeskRequest;

    type Reply = Reply;

    ghost takes = { IsDeclared };

    ghost after = { desk_after };

    ghost answer = { desk_answer };

    ghost can_have = { CanHave };

    /// The reply that `step` would give. It changes nothing, and is always Ok but for `Copy` and `Take`.
    fn reply(&self, request: &DeskRequest) -> Result<Reply, NoMemory>
        requires { IsDeclared self.now request.now }
        ensures reply { IfOk result (λ r. r ≡ desk_answer self.now request.now) }
        ensures memory { OnErr result (CopiesOut request.now) }
    {
        match request {
            DeskRequest::Best(request) => self.board.reply(request),
            DeskRequest::Pool(request) => {
                self.pools[request.pool() as usize].reply(self.alloc, request)
            }
        }
    }

    /// Makes the desk after the request, and gives its reply. With `NoMemory` the desk stays as it was.
    /// It is always Ok but for `Report`, `Copy`, `Add` and `Take`.
    fn step(&mut self, request: &DeskRequest) -> Result<Reply, NoMemory>
        requires { IsDeclared self.old request.now }
        ensures step { MatchResult result (λ r.
            desk_step self.old request.now ≡ Some (self.new, r)) (λ _. self.new ≡ self.old) }
        ensures numbers { (length self.new.board ≡ length self.old.board) ×
            (length self.new.pools ≡ length self.old.pools) }
        ensures memory { OnErr result (TakesMemory request.now) }
    {
        match request {
            DeskRequest::Best(request) => self.board.step(request),
            DeskRequest::Pool(request) => {
                let alloc = self.alloc;
                self.pools[request.pool() as usize].step(alloc, request)
            }
        }
    }

    ghost takes_same = { takes_same };

    ghost answer_had = { answer_had };
}
