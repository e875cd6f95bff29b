//! One pool of a desk.
ghost use Rattle.std.specs.Prelude.{◌≡◌, ◌+◌, ◌-◌, ◌<◌, ◌≤◌, [], ◌∷◌, ◌++◌, List, ℤ, length, take, insert, option_copied, nat_lt, IfOk, OnErr, MatchResult, vec_len};
ghost use Rattle.pool_monitor.specs.Pool.{empty_pool, place_for, is_kept, ranked, list_reply, value_reply, add_step, pool_step};
ghost use Rattle.pool_monitor.specs.Replies.{PoolCopiesOut, PoolTakesMemory};

use crate::request::PoolRequest;
use best_monitor::Reply;
use cbl_base::limits::MAX_POOL_SOLUTIONS;
use cbl_base::{NoMemory, Numbers};
use std::alloc::Global;
use std::marker::Model;

/// A value that was added, with its list.
#[derive(Drop)]
pub struct Solution {
    pub value: i64,
    pub list: Numbers,
}

/// The least solutions that were added, least value first, and at most so many.
#[derive(Drop)]
pub struct Pool {
    most: u32,
    solutions: Vec<Solution>,
}

impl Model for Pool {
    ghost use Rattle.std.specs.Prelude.{◌≤◌, length};
    ghost use Rattle.pool_monitor.specs.Pool.{PoolState};

    ghost Value = { PoolState };

    ghost view = { λ p. record { most = p.most; solutions = p.solutions.items } };

    ghost invariant = { λ p. (1 ≤ p.most) × (p.most ≤ 1024) ×
        (length p.solutions.items ≤ p.most) };
}

impl Pool {
    /// A pool to which nothing was added.
    pub(crate) fn new(alloc: Global, most: u32) -> Pool
        requires { (1 ≤ most) × (most ≤ MAX_POOL_SOLUTIONS) }
        ensures { result ≡ empty_pool most }
    {
        Pool {
            most,
            solutions: Vec::new(alloc),
        }
    }

    /// The reply to a request. It changes nothing.
    pub(crate) fn reply(&self, alloc: Global, request: &PoolRequest) -> Result<Reply, NoMemory>
        ensures reply { IfOk result (λ r. r ≡ (pool_step self.now request.now).1) }
        ensures memory { OnErr result (PoolCopiesOut request.now) }
    {
        match request {
            PoolRequest::Add { value, .. } => Ok(Reply::Truth(self.keeps(*value))),
            PoolRequest::Size { .. } => Ok(Reply::Number(self.solutions.len() as i64)),
            PoolRequest::Rank { rank, .. } => Ok(self.value_at(*rank)),
            PoolRequest::Take { rank, room, .. } => self.list_at(alloc, *rank, *room),
        }
    }

    /// Makes the pool after a request, and gives the reply. With `NoMemory` it stays as it was.
    pub(crate) fn step(&mut self, alloc: Global, request: &PoolRequest) -> Result<Reply, NoMemory>
        ensures step { MatchResult result (λ r. pool_step self.old request.now ≡ (self.new, r))
            (λ _. self.new ≡ self.old) }
        ensures memory { OnErr result (PoolTakesMemory request.now) }
    {
        match request {
            PoolRequest::Add { value, list, .. } => self.add(alloc, *value, list),
            PoolRequest::Size { .. } => self.reply(alloc, request),
            PoolRequest::Rank { .. } => self.reply(alloc, request),
            PoolRequest::Take { .. } => self.reply(alloc, request),
        }
    }

    // Whether a solution of this value would be kept. Since no more than `most` are, only its place counts.
    fn keeps(&self, value: i64) -> bool
        ensures { (list : List ℤ) → result ≡ is_kept self.now (record { value = value; list = list }) }
    {
        place_among(self.solutions.as_slice(), value) < self.most as usize
    }

    fn value_at(&self, rank: i64) -> Reply
        ensures { result ≡ value_reply (ranked rank self.now.solutions) }
    {
        match solution_at(self.solutions.as_slice(), rank) {
            None => Reply::Missing,
            Some(solution) => Reply::Number(solution.value),
        }
    }

    fn list_at(&self, alloc: Global, rank: i64, room: u64) -> Result<Reply, NoMemory>
        ensures { IfOk result (λ r. r ≡ list_reply room (ranked rank self.now.solutions)) }
    {
        let Some(solution) = solution_at(self.solutions.as_slice(), rank) else {
            return Ok(Reply::Missing);
        };
        let length = solution.list.len() as u64;
        if room < length {
            return Ok(Reply::Long(length));
        }
        Ok(Reply::List(Numbers::from_slice(alloc, solution.list.as_slice())?))
    }

    // Takes a solution in. All memory is taken before anything changes.
    fn add(&mut self, alloc: Global, value: i64, list: &Numbers) -> Result<Reply, NoMemory>
        ensures { MatchResult result (λ r.
            add_step self.old (record { value = value; list = list.now }) ≡ (self.new, r))
            (λ _. self.new ≡ self.old) }
    {
        let place = place_among(self.solutions.as_slice(), value);
        if place >= self.most as usize {
            return Ok(Reply::Truth(false));
        }
        let list = Numbers::from_slice(alloc, list.as_slice())?;
        put_at(
            &mut self.solutions,
            self.most as usize,
            place,
            Solution { value, list },
        )?;
        Ok(Reply::Truth(true))
    }
}

// Where a solution of this value is put: behind the last one whose value isn't greater.
fn place_among(solutions: &[Solution], value: i64) -> usize
    ensures { result ≡ place_for value solutions.now }
{
    let mut place = solutions.len();
    while place > 0 && value < solutions[place - 1].value {
        place -= 1;
    }
    place
}

// The solution of a rank that is counted from 1.
fn solution_at(solutions: &[Solution], rank: i64) -> Option<&Solution>
    ensures { option_copied result ≡ ranked rank solutions.now }
{
    if rank < 1 {
        return None;
    }
    solutions.get(rank as usize - 1)
}

// Puts a solution at its place, and drops the last where there are `most`.
fn put_at(
    solutions: &mut Vec<Solution>,
    most: usize,
    place: usize,
    solution: Solution,
) -> Result<(), NoMemory>
    requires most { length solutions.old.items ≤ most }
    requires place { (place < most) × (place ≤ length solutions.old.items) }
    ensures { MatchResult result (λ _. solutions.new.items ≡
        insert (take (most - 1) solutions.old.items) place solution) (λ _.
        solutions.new.items ≡ solutions.old.items) }
{
    put_last(solutions, most, solution)?;
    solutions[place..].rotate_right(1);
    Ok(())
}

// Puts a solution behind the others, in the place of the last where there are `most`.
fn put_last(solutions: &mut Vec<Solution>, most: usize, solution: Solution) -> Result<(), NoMemory>
    requires { (1 ≤ most) × (length solutions.old.items ≤ most) }
    ensures { MatchResult result (λ _.
        solutions.new.items ≡ take (most - 1) solutions.old.items ++ solution ∷ []) (λ _.
        solutions.new.items ≡ solutions.old.items) }
{
    if solutions.len() == most {
        solutions[most - 1] = solution;
    } else {
        solutions.push(solution)?;
    }
    Ok(())
}
