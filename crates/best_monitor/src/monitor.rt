//! One monitor of a board.
ghost use Rattle.std.specs.Prelude.{◌≡◌, IfOk, OnErr, MatchResult, false};
ghost use Rattle.best_monitor.specs.Board.{improves, value_reply, second_reply, copy_reply, report_step, monitor_step};
ghost use Rattle.best_monitor.specs.Replies.{TakesMemory, CopiesOut};

use crate::request::{Reply, Request};
use cbl_base::{NoMemory, Numbers};
use std::alloc::Global;

/// A value that was reported, with its second value and its list.
#[derive(Drop, Debug)]
pub struct Best {
    pub value: i64,
    pub second: i64,
    pub list: Numbers,
}

/// The best that was reported of it, and whether it was told to stop.
#[derive(Drop, Debug)]
pub struct Monitor {
    pub best: Option<Best>,
    pub stopped: bool,
}

impl Monitor {
    /// A monitor of which nothing was reported.
    pub(crate) fn new() -> Monitor
        ensures { result ≡ record { best = None; stopped = false } }
    {
        Monitor {
            best: None,
            stopped: false,
        }
    }

    /// The reply to a request. It changes nothing.
    pub(crate) fn reply(&self, alloc: Global, request: &Request) -> Result<Reply, NoMemory>
        ensures reply { IfOk result (λ r. r ≡ (monitor_step self.now request.now).1) }
        ensures memory { OnErr result (CopiesOut request.now) }
    {
        match request {
            Request::Report { value, second, .. } => {
                Ok(Reply::Truth(self.is_improved_by(*value, *second)))
            }
            Request::Value { .. } => Ok(self.best_value()),
            Request::Second { .. } => Ok(self.best_second()),
            Request::Has { .. } => Ok(Reply::Truth(self.best.is_some())),
            Request::Copy { room, .. } => self.best_list(alloc, *room),
            Request::Stop { .. } => Ok(Reply::Done),
            Request::Stopped { .. } => Ok(Reply::Truth(self.stopped)),
        }
    }

    /// Makes the monitor after a request, and gives the reply. With `NoMemory` it stays as it was.
    pub(crate) fn step(&mut self, alloc: Global, request: &Request) -> Result<Reply, NoMemory>
        ensures step { MatchResult result (λ r. monitor_step self.old request.now ≡ (self.new, r))
            (λ _. self.new ≡ self.old) }
        ensures memory { OnErr result (TakesMemory request.now) }
    {
        match request {
            Request::Report {
                value,
                second,
                list,
                ..
            } => self.report(alloc, *value, *second, list),
            Request::Stop { .. } => {
                self.stopped = true;
                Ok(Reply::Done)
            }
            Request::Value { .. } => self.reply(alloc, request),
            Request::Second { .. } => self.reply(alloc, request),
            Request::Has { .. } => self.reply(alloc, request),
            Request::Copy { .. } => self.reply(alloc, request),
            Request::Stopped { .. } => self.reply(alloc, request),
        }
    }

    // Whether a report of this pair replaces the best.
    fn is_improved_by(&self, value: i64, second: i64) -> bool
        ensures { result ≡ improves value second self.now.best }
    {
        match &self.best {
            None => true,
            Some(best) => value < best.value || (value == best.value && second < best.second),
        }
    }

    fn best_value(&self) -> Reply
        ensures { result ≡ value_reply self.now.best }
    {
        match &self.best {
            None => Reply::Missing,
            Some(best) => Reply::Number(best.value),
        }
    }

    fn best_second(&self) -> Reply
        ensures { result ≡ second_reply self.now.best }
    {
        match &self.best {
            None => Reply::Missing,
            Some(best) => Reply::Number(best.second),
        }
    }

    fn best_list(&self, alloc: Global, room: u64) -> Result<Reply, NoMemory>
        ensures { IfOk result (λ r. r ≡ copy_reply room self.now.best) }
    {
        let Some(best) = &self.best else {
            return Ok(Reply::Missing);
        };
        let length = best.list.len() as u64;
        if room < length {
            return Ok(Reply::Long(length));
        }
        Ok(Reply::List(Numbers::from_slice(alloc, best.list.as_slice())?))
    }

    // Takes a report in. The list is copied before anything changes.
    fn report(
        &mut self,
        alloc: Global,
        value: i64,
        second: i64,
        list: &Numbers,
    ) -> Result<Reply, NoMemory>
        ensures { MatchResult result (λ r.
            report_step self.old value second list.now ≡ (self.new, r)) (λ _. self.new ≡ self.old) }
    {
        let better = self.is_improved_by(value, second);
        if better {
            let list = Numbers::from_slice(alloc, list.as_slice())?;
            self.best = Some(Best {
                value,
                second,
                list,
            });
        }
        Ok(Reply::Truth(better))
    }
}
