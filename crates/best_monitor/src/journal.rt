//! The journal of a run whose loops ask monitors alone: the history of each loop.

use crate::request::{Reply, Request};
use best_turn::Entry;
use std::marker::Model;

/// What the monitors were asked in one loop.
#[derive(Drop)]
pub struct LoopHistory {
    /// How many iterations the loop had. They are numbered from 0.
    pub iterations: u32,
    /// The calls on monitors, in the order in which they took effect.
    pub entries: Vec<Entry<Request, Reply>>,
}

/// The history of each loop that a run executed, in order, and seen as their list.
#[derive(Drop)]
pub struct Journal {
    pub loops: Vec<LoopHistory>,
}

impl Model for Journal {
    ghost use Rattle.std.specs.Prelude.{List};
    ghost use Rattle.best_monitor.specs.declared.journal.LoopHistory.{LoopHistory};

    ghost Value = { List LoopHistory };

    ghost view = { λ a. a.loops.items };
}
