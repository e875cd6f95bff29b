//! The journal of a run: the history of each loop that it ran.
ghost use Rattle.std.specs.Prelude.{◌≡◌, ◌==◌, List, [], ◌∷◌, ◌++◌, length, is_ok, if◌then◌else◌, slice_get, option_copied};

use crate::request::DeskRequest;
use best_monitor::Reply;
use best_turn::Entry;
use cbl_base::NoMemory;
use std::alloc::Global;
use std::marker::Model;

/// The entries of a history, and seen as their list.
#[derive(Drop)]
pub struct Entries {
    entries: Vec<Entry<DeskRequest, Reply>>,
}

impl Model for Entries {
    ghost use Rattle.std.specs.Prelude.{List};
    ghost use Rattle.best_turn.specs.declared.replays.Entry.{Entry};
    ghost use Rattle.pool_monitor.specs.declared.request.DeskRequest.{DeskRequest};
    ghost use Rattle.best_monitor.specs.declared.request.Reply.{Reply};

    ghost Value = { List (Entry DeskRequest Reply) };

    ghost view = { λ a. a.entries.items };
}

impl Entries {
    /// These entries. It takes no memory.
    pub fn from_vec(entries: Vec<Entry<DeskRequest, Reply>>) -> Entries
        ensures { result ≡ entries.items }
    {
        Entries { entries }
    }

    /// The entries themselves. It takes no memory.
    pub fn into_vec(self) -> Vec<Entry<DeskRequest, Reply>>
        ensures { result.items ≡ self }
    {
        self.entries
    }

    /// How many entries there are.
    pub fn len(&self) -> usize
        ensures { result ≡ length self.now }
    {
        self.entries.len()
    }

    /// Whether there is no entry.
    pub fn is_empty(&self) -> bool
        ensures { result ≡ (length self.now == 0) }
    {
        self.entries.is_empty()
    }

    /// The entries.
    pub fn as_slice(&self) -> &[Entry<DeskRequest, Reply>]
        ensures { result.now ≡ self.now }
    {
        self.entries.as_slice()
    }
}

/// What a desk was asked in one loop.
#[derive(Drop)]
pub struct LoopHistory {
    /// How many iterations the loop had. They are numbered from 0.
    pub iterations: u32,
    /// The calls on monitors and pools, in the order in which they took effect.
    pub entries: Entries,
}

/// The history of each loop that a run executed, in order, and seen as their list.
#[derive(Drop)]
pub struct Journal {
    loops: Vec<LoopHistory>,
}

impl Model for Journal {
    ghost use Rattle.std.specs.Prelude.{List};
    ghost use Rattle.pool_monitor.specs.declared.journal.LoopHistory.{LoopHistory};

    ghost Value = { List LoopHistory };

    ghost view = { λ a. a.loops.items };
}

impl Journal {
    /// A journal of no loop.
    pub fn new(alloc: Global) -> Journal
        ensures { result ≡ [] }
    {
        Journal {
            loops: Vec::new(alloc),
        }
    }

    /// How many loops there are.
    pub fn len(&self) -> usize
        ensures { result ≡ length self.now }
    {
        self.loops.len()
    }

    /// Whether there is no loop.
    pub fn is_empty(&self) -> bool
        ensures { result ≡ (length self.now == 0) }
    {
        self.loops.is_empty()
    }

    /// The history of the loop at an index from 0. `None` exactly at an index that isn't below the length.
    pub fn get(&self, index: usize) -> Option<&LoopHistory>
        ensures { option_copied result ≡ slice_get self.now index }
    {
        self.loops.get(index)
    }

    /// Adds the history of a loop at the end. With `NoMemory` the journal stays as it was.
    pub fn push(&mut self, history: LoopHistory) -> Result<(), NoMemory>
        ensures { self.new ≡ (if is_ok result then self.old ++ history ∷ [] else self.old) }
    {
        self.loops.push(history)?;
        Ok(())
    }

    /// The histories of all loops.
    pub fn as_slice(&self) -> &[LoopHistory]
        ensures { result.now ≡ self.now }
    {
        self.loops.as_slice()
    }
}
