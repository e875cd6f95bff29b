//! The values that are others in a trial, and what is lost in it.
ghost use Rattle.std.specs.Prelude.{◌≡◌, ◌+◌, Some, OnOk, option_copied};
ghost use Rattle.std.specs.BTreeMap.{get};
ghost use Rattle.std.specs.Ordering.{nat_cmp};
ghost use Rattle.inc_store.specs.Course.{changed_at, IsPut};
ghost use Rattle.trial.specs.Overlays.{IsEmpty, lesser};

use crate::changes::Changes;
use cbl_base::{NoMemory, NodeId, NodeValue, RunFault, Steps};
use inc_store::NodeChange;
use std::alloc::Global;
use std::collections::BTreeMap;
use std::sync::ledger::Ledger;
use store_turns::Waiting;

/// What a trial has come to so far. Each read and each write of its maps is a step.
#[derive(Drop)]
pub struct Overlay {
    pub(crate) waiting: Waiting,
    /// The ids without a value, each with its fault where that is its own.
    pub(crate) lost: BTreeMap<u32, Option<RunFault>>,
    /// The values that are others.
    pub(crate) changes: Changes,
    /// The least failing node below each id that uses a lost one, and its fault.
    pub(crate) roots: BTreeMap<u32, (u32, RunFault)>,
}

impl Overlay {
    /// Nothing is another.
    pub(crate) fn new(alloc: Global) -> Overlay
        ensures { IsEmpty result }
    {
        Overlay {
            waiting: Waiting::new(alloc),
            lost: BTreeMap::new(alloc),
            changes: Changes::new(alloc),
            roots: BTreeMap::new(alloc),
        }
    }

    /// Nothing is another from now on.
    pub(crate) fn clear(&mut self)
        ensures { IsEmpty self.new }
    {
        self.waiting.clear();
        self.lost.clear();
        self.changes.clear();
        self.roots.clear();
    }

    /// The change of an id's value, where it is another. One step.
    pub(crate) fn changed<L: Ledger>(&self, id: u32, steps: &mut Steps<L>) -> Option<&NodeChange>
        ensures change { option_copied result ≡ get nat_cmp self.now.changes id }
        ensures steps { steps.new ≡ steps.old + 1 }
    {
        steps.tick();
        self.changes.get(id)
    }

    /// Whether an id has no value, and its fault where that is its own. One step.
    pub(crate) fn lost<L: Ledger>(&self, id: u32, steps: &mut Steps<L>) -> Option<Option<RunFault>>
        ensures lost { result ≡ get nat_cmp self.now.lost id }
        ensures steps { steps.new ≡ steps.old + 1 }
    {
        steps.tick();
        self.lost.get(&id).copied()
    }

    /// The least failing node below an id, of those that are noted. One step.
    pub(crate) fn root<L: Ledger>(&self, id: u32, steps: &mut Steps<L>) -> Option<(u32, RunFault)>
        ensures root { result ≡ get nat_cmp self.now.roots id }
        ensures steps { steps.new ≡ steps.old + 1 }
    {
        steps.tick();
        self.roots.get(&id).copied()
    }

    /// The id's value is another from now on. One step.
    pub(crate) fn change<L: Ledger>(
        &mut self,
        id: u32,
        old: NodeValue,
        new: NodeValue,
        steps: &mut Steps<L>,
    ) -> Result<(), NoMemory>
        ensures change { OnOk result (IsPut id (Some (changed_at id old new))
            self.old.changes self.new.changes) }
        ensures waiting { OnOk result (self.new.waiting ≡ self.old.waiting) }
        ensures lost { OnOk result (self.new.lost ≡ self.old.lost) }
        ensures roots { OnOk result (self.new.roots ≡ self.old.roots) }
        ensures steps { steps.new ≡ steps.old + 1 }
    {
        steps.tick();
        let node = NodeId(id);
        self.changes.set(NodeChange { node, old, new })
    }

    /// The id has no value from now on. One step.
    pub(crate) fn lose<L: Ledger>(
        &mut self,
        id: u32,
        own: Option<RunFault>,
        steps: &mut Steps<L>,
    ) -> Result<(), NoMemory>
        ensures lost { OnOk result (IsPut id (Some own) self.old.lost self.new.lost) }
        ensures waiting { OnOk result (self.new.waiting ≡ self.old.waiting) }
        ensures changes { OnOk result (self.new.changes ≡ self.old.changes) }
        ensures roots { OnOk result (self.new.roots ≡ self.old.roots) }
        ensures steps { steps.new ≡ steps.old + 1 }
    {
        steps.tick();
        self.lost.insert(id, own)?;
        Ok(())
    }

    /// An id stands on a failing node, if there is one: the lesser of it and what is noted. One step.
    pub(crate) fn note<L: Ledger>(
        &mut self,
        id: u32,
        root: Option<(u32, RunFault)>,
        steps: &mut Steps<L>,
    ) -> Result<(), NoMemory>
        ensures root { OnOk result (IsPut id (lesser root (get nat_cmp self.old.roots id))
            self.old.roots self.new.roots) }
        ensures waiting { OnOk result (self.new.waiting ≡ self.old.waiting) }
        ensures lost { OnOk result (self.new.lost ≡ self.old.lost) }
        ensures changes { OnOk result (self.new.changes ≡ self.old.changes) }
        ensures steps { steps.new ≡ steps.old + 1 }
    {
        steps.tick();
        match root {
            None => Ok(()),
            Some(found) => {
                let least = lesser(found, self.roots.get(&id).copied());
                self.roots.insert(id, least)?;
                Ok(())
            }
        }
    }
}

/// The lesser of two failing nodes.
fn lesser(found: (u32, RunFault), noted: Option<(u32, RunFault)>) -> (u32, RunFault)
    ensures { Some result ≡ lesser (Some found) noted }
{
    match noted {
        None => found,
        Some(other) => { if found.0 <= other.0 { found } else { other } }
    }
}
