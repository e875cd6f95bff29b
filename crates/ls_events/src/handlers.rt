//! Handlers of variables.
ghost use Rattle.std.specs.Prelude.{◌≡◌, [], ◌∷◌, ◌++◌, IfOk, OnOk, OnErr};
ghost use Rattle.ls_events.specs.Queueing.{events_at, events_of};

use crate::change::VarChange;
use crate::queue::{Event, Queue};
use cbl_base::{NoMemory, VarId};
use std::alloc::Global;
use std::collections::VecDeque;
use std::marker::Model;

/// What is to run when a variable's value changes, by its number.
#[derive(Clone, Copy, PartialEq, Eq, Debug)]
pub struct Handler {
    pub var: VarId,
    pub closure: u32,
}

/// Handlers, and seen as their list in the order in which they were added.
#[derive(Drop)]
pub struct Handlers {
    handlers: Vec<Handler>,
    alloc: Global,
}

impl Model for Handlers {
    ghost use Rattle.std.specs.Prelude.{List};
    ghost use Rattle.ls_events.specs.declared.handlers.Handler.{Handler};

    ghost Value = { List Handler };

    ghost view = { λ h. h.handlers.items };
}

impl Handlers {
    /// No handler.
    pub fn new(alloc: Global) -> Handlers
        ensures { result ≡ [] }
    {
        Handlers {
            handlers: Vec::new(alloc),
            alloc,
        }
    }

    /// Adds a handler of a variable behind the others. With `NoMemory` they are as before.
    pub fn add(&mut self, var: VarId, closure: u32) -> Result<(), NoMemory>
        ensures added { OnOk result (self.new ≡
            self.old ++ record { var = var; closure = closure } ∷ []) }
        ensures kept { OnErr result (self.new ≡ self.old) }
    {
        self.handlers.push(Handler { var, closure })?;
        Ok(())
    }

    /// Puts events behind those that wait: for each change in order, one for each handler of its variable, in the order
    /// in which these were added. With `NoMemory` the queue is as before.
    pub fn queue(&self, changes: &[VarChange], into: &mut Queue) -> Result<(), NoMemory>
        ensures queued { OnOk result (into.new ≡ into.old ++ events_of self.now changes.now) }
        ensures kept { OnErr result (into.new ≡ into.old) }
    {
        let mut events = events_of(self.alloc, &self.handlers, changes)?;
        into.events.append(&mut events)?;
        Ok(())
    }
}

/// The events of some changes.
fn events_of(
    alloc: Global,
    handlers: &[Handler],
    changes: &[VarChange],
) -> Result<VecDeque<Event>, NoMemory>
    ensures { IfOk result (λ events. events.items ≡ events_of handlers.now changes.now) }
{
    let mut events = VecDeque::new(alloc);
    for change in changes {
        add_events(handlers, *change, &mut events)?;
    }
    Ok(events)
}

/// Adds the events of one change.
fn add_events(
    handlers: &[Handler],
    change: VarChange,
    events: &mut VecDeque<Event>,
) -> Result<(), NoMemory>
    ensures { OnOk result (events.new.items ≡ events.old.items ++ events_at handlers.now change) }
{
    for handler in handlers {
        if handler.var == change.var {
            events.push_back(Event {
                closure: handler.closure,
                old: change.old,
                new: change.new,
            })?;
        }
    }
    Ok(())
}
