//! Events that wait for their handlers.
ghost use Rattle.std.specs.Prelude.{◌≡◌, ◌==◌, [], length};
ghost use Rattle.ls_events.specs.Queueing.{next_of};

use std::alloc::Global;
use std::collections::VecDeque;
use std::marker::Model;

/// What a handler is to be told: the number of what is to run, and the old and the new value of its variable.
#[derive(Clone, Copy, PartialEq, Eq, Debug)]
pub struct Event {
    pub closure: u32,
    pub old: i64,
    pub new: i64,
}

/// Events in the order in which they came, and seen as their list.
#[derive(Drop)]
pub struct Queue {
    pub(crate) events: VecDeque<Event>,
}

impl Model for Queue {
    ghost use Rattle.std.specs.Prelude.{List};
    ghost use Rattle.ls_events.specs.declared.queue.Event.{Event};

    ghost Value = { List Event };

    ghost view = { λ q. q.events.items };
}

impl Queue {
    /// No event.
    pub fn new(alloc: Global) -> Queue
        ensures { result ≡ [] }
    {
        Queue {
            events: VecDeque::new(alloc),
        }
    }

    /// Whether there is no event.
    pub fn is_empty(&self) -> bool
        ensures { result ≡ (length self.now == 0) }
    {
        self.events.is_empty()
    }

    /// Takes the first event out. `None` exactly where there is none.
    pub fn next(&mut self) -> Option<Event>
        ensures { (result, self.new) ≡ next_of self.old }
    {
        self.events.pop_front()
    }
}
