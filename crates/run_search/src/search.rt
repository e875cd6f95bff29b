//! What a search keeps beside names, arrays and solvers: statements that run later, words, solutions, handlers, and the
//! events that wait for them.
#![tactic(auto, unfolding(crate::specs::Searches::search_seen))]

ghost use Rattle.std.specs.Prelude.{◌≡◌, ◌<◌, ◌≤◌, ◌^◌, ℕ, List, IfErr, IfOk, OnOk, drop, length, map, option_map, slice_get, slice_index_or};
ghost use Rattle.comet_meaning.specs.Changes.{Change, queued_events, with_events};
ghost use Rattle.comet_meaning.specs.Draws.{without_word};
ghost use Rattle.comet_meaning.specs.Events.{with_queue, with_reaction, while_running};
ghost use Rattle.comet_meaning.specs.Search.{first_search, no_reaction};
ghost use Rattle.comet_meaning.specs.Solutions.{with_solution};
ghost use Rattle.comet_meaning.specs.Words.{share, word_of};
ghost use Rattle.ls_select.specs.Picking.{picked};
ghost use Rattle.run_solvers.specs.Told.{told};
ghost use Rattle.run_search.specs.Searches.{closure_seen, event_seen, move_seen, reaction_seen, search_seen, solution_seen};
ghost use Rattle.run_solvers.specs.OfRunValues.declared.stop.Stop.TheVariants.{NoMemory};

use cbl_base::VarId;
use checked_tree::{EventSlots, Later};
pub use ls_events::Event;
use ls_events::{Handlers, Queue, Solution, VarChange};
use ls_select::{Draws, Ties, pick};
use run_solvers::values_of_runs::{Stop, Value, copied_values};
use std::alloc::Global;

/// A statement that runs later, and the names that it sees.
#[derive(Drop)]
pub struct Closure {
    pub body: Later,
    pub frame: Vec<Value>,
}

/// The best move that a selector was given, with its delta.
#[derive(Drop)]
pub struct KeptMove {
    pub delta: i64,
    pub closure: Closure,
}

/// What a handler runs, with the cells of the old and the new value.
#[derive(Drop)]
pub struct Reaction {
    pub names: Option<EventSlots>,
    pub closure: Closure,
}

/// What a run keeps that no pure expression sees.
#[derive(Drop)]
pub struct Search {
    seed: u64,
    draws: Draws,
    solutions: Vec<Solution>,
    handlers: Handlers,
    reactions: Vec<Reaction>,
    queue: Queue,
    running: bool,
}

impl Closure {
    /// A copy. `NoMemory` where there is none for it; there is no other stop.
    pub fn copied(&self, alloc: Global) -> Result<Closure, Stop>
        ensures same { IfOk result (λ c. closure_seen c ≡ closure_seen self.now) }
        ensures memory { IfErr result (λ stop. stop ≡ NoMemory) }
    {
        let body = self.body.clone()?;
        let frame = copied_values(alloc, &self.frame)?;
        Ok(Closure { body, frame })
    }
}

impl KeptMove {
    /// A copy. `NoMemory` where there is none for it; there is no other stop.
    pub fn copied(&self, alloc: Global) -> Result<KeptMove, Stop>
        ensures same { IfOk result (λ m. move_seen m ≡ move_seen self.now) }
        ensures memory { IfErr result (λ stop. stop ≡ NoMemory) }
    {
        let closure = self.closure.copied(alloc)?;
        Ok(KeptMove {
            delta: self.delta,
            closure,
        })
    }
}

impl Reaction {
    /// A copy. `NoMemory` where there is none for it; there is no other stop.
    pub fn copied(&self, alloc: Global) -> Result<Reaction, Stop>
        ensures same { IfOk result (λ r. reaction_seen r ≡ reaction_seen self.now) }
        ensures memory { IfErr result (λ stop. stop ≡ NoMemory) }
    {
        let closure = self.closure.copied(alloc)?;
        Ok(Reaction {
            names: self.names,
            closure,
        })
    }
}

impl Search {
    /// The start of a run with this seed.
    pub fn new(alloc: Global, seed: u64) -> Search
        ensures { search_seen result ≡ first_search seed }
    {
        Search {
            seed,
            draws: Draws::new(seed, 0),
            solutions: Vec::new(alloc),
            handlers: Handlers::new(alloc),
            reactions: Vec::new(alloc),
            queue: Queue::new(alloc),
            running: false,
        }
    }

    /// A number below `n`, of the next word. There must be a number below `n`, and `n` at most 2^64.
    #[tactic(auto, unfolding(comet_meaning::specs::Words::share, crate::specs::Searches::search_seen))]
    pub fn below(&mut self, n: u128) -> u64
        requires some { 1 ≤ n }
        requires most { n ≤ 2 ^ 64 }
        ensures share { result ≡ share n (word_of (search_seen self.old).words) }
        ensures taken { search_seen self.new ≡ without_word (search_seen self.old) }
        ensures below { result < n }
    {
        self.draws.below(n)
    }

    /// One of the tied candidates: none where there is none, and the only one where there is one, without a word; else one
    /// of them, by the next word.
    pub fn pick(&mut self, ties: &Ties) -> Option<u64>
        ensures chosen { result ≡ (picked ties.now (search_seen self.old).words).0 }
        ensures words { search_seen self.new ≡
            record (search_seen self.old) {
              words =
                  (picked ties.now (search_seen self.old).words).1;
            } }
    {
        pick(ties, &mut self.draws)
    }

    /// Keeps a solution behind the others; answers its number. `NoMemory` where there is none for it; there is no other
    /// stop.
    pub fn keep(&mut self, solution: Solution) -> Result<usize, Stop>
        ensures number { IfOk result (λ number. number ≡ length (search_seen self.old).solutions) }
        ensures kept { OnOk result (search_seen self.new ≡
            with_solution (solution_seen solution) (search_seen self.old)) }
        ensures memory { IfErr result (λ stop. stop ≡ NoMemory) }
    {
        let number = self.solutions.len();
        self.solutions.push(solution)?;
        Ok(number)
    }

    /// The solution with a number.
    pub fn solution(&self, number: usize) -> Option<&Solution>
        ensures { option_map (λ x. solution_seen x.now) result ≡
            slice_get (search_seen self.now).solutions number }
    {
        self.solutions.get(number)
    }

    /// Attaches a reaction to a variable, behind the others. `NoMemory` where there is none for it, and where its number
    /// doesn't fit 32 bits, which no machine has memory for; there is no other stop.
    pub fn attach(&mut self, variable: VarId, reaction: Reaction) -> Result<(), Stop>
        ensures attached { OnOk result (search_seen self.new ≡
            with_reaction variable (reaction_seen reaction) (search_seen self.old)) }
        ensures memory { IfErr result (λ stop. stop ≡ NoMemory) }
    {
        let Ok(number) = u32::try_from(self.reactions.len()) else {
            return Err(Stop::NoMemory);
        };
        self.reactions.push(reaction)?;
        self.handlers.add(variable, number)?;
        Ok(())
    }

    /// Queues the events of changes behind those that wait. `NoMemory` where there is none for them; there is no other stop.
    pub fn queue(&mut self, changes: &[VarChange]) -> Result<(), Stop>
        ensures queued { (k : ℕ) (cs : List Change) → changes.now ≡ map (told k) cs →
            OnOk result (search_seen self.new ≡
            with_events (queued_events k (search_seen self.old).handlers cs)
            (search_seen self.old)) }
        ensures memory { IfErr result (λ stop. stop ≡ NoMemory) }
    {
        self.handlers.queue(changes, &mut self.queue)?;
        Ok(())
    }

    /// The first event, which is taken off the queue; `None` exactly where there is none.
    pub fn next_event(&mut self) -> Option<Event>
        ensures first { option_map event_seen result ≡ slice_get (search_seen self.old).queue 0 }
        ensures left { search_seen self.new ≡
            with_queue (drop 1 (search_seen self.old).queue) (search_seen self.old) }
    {
        self.queue.next()
    }

    /// A copy of the reaction with a number. `NoMemory` where there is none for it, and where there is no such reaction, which
    /// no event names; there is no other stop.
    pub fn reaction(&self, alloc: Global, number: u32) -> Result<Reaction, Stop>
        ensures same { IfOk result (λ r. reaction_seen r ≡
            slice_index_or (search_seen self.now).reactions number no_reaction) }
        ensures memory { IfErr result (λ stop. stop ≡ NoMemory) }
    {
        match self.reactions.get(number as usize) {
            Some(reaction) => reaction.copied(alloc),
            None => Err(Stop::NoMemory),
        }
    }

    /// Whether a commit is running the queue.
    pub fn is_running(&self) -> bool
        ensures { result ≡ (search_seen self.now).running }
    {
        self.running
    }

    /// Says whether a commit is running the queue.
    pub fn set_running(&mut self, running: bool)
        ensures { search_seen self.new ≡ while_running running (search_seen self.old) }
    {
        self.running = running;
    }
}
