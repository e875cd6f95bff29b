//! The queue of events, which the outermost commit runs.
ghost use Rattle.std.specs.Prelude.{◌≡◌, ℕ, List, slice_index_or};
ghost use Rattle.comet_meaning.specs.Events as events;
ghost use Rattle.comet_meaning.specs.Events.{event_names};
ghost use Rattle.comet_meaning.specs.Levels as levels;
ghost use Rattle.comet_meaning.specs.Loops.{repeated};
ghost use Rattle.comet_meaning.specs.Outcome.{give, then_do};
ghost use Rattle.comet_meaning.specs.Program.{level};
ghost use Rattle.comet_meaning.specs.Search.{no_reaction};
ghost use Rattle.event_forms.specs.Bindings.{bound_by};
ghost use Rattle.run_steps.specs.OfRunSearch.Searches.{event_seen, search_seen};
ghost use Rattle.run_steps.specs.OfRunState.Targets.{target_seen};
ghost use Rattle.run_steps.specs.OfRunState.Views.{state_seen};
ghost use Rattle.run_steps.specs.Does.{Does};
ghost use Rattle.run_steps.specs.Following.{Follows};
ghost use Rattle.run_steps.specs.Views.{flow_seen};
ghost use Rattle.run_values.specs.Views.{value_seen};

use crate::closures::{Binding, run_closure};
use cbl_base::Place;
use checked_tree::EventSlots;
use run_steps::code::Flow;
use run_steps::inside::Within;
use run_steps::state_of_runs::{Event, Outside, State, Target};
use run_values::{Stop, Value};

/// Runs the queue, where no commit does: the events in order, and those that come while their handlers run.
pub fn run_queue<O: Outside, W: Within<O>>(
    s: &mut State,
    out: &mut O,
    inside: &W,
    at: Place,
) -> Result<(), Stop>
    requires ready { W.is_ready inside.now }
    ensures did { Does (λ _. tt) result (state_seen s.new (O.told out.new))
        (events.run_queue (level (W.code inside.now) (W.depth inside.now)) at
        (state_seen s.old (O.told out.old))) }
{
    if s.search.is_running() {
        return Ok(());
    }
    run_all(s, out, inside, at)
}

/// Runs the queue.
fn run_all<O: Outside, W: Within<O>>(
    s: &mut State,
    out: &mut O,
    inside: &W,
    at: Place,
) -> Result<(), Stop>
    requires ready { W.is_ready inside.now }
    ensures did { Does (λ _. tt) result (state_seen s.new (O.told out.new))
        (events.run_all (level (W.code inside.now) (W.depth inside.now)) at
        (state_seen s.old (O.told out.old))) }
{
    s.search.set_running(true);
    run_events(s, out, inside, at)?;
    s.search.set_running(false);
    Ok(())
}

/// Runs the events in order, to the last one. Each spends fuel, so they end.
fn run_events<O: Outside, W: Within<O>>(
    s: &mut State,
    out: &mut O,
    inside: &W,
    at: Place,
) -> Result<(), Stop>
    requires ready { W.is_ready inside.now }
    ensures did { Does (λ _. levels.Next) result (state_seen s.new (O.told out.new))
        (repeated at (events.next_event (level (W.code inside.now) (W.depth inside.now)))
        (state_seen s.old (O.told out.old))) }
{
    'events: loop {
        match s.search.next_event() {
            None => return Ok(()),
            Some(event) => react(s, out, inside, event)?,
        }
    }
}

/// What an event names runs.
fn react<O: Outside, W: Within<O>>(
    s: &mut State,
    out: &mut O,
    inside: &W,
    event: Event,
) -> Result<(), Stop>
    requires ready { W.is_ready inside.now }
    ensures did { Does (λ _. tt) result (state_seen s.new (O.told out.new))
        (events.react (level (W.code inside.now) (W.depth inside.now)) (event_seen event)
        (slice_index_or (search_seen s.old.search).reactions event.closure no_reaction)
        (state_seen s.old (O.told out.old))) }
{
    let reaction = s.search.reaction(s.alloc, event.closure)?;
    let binding = binding_of(reaction.names, event);
    run_closure(s, out, inside, reaction.closure, binding)
}

/// The names that a handler binds, with the values of an event.
fn binding_of(names: Option<EventSlots>, event: Event) -> Option<Binding>
    ensures { bound_by result ≡ event_names names (event_seen event) }
{
    match names {
        None => None,
        Some(names) => Some(Binding {
            names,
            old: event.old,
            new: event.new,
        }),
    }
}

/// Handlers run behind what was assigned, where that was a variable.
pub fn behind_commit<O: Outside, W: Within<O>>(
    s: &mut State,
    out: &mut O,
    inside: &W,
    at: Place,
    target: &Target,
    done: Result<(), Stop>,
) -> Result<(), Stop>
    requires ready { W.is_ready inside.now }
    ensures did { Follows (λ _. tt) (λ _. tt) done result (state_seen s.old (O.told out.old))
        (state_seen s.new (O.told out.new))
        (λ (u : Unit {0}). events.behind_commit (level (W.code inside.now) (W.depth inside.now)) at
        (target_seen target.now)) }
{
    match done {
        Err(stop) => Err(stop),
        Ok(()) => run_behind(s, out, inside, at, target),
    }
}

/// The same, where it was done.
fn run_behind<O: Outside, W: Within<O>>(
    s: &mut State,
    out: &mut O,
    inside: &W,
    at: Place,
    target: &Target,
) -> Result<(), Stop>
    requires ready { W.is_ready inside.now }
    ensures did { Does (λ _. tt) result (state_seen s.new (O.told out.new))
        (events.behind_commit (level (W.code inside.now) (W.depth inside.now)) at
        (target_seen target.now) (state_seen s.old (O.told out.old))) }
{
    match target {
        Target::Moved(_) => run_queue(s, out, inside, at),
        Target::Nowhere | Target::Name(_) | Target::Element(_, _) => Ok(()),
    }
}

/// Handlers run behind the end of the outermost `with` on a solver.
pub fn behind_block<O: Outside, W: Within<O>>(
    s: &mut State,
    out: &mut O,
    inside: &W,
    at: Place,
    flow: Result<Flow, Stop>,
) -> Result<Flow, Stop>
    requires ready { W.is_ready inside.now }
    ensures did { Follows flow_seen flow_seen flow result (state_seen s.old (O.told out.old))
        (state_seen s.new (O.told out.new)) (λ flow t.
        then_do (events.run_queue (level (W.code inside.now) (W.depth inside.now)) at t) (λ _.
        give flow)) }
{
    match flow {
        Err(stop) => Err(stop),
        Ok(flow) => run_before_flow(s, out, inside, at, flow),
    }
}

/// The queue, and then how the block ended.
fn run_before_flow<O: Outside, W: Within<O>>(
    s: &mut State,
    out: &mut O,
    inside: &W,
    at: Place,
    flow: Flow,
) -> Result<Flow, Stop>
    requires ready { W.is_ready inside.now }
    ensures did { Does flow_seen result (state_seen s.new (O.told out.new))
        (then_do (events.run_queue (level (W.code inside.now) (W.depth inside.now)) at
        (state_seen s.old (O.told out.old))) (λ _. give (flow_seen flow))) }
{
    match run_queue(s, out, inside, at) {
        Err(stop) => Err(stop),
        Ok(()) => Ok(flow),
    }
}

/// Handlers run behind a `restore`.
pub fn behind_restore<O: Outside, W: Within<O>>(
    s: &mut State,
    out: &mut O,
    inside: &W,
    at: Place,
    value: Result<Value, Stop>,
) -> Result<Value, Stop>
    requires ready { W.is_ready inside.now }
    ensures did { Follows value_seen value_seen value result (state_seen s.old (O.told out.old))
        (state_seen s.new (O.told out.new)) (λ value t.
        then_do (events.run_queue (level (W.code inside.now) (W.depth inside.now)) at t) (λ _.
        give value)) }
{
    match value {
        Err(stop) => Err(stop),
        Ok(value) => run_before_value(s, out, inside, at, value),
    }
}

/// The queue, and then what the method gives.
fn run_before_value<O: Outside, W: Within<O>>(
    s: &mut State,
    out: &mut O,
    inside: &W,
    at: Place,
    value: Value,
) -> Result<Value, Stop>
    requires ready { W.is_ready inside.now }
    ensures did { Does value_seen result (state_seen s.new (O.told out.new))
        (then_do (events.run_queue (level (W.code inside.now) (W.depth inside.now)) at
        (state_seen s.old (O.told out.old))) (λ _. give (value_seen value))) }
{
    match run_queue(s, out, inside, at) {
        Err(stop) => Err(stop),
        Ok(()) => Ok(value),
    }
}
