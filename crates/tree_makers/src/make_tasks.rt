//! Checked statements, made of their parts.
ghost use Rattle.std.specs.Prelude.{◌≡◌, map, option_map};
ghost use Rattle.tree_makers.specs.Makes.{Makes};
ghost use Rattle.checked_tree.specs.Shape.{seen, shape_of_generator};
ghost use Rattle.checked_tree.specs.Actions.{deed_of};
ghost use Rattle.checked_tree.specs.Tasks as works;
ghost use Rattle.checked_tree.specs.Tasks.{row_of, work_of, counter_of};

use crate::boxes::{box_beside, box_both, share_beside};
use crate::kept::beside;
use cbl_base::Place;
use checked_tree::expressions::{Slot, Typed};
use checked_tree::statements::{Act, Action, Choice, EventSlots, Head, Task};
use checked_tree::stop::Stop;
use comet_syntax::tree::{Extreme, WithMode};
use std::alloc::Global;

/// A statement in a box: what holds one statement keeps it so. The error is `NoMemory` alone.
pub fn box_task(alloc: Global, task: Task) -> Result<Box<Task>, Stop>
    ensures { Makes (λ boxed. boxed.value) result task }
{
    let task = Box::new(alloc, task)?;
    Ok(task)
}

#[tactic(auto, unfolding(checked_tree::specs::Tasks::work_of_act, checked_tree::specs::Tasks::work_of))]
pub fn make_action(place: Place, action: Action) -> Task
    ensures { work_of result ≡ works.task place (works.action (deed_of action)) }
{
    Task {
        place,
        act: Act::Action(action),
    }
}

#[tactic(auto, unfolding(checked_tree::specs::Tasks::work_of_act, checked_tree::specs::Tasks::work_of))]
pub fn make_block(place: Place, tasks: Vec<Task>) -> Task
    ensures { work_of result ≡ works.task place (works.block (row_of (map work_of tasks.items))) }
{
    Task {
        place,
        act: Act::Block(tasks),
    }
}

#[tactic(auto, unfolding(checked_tree::specs::Tasks::work_of_act, checked_tree::specs::Tasks::work_of))]
pub fn make_if(place: Place, test: Typed, then: Box<Task>) -> Task
    ensures { work_of result ≡ works.task place (works.when (seen test) (work_of «then».value)) }
{
    Task {
        place,
        act: Act::If { test, then },
    }
}

#[tactic(auto, unfolding(checked_tree::specs::Tasks::work_of_act, checked_tree::specs::Tasks::work_of))]
pub fn make_if_else(place: Place, test: Typed, then: Box<Task>, otherwise: Box<Task>) -> Task
    ensures { work_of result ≡ works.task place
        (works.when_else (seen test) (work_of «then».value) (work_of otherwise.value)) }
{
    Task {
        place,
        act: Act::IfElse {
            test,
            then,
            otherwise,
        },
    }
}

#[tactic(auto, unfolding(checked_tree::specs::Tasks::work_of_act, checked_tree::specs::Tasks::work_of))]
pub fn make_while(place: Place, test: Typed, body: Box<Task>) -> Task
    ensures { work_of result ≡ works.task place (works.loop (seen test) (work_of body.value)) }
{
    Task {
        place,
        act: Act::While { test, body },
    }
}

#[tactic(auto, unfolding(checked_tree::specs::Tasks::work_of_act, checked_tree::specs::Tasks::work_of))]
pub fn make_for(alloc: Global, place: Place, head: Head, body: Box<Task>) -> Result<Task, Stop>
    ensures { Makes work_of result (works.task place
        (works.counting (option_map counter_of head.counter) (option_map seen head.test)
        (option_map deed_of head.step) (work_of body.value))) }
{
    let (body, head) = box_beside(alloc, body, head)?;
    Ok(Task {
        place,
        act: Act::For { head, body },
    })
}

#[tactic(auto, unfolding(checked_tree::specs::Tasks::work_of_act, checked_tree::specs::Tasks::work_of))]
pub fn make_for_all(
    alloc: Global,
    place: Place,
    choice: Choice,
    body: Box<Task>,
) -> Result<Task, Stop>
    ensures { Makes work_of result (works.task place
        (works.for_all (map shape_of_generator choice.generators.items)
        (option_map seen choice.condition) (work_of body.value))) }
{
    let (body, choice) = box_beside(alloc, body, choice)?;
    Ok(Task {
        place,
        act: Act::ForAll { choice, body },
    })
}

#[tactic(auto, unfolding(checked_tree::specs::Tasks::work_of_act, checked_tree::specs::Tasks::work_of))]
pub fn make_select(
    alloc: Global,
    place: Place,
    choice: Choice,
    body: Box<Task>,
) -> Result<Task, Stop>
    ensures { Makes work_of result (works.task place
        (works.selecting (map shape_of_generator choice.generators.items)
        (option_map seen choice.condition) (work_of body.value))) }
{
    let (body, choice) = box_beside(alloc, body, choice)?;
    Ok(Task {
        place,
        act: Act::Select { choice, body },
    })
}

#[tactic(auto, unfolding(checked_tree::specs::Tasks::work_of_act, checked_tree::specs::Tasks::work_of))]
pub fn make_select_by(
    alloc: Global,
    place: Place,
    extreme: Extreme,
    choice: Choice,
    key: Typed,
    body: Box<Task>,
) -> Result<Task, Stop>
    ensures { Makes work_of result (works.task place
        (works.selecting_by extreme (map shape_of_generator choice.generators.items)
        (option_map seen choice.condition) (seen key) (work_of body.value))) }
{
    let (body, (choice, key)) = beside(body, box_both(alloc, choice, key))?;
    Ok(Task {
        place,
        act: Act::SelectBy {
            extreme,
            choice,
            key,
            body,
        },
    })
}

#[tactic(auto, unfolding(checked_tree::specs::Tasks::work_of_act, checked_tree::specs::Tasks::work_of))]
pub fn make_neighbor(
    alloc: Global,
    place: Place,
    key: Typed,
    selector: Slot,
    body: Box<Task>,
) -> Result<Task, Stop>
    ensures { Makes work_of result (works.task place
        (works.submitting (seen key) selector (work_of body.value))) }
{
    let (key, body) = share_beside(alloc, key, body)?;
    Ok(Task {
        place,
        act: Act::Neighbor {
            key,
            selector,
            body,
        },
    })
}

#[tactic(auto, unfolding(checked_tree::specs::Tasks::work_of_act, checked_tree::specs::Tasks::work_of))]
pub fn make_whenever(
    alloc: Global,
    place: Place,
    variable: Typed,
    names: Option<EventSlots>,
    body: Box<Task>,
) -> Result<Task, Stop>
    ensures { Makes work_of result (works.task place
        (works.watching (seen variable) names (work_of body.value))) }
{
    let (body, variable) = box_beside(alloc, body, variable)?;
    let (variable, body) = share_beside(alloc, variable, body)?;
    Ok(Task {
        place,
        act: Act::Whenever {
            variable,
            names,
            body,
        },
    })
}

#[tactic(auto, unfolding(checked_tree::specs::Tasks::work_of_act, checked_tree::specs::Tasks::work_of))]
pub fn make_with(place: Place, mode: WithMode, solver: Slot, body: Box<Task>) -> Task
    ensures { work_of result ≡ works.task place (works.at_once mode solver (work_of body.value)) }
{
    Task {
        place,
        act: Act::With { mode, solver, body },
    }
}

#[tactic(auto, unfolding(checked_tree::specs::Tasks::work_of_act, checked_tree::specs::Tasks::work_of))]
pub fn make_parall(place: Place, slot: Slot, domain: Typed, body: Box<Task>) -> Task
    ensures { work_of result ≡ works.task place
        (works.in_threads slot (seen domain) (work_of body.value)) }
{
    Task {
        place,
        act: Act::Parall { slot, domain, body },
    }
}
