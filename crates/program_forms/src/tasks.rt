//! The statements that run by now.
ghost use Rattle.std.specs.Prelude.{◌≡◌, ◌&&◌, map, option_map};
ghost use Rattle.std.specs.List.{list_all};
ghost use Rattle.checked_tree.specs.Shape.{seen, shape_of_generator};
ghost use Rattle.checked_tree.specs.Actions.{deed_of};
ghost use Rattle.checked_tree.specs.Tasks.{counter_of, row_of, work_of, work_of_act};
ghost use Rattle.comet_meaning.specs.Built as built;

use crate::actions::{is_built_action, is_built_option};
use crate::expressions::{are_built_generators, is_built_part};
use checked_tree::{Act, Action, Choice, Counter, Head, Task};

fn is_built_counter(counter: &Option<Counter>) -> bool
    ensures { result ≡ built.is_built_option (λ x.
        built.is_built_part x.start) (option_map counter_of counter.now) }
{
    match counter {
        None => true,
        Some(counter) => is_built_part(&counter.start),
    }
}

fn is_built_step(step: &Option<Action>) -> bool
    ensures { result ≡ built.is_built_option built.is_built_deed (option_map deed_of step.now) }
{
    match step {
        None => true,
        Some(step) => is_built_action(step),
    }
}

fn is_built_head(head: &Head) -> bool
    ensures { result ≡ (built.is_built_option (λ x.
        built.is_built_part x.start) (option_map counter_of head.now.counter)
        && built.is_built_option built.is_built_part (option_map seen head.now.test)
        && built.is_built_option built.is_built_deed (option_map deed_of head.now.step)) }
{
    is_built_counter(&head.counter) && is_built_option(&head.test) && is_built_step(&head.step)
}

#[tactic(auto, using(crate::proofs::Lists::built_rows))]
fn is_built_choice(choice: &Choice) -> bool
    ensures { result ≡ (list_all built.is_built_expression
        (map shape_of_generator choice.now.generators.items) && built.is_built_option
        built.is_built_part (option_map seen choice.now.condition)) }
{
    are_built_generators(&choice.generators) && is_built_option(&choice.condition)
}

/// Whether a statement runs by now, with those in it.
#[cycle(task)]
#[tactic(auto, unfolding(checked_tree::specs::Tasks::work_of, checked_tree::specs::Tasks::work_of_act))]
pub(crate) fn is_built_task(task: &Task) -> bool
    ensures { result ≡ built.is_built_work (work_of task.now) }
{
    is_built_act(&task.act)
}

#[cycle(task)]
#[tactic(auto, unfolding(checked_tree::specs::Tasks::work_of, checked_tree::specs::Tasks::work_of_act))]
fn is_built_act(act: &Act) -> bool
    ensures { result ≡ built.is_built_work (work_of_act act.now) }
{
    match act {
        Act::Action(action) => is_built_action(action),
        Act::Block(tasks) => are_built_tasks(tasks),
        Act::If { test, then } => is_built_part(test) && is_built_task(then),
        Act::IfElse {
            test,
            then,
            otherwise,
        } => is_built_part(test) && is_built_task(then) && is_built_task(otherwise),
        Act::While { test, body } => is_built_part(test) && is_built_task(body),
        Act::For { head, body } => is_built_head(head) && is_built_task(body),
        Act::ForAll { choice, body } => is_built_choice(choice) && is_built_task(body),
        Act::Select { choice, body } => is_built_choice(choice) && is_built_task(body),
        Act::SelectBy {
            choice,
            key,
            body,
            ..
        } => is_built_choice(choice) && is_built_part(key) && is_built_task(body),
        Act::Neighbor { key, body, .. } => is_built_part(key) && is_built_task(body),
        Act::Whenever { variable, body, .. } => is_built_part(variable) && is_built_task(body),
        Act::With { body, .. } => is_built_task(body),
        Act::Parall { .. } => false,
    }
}

#[cycle(task)]
fn are_built_tasks(tasks: &[Task]) -> bool
    ensures { result ≡ built.is_built_work (row_of (map work_of tasks.now)) }
{
    for task in tasks {
        if !is_built_task(task) {
            return false;
        }
    }
    true
}
