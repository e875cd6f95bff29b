//! What statements do.
ghost use Rattle.std.specs.Prelude.{◌≡◌, ℕ, List, map, option_map};
ghost use Rattle.checked_tree.specs.Actions.{deed_of};
ghost use Rattle.checked_tree.specs.Shape.{seen};
ghost use Rattle.checked_tree.specs.Tasks.{work_of, work_of_act};
ghost use Rattle.comet_meaning.specs.Loops.{if_form, if_else_form, tasks_form};
ghost use Rattle.comet_meaning.specs.Program.{level};
ghost use Rattle.comet_meaning.specs.Statements.{action_form, deed_form, meaning_of_form, return_form};
ghost use Rattle.run_steps.specs.Does.{Does};
ghost use Rattle.run_steps.specs.Views.{flow_seen};
ghost use Rattle.run_steps.specs.OfRunState.Views.{state_seen};

use crate::for_all::execute_for_all;
use crate::loops::{execute_for, execute_while};
use cbl_base::Place;
use cbl_base::limits::MAX_RUNNING_DEPTH;
use checked_tree::{Act, Action, Choice, Head, Task, Typed};
use declaration_forms::array_declarations::declare_array;
use declaration_forms::declarations::{declare, declare_variable};
use declaration_forms::objects::declare_object;
use form_parts::values::{truth_of, value_of};
use run_effects::effects::{as_done, as_next, as_returned};
use run_steps::code::Flow;
use run_steps::inside::{Around, Within};
use run_steps::leaves::returned;
use run_steps::state_of_runs::{Outside, State};
use run_values::Stop;
use search_forms::{
    call_move, execute_neighbor, execute_select, execute_select_by, execute_whenever,
};
use write_forms::printing::print_all;
use write_forms::together::execute_together;
use write_forms::writes::{step_target, swap_values, write_value};

/// How many statements and expressions may be executed inside each other.
const MOST_DEPTH: u32 = MAX_RUNNING_DEPTH;

/// A statement at a place, by its form. What isn't there yet does nothing.
pub fn execute_act<O: Outside, W: Around<O>>(
    s: &mut State,
    out: &mut O,
    inside: &W,
    at: Place,
    act: &Act,
) -> Result<Flow, Stop>
    requires ready { W.is_ready inside.now }
    requires defines { W.can_define inside.now }
    requires locates { W.can_locate inside.now }
    ensures did { Does flow_seen result (state_seen s.new (O.told out.new))
        (meaning_of_form (level (W.code inside.now) (W.depth inside.now)) at (work_of_act act.now)
        (state_seen s.old (O.told out.old))) }
{
    match act {
        Act::Action(action) => execute_action(s, out, inside, at, action),
        Act::Block(tasks) => execute_all(s, out, inside, tasks),
        Act::If { test, then } => execute_if(s, out, inside, test, then),
        Act::IfElse {
            test,
            then,
            otherwise,
        } => execute_if_else(s, out, inside, test, then, otherwise),
        Act::While { test, body } => execute_while(s, out, inside, at, test, body),
        Act::For { head, body } => {
            let head: &Head = head;
            execute_for(
                s,
                out,
                inside,
                at,
                &head.counter,
                &head.test,
                &head.step,
                body,
            )
        }
        Act::ForAll { choice, body } => {
            let choice: &Choice = choice;
            execute_for_all(
                s,
                out,
                inside,
                at,
                &choice.generators,
                &choice.condition,
                body,
            )
        }
        Act::Select { choice, body } => {
            let choice: &Choice = choice;
            execute_select(
                s,
                out,
                inside,
                at,
                &choice.generators,
                &choice.condition,
                body,
            )
        }
        Act::SelectBy {
            extreme,
            choice,
            key,
            body,
        } => {
            let choice: &Choice = choice;
            execute_select_by(
                s,
                out,
                inside,
                at,
                *extreme,
                &choice.generators,
                &choice.condition,
                key,
                body,
            )
        }
        Act::Neighbor {
            key,
            selector,
            body,
        } => execute_neighbor(s, out, inside, key, *selector, body),
        Act::Whenever {
            variable,
            names,
            body,
        } => execute_whenever(s, out, inside, variable, *names, body),
        Act::With { solver, body, .. } => execute_together(s, out, inside, at, *solver, body),
        Act::Parall { .. } => Ok(Flow::Next),
    }
}

/// Statements in order, to the first that returns.
pub fn execute_all<O: Outside, W: Within<O>>(
    s: &mut State,
    out: &mut O,
    inside: &W,
    tasks: &[Task],
) -> Result<Flow, Stop>
    requires ready { W.is_ready inside.now }
    ensures did { Does flow_seen result (state_seen s.new (O.told out.new))
        (tasks_form (level (W.code inside.now) (W.depth inside.now)) (map work_of tasks.now)
        (state_seen s.old (O.told out.old))) }
{
    for task in tasks {
        let flow = inside.execute(s, out, task)?;
        match flow {
            Flow::Next => {}
            Flow::Returned(value) => return Ok(Flow::Returned(value)),
        }
    }
    Ok(Flow::Next)
}

#[tactic(auto, unfolding(comet_meaning::specs::Loops::if_form))]
fn execute_if<O: Outside, W: Within<O>>(
    s: &mut State,
    out: &mut O,
    inside: &W,
    test: &Typed,
    then: &Task,
) -> Result<Flow, Stop>
    requires ready { W.is_ready inside.now }
    ensures did { Does flow_seen result (state_seen s.new (O.told out.new))
        (if_form (level (W.code inside.now) (W.depth inside.now)) (seen test.now)
        (work_of «then».now) (state_seen s.old (O.told out.old))) }
{
    let test = truth_of(s, out, inside, test)?;
    if test {
        inside.execute(s, out, then)
    } else {
        Ok(Flow::Next)
    }
}

#[tactic(auto, unfolding(comet_meaning::specs::Loops::if_else_form))]
fn execute_if_else<O: Outside, W: Within<O>>(
    s: &mut State,
    out: &mut O,
    inside: &W,
    test: &Typed,
    then: &Task,
    otherwise: &Task,
) -> Result<Flow, Stop>
    requires ready { W.is_ready inside.now }
    ensures did { Does flow_seen result (state_seen s.new (O.told out.new))
        (if_else_form (level (W.code inside.now) (W.depth inside.now)) (seen test.now)
        (work_of «then».now) (work_of otherwise.now) (state_seen s.old (O.told out.old))) }
{
    let test = truth_of(s, out, inside, test)?;
    if test {
        inside.execute(s, out, then)
    } else {
        inside.execute(s, out, otherwise)
    }
}

/// A statement at a place that holds no statement.
pub fn execute_action<O: Outside, W: Around<O>>(
    s: &mut State,
    out: &mut O,
    inside: &W,
    at: Place,
    action: &Action,
) -> Result<Flow, Stop>
    requires ready { W.is_ready inside.now }
    requires defines { W.can_define inside.now }
    requires locates { W.can_locate inside.now }
    ensures did { Does flow_seen result (state_seen s.new (O.told out.new))
        (action_form (level (W.code inside.now) (W.depth inside.now)) at (deed_of action.now)
        (state_seen s.old (O.told out.old))) }
{
    match returned(action) {
        Some(value) => execute_return(s, out, inside, value),
        None => as_next(perform(s, out, inside, at, action)),
    }
}

#[tactic(auto, unfolding(comet_meaning::specs::Statements::return_form))]
fn execute_return<O: Outside, W: Within<O>>(
    s: &mut State,
    out: &mut O,
    inside: &W,
    value: &Option<Typed>,
) -> Result<Flow, Stop>
    requires ready { W.is_ready inside.now }
    ensures did { Does flow_seen result (state_seen s.new (O.told out.new))
        (return_form (level (W.code inside.now) (W.depth inside.now)) (option_map seen value.now)
        (state_seen s.old (O.told out.old))) }
{
    match value {
        None => Ok(Flow::Returned(None)),
        Some(value) => as_returned(value_of(s, out, inside, value)),
    }
}

/// What a statement at a place does that holds no statement, and doesn't return. What isn't there yet does nothing.
#[tactic(auto, unfolding(comet_meaning::specs::Statements::deed_form, checked_tree::specs::Actions::deed_of))]
pub(crate) fn perform<O: Outside, W: Around<O>>(
    s: &mut State,
    out: &mut O,
    inside: &W,
    at: Place,
    action: &Action,
) -> Result<(), Stop>
    requires ready { W.is_ready inside.now }
    requires defines { W.can_define inside.now }
    requires locates { W.can_locate inside.now }
    ensures did { Does (λ _. tt) result (state_seen s.new (O.told out.new))
        (deed_form (level (W.code inside.now) (W.depth inside.now)) at (deed_of action.now)
        (state_seen s.old (O.told out.old))) }
{
    match action {
        Action::Empty => Ok(()),
        Action::Declare { slot, kind, start } => {
            declare(s, out, inside, at, *slot, *kind, start)
        }
        Action::DeclareArray {
            slot,
            kind: _,
            dimensions,
            start,
        } => declare_array(s, out, inside, at, *slot, dimensions, start),
        Action::DeclareVariable(variable) => { declare_variable(s, out, inside, at, variable) }
        Action::Make {
            slot,
            kind,
            arguments,
        } => declare_object(s, out, inside, at, *slot, *kind, arguments),
        Action::Write {
            target,
            operator,
            value,
        } => write_value(s, out, inside, at, *operator, target, value),
        Action::Swap { left, right } => swap_values(s, out, inside, at, left, right),
        Action::Step { target, step } => step_target(s, out, inside, at, *step, target),
        Action::Do(e) => as_done(value_of(s, out, inside, e)),
        Action::Choose(e) => call_move(s, out, inside, e),
        Action::Print(items) => print_all(s, out, inside, items),
        Action::Return(_) => Ok(()),
    }
}
