//! Which functions are pure.
ghost use Rattle.std.specs.Prelude.{◌≡◌, ◌++◌, ◌∷◌, [], true, map, option_map, IfOk, OnOk};
ghost use Rattle.checked_tree.specs.Shape.{seen};
ghost use Rattle.checked_tree.specs.Tasks.{function_of, work_of};
ghost use Rattle.comet_meaning.specs.Purity as purity;
ghost use Rattle.program_forms.specs.Returned as forms;

use crate::purity::is_pure;
use cbl_base::NoMemory;
use checked_tree::{Act, Action, Function, Task, Typed};
use std::alloc::Global;

/// The expression that a statement returns, where it is a `return` of an expression.
#[tactic(auto, unfolding(checked_tree::specs::Tasks::work_of, checked_tree::specs::Tasks::work_of_act, checked_tree::specs::Actions::deed_of))]
fn returned_in(task: &Task) -> Option<&Typed>
    ensures { option_map (λ e. seen e.now) result ≡ forms.returned_in (work_of task.now) }
{
    match &task.act {
        Act::Action(Action::Return(value)) => value.as_ref(),
        _ => None,
    }
}

/// The expression that the statements of a block return, where they are one `return` of an expression.
fn returned_of(tasks: &[Task]) -> Option<&Typed>
    ensures { option_map (λ e. seen e.now) result ≡ forms.returned_of (map work_of tasks.now) }
{
    if tasks.len() == 1 {
        returned_in(&tasks[0])
    } else {
        None
    }
}

/// The expression that a body returns, where it is one `return` of an expression.
#[tactic(auto, using(crate::proofs::Returned::body_returned), unfolding(checked_tree::specs::Tasks::work_of, checked_tree::specs::Tasks::work_of_act))]
fn returned_by(body: &Task) -> Option<&Typed>
    ensures { option_map (λ e. seen e.now) result ≡ purity.returned_by (work_of body.now) }
{
    match &body.act {
        Act::Block(tasks) => returned_of(tasks),
        _ => None,
    }
}

fn returns_pure(known: &[bool], returned: Option<&Typed>) -> bool
    ensures { result ≡ purity.returns_pure known.now (option_map (λ e. seen e.now) returned.entry) }
{
    match returned {
        None => false,
        Some(value) => is_pure(known, value),
    }
}

/// Adds whether a function is pure, where it is known which of those before it are.
fn push_pure(known: &mut Vec<bool>, body: &Task) -> Result<(), NoMemory>
    ensures { OnOk result (known.new.items ≡
        known.old.items ++ purity.returns_pure (known.old.items ++ true ∷ [])
        (purity.returned_by (work_of body.now)) ∷ []) }
{
    known.push(true)?;
    let pure = returns_pure(known, returned_by(body));
    known.pop();
    known.push(pure)?;
    Ok(())
}

/// For each function whether it is pure. `NoMemory` where there is none for the answer.
pub fn pure_functions(alloc: Global, functions: &[Function]) -> Result<Vec<bool>, NoMemory>
    ensures { IfOk result (λ known. known.items ≡
        purity.pure_functions (map function_of functions.now)) }
{
    let mut known = Vec::new(alloc);
    for function in functions {
        push_pure(&mut known, &function.body)?;
    }
    Ok(known)
}
