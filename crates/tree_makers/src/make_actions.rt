//! What statements do that hold no statement, made of its parts.
ghost use Rattle.std.specs.Prelude.{◌≡◌, map, option_map};
ghost use Rattle.tree_makers.specs.Makes.{Makes};
ghost use Rattle.checked_tree.specs.Shape.{seen};
ghost use Rattle.checked_tree.specs.Actions as deeds;
ghost use Rattle.checked_tree.specs.Actions.{deed_of, dimension_of, start_of, printed_of, variable_of};

use crate::boxes::{box_both, box_expression, box_start};
use crate::kept::beside;
use checked_tree::expressions::{Slot, Typed};
use checked_tree::kind::Kind;
use checked_tree::statements::{Action, Dimension, Printed, Start, Variable};
use checked_tree::stop::Stop;
use comet_syntax::tree::{Step, WriteOperator};
use std::alloc::Global;

#[tactic(auto, unfolding(checked_tree::specs::Actions::deed_of))]
pub fn make_nothing() -> Action
    ensures { deed_of result ≡ deeds.nothing }
{
    Action::Empty
}

#[tactic(auto, unfolding(checked_tree::specs::Actions::deed_of))]
pub fn make_declared(
    alloc: Global,
    slot: Slot,
    kind: Kind,
    start: Option<Typed>,
) -> Result<Action, Stop>
    ensures { Makes deed_of result (deeds.declaring slot kind (option_map seen start)) }
{
    let start = box_expression(alloc, start)?;
    Ok(Action::Declare { slot, kind, start })
}

#[tactic(auto, unfolding(checked_tree::specs::Actions::deed_of))]
pub fn make_array(
    alloc: Global,
    slot: Slot,
    kind: Kind,
    dimensions: Vec<Dimension>,
    start: Option<Start>,
) -> Result<Action, Stop>
    ensures { Makes deed_of result (deeds.declaring_array slot kind
        (map dimension_of dimensions.items) (option_map start_of start)) }
{
    let (dimensions, start) = beside(dimensions, box_start(alloc, start))?;
    Ok(Action::DeclareArray {
        slot,
        kind,
        dimensions,
        start,
    })
}

#[tactic(auto, unfolding(checked_tree::specs::Actions::deed_of))]
pub fn make_variable(alloc: Global, variable: Variable) -> Result<Action, Stop>
    ensures { Makes deed_of result (deeds.declaring_variable (variable_of variable)) }
{
    let variable = Box::new(alloc, variable)?;
    Ok(Action::DeclareVariable(variable))
}

#[tactic(auto, unfolding(checked_tree::specs::Actions::deed_of))]
pub fn make_object(slot: Slot, kind: Kind, arguments: Vec<Typed>) -> Action
    ensures { deed_of result ≡ deeds.making slot kind (map seen arguments.items) }
{
    Action::Make {
        slot,
        kind,
        arguments,
    }
}

#[tactic(auto, unfolding(checked_tree::specs::Actions::deed_of))]
pub fn make_write(
    alloc: Global,
    target: Typed,
    operator: WriteOperator,
    value: Typed,
) -> Result<Action, Stop>
    ensures { Makes deed_of result (deeds.writing operator (seen target) (seen value)) }
{
    let (target, value) = box_both(alloc, target, value)?;
    Ok(Action::Write {
        target,
        operator,
        value,
    })
}

#[tactic(auto, unfolding(checked_tree::specs::Actions::deed_of))]
pub fn make_swap(alloc: Global, left: Typed, right: Typed) -> Result<Action, Stop>
    ensures { Makes deed_of result (deeds.swapping (seen left) (seen right)) }
{
    let (left, right) = box_both(alloc, left, right)?;
    Ok(Action::Swap { left, right })
}

#[tactic(auto, unfolding(checked_tree::specs::Actions::deed_of))]
pub fn make_step(target: Typed, step: Step) -> Action
    ensures { deed_of result ≡ deeds.stepping step (seen target) }
{
    Action::Step { target, step }
}

#[tactic(auto, unfolding(checked_tree::specs::Actions::deed_of))]
pub fn make_alone(value: Typed) -> Action
    ensures { deed_of result ≡ deeds.doing (seen value) }
{
    Action::Do(value)
}

#[tactic(auto, unfolding(checked_tree::specs::Actions::deed_of))]
pub fn make_choice(chosen: Typed) -> Action
    ensures { deed_of result ≡ deeds.choosing (seen chosen) }
{
    Action::Choose(chosen)
}

#[tactic(auto, unfolding(checked_tree::specs::Actions::deed_of))]
pub fn make_print(items: Vec<Printed>) -> Action
    ensures { deed_of result ≡ deeds.printing (map printed_of items.items) }
{
    Action::Print(items)
}

#[tactic(auto, unfolding(checked_tree::specs::Actions::deed_of))]
pub fn make_return(value: Option<Typed>) -> Action
    ensures { deed_of result ≡ deeds.returning (option_map seen value) }
{
    Action::Return(value)
}
