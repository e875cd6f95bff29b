//! The statements that hold no statement and run by now.
ghost use Rattle.std.specs.Prelude.{◌≡◌, map, option_map};
ghost use Rattle.std.specs.List.{list_all};
ghost use Rattle.checked_tree.specs.Shape.{seen};
ghost use Rattle.checked_tree.specs.Actions.{deed_of, dimension_of, printed_of, start_of, variable_of};
ghost use Rattle.comet_meaning.specs.Built as built;

use crate::expressions::is_built_part;
use checked_tree::{Action, Dimension, Kind, Printed, Start, Typed, Variable};

/// Whether a part that may be left out holds only forms that run by now.
pub(crate) fn is_built_option(part: &Option<Typed>) -> bool
    ensures { result ≡ built.is_built_option built.is_built_part (option_map seen part.now) }
{
    match part {
        None => true,
        Some(part) => is_built_part(part),
    }
}

fn are_built_dimensions(dimensions: &[Dimension]) -> bool
    ensures { result ≡ built.are_sizes (map dimension_of dimensions.now) }
{
    for dimension in dimensions {
        if !is_built_part(&dimension.range) {
            return false;
        }
    }
    true
}

fn is_built_start(start: &Option<Start>) -> bool
    ensures { result ≡ built.is_built_option built.is_started (option_map start_of start.now) }
{
    match start {
        None => true,
        Some(start) => is_built_part(&start.value),
    }
}

fn is_built_boxed(part: &Option<Box<Typed>>) -> bool
    ensures { result ≡ built.is_built_option built.is_built_part
        (option_map (λ x. seen x.value) part.now) }
{
    match part {
        None => true,
        Some(part) => is_built_part(part),
    }
}

fn is_built_boxed_start(start: &Option<Box<Start>>) -> bool
    ensures { result ≡ built.is_built_option built.is_started
        (option_map (λ x. start_of x.value) start.now) }
{
    match start {
        None => true,
        Some(start) => is_built_part(&start.value),
    }
}

fn is_built_variable(variable: &Variable) -> bool
    ensures { result ≡ built.is_built_variable (variable_of variable.now) }
{
    are_built_dimensions(&variable.dimensions)
        && is_built_option(&variable.domain)
        && is_built_start(&variable.start)
}

fn is_built_object(kind: Kind) -> bool
    ensures { result ≡ built.is_built_object kind }
{
    matches!(
        kind,
        Kind::Input
            | Kind::Solver
            | Kind::System
            | Kind::Objective
            | Kind::Total
            | Kind::Distribution
            | Kind::Selector
            | Kind::Solution
    )
}

fn are_built_arguments(arguments: &[Typed]) -> bool
    ensures { result ≡ list_all built.is_built_part (map seen arguments.now) }
{
    for argument in arguments {
        if !is_built_part(argument) {
            return false;
        }
    }
    true
}

fn are_built_shown(printed: &[Printed]) -> bool
    ensures { result ≡ list_all built.is_built_shown (map printed_of printed.now) }
{
    for part in printed {
        if !is_built_shown(part) {
            return false;
        }
    }
    true
}

fn is_built_shown(printed: &Printed) -> bool
    ensures { result ≡ built.is_built_shown (printed_of printed.now) }
{
    match printed {
        Printed::Value(value) => is_built_part(value),
        Printed::Text(_) | Printed::EndLine => true,
    }
}

/// Whether a statement that holds no statement runs by now.
#[tactic(auto, unfolding(checked_tree::specs::Actions::deed_of))]
pub(crate) fn is_built_action(action: &Action) -> bool
    ensures { result ≡ built.is_built_deed (deed_of action.now) }
{
    match action {
        Action::Empty => true,
        Action::Declare { start, .. } => is_built_boxed(start),
        Action::DeclareArray {
            dimensions,
            start,
            ..
        } => are_built_dimensions(dimensions) && is_built_boxed_start(start),
        Action::DeclareVariable(variable) => is_built_variable(variable),
        Action::Make {
            kind,
            arguments,
            ..
        } => is_built_object(*kind) && are_built_arguments(arguments),
        Action::Write { target, value, .. } => is_built_part(target) && is_built_part(value),
        Action::Swap { left, right } => is_built_part(left) && is_built_part(right),
        Action::Step { target, .. } => is_built_part(target),
        Action::Do(expression) => is_built_part(expression),
        Action::Choose(chosen) => is_built_part(chosen),
        Action::Print(printed) => are_built_shown(printed),
        Action::Return(value) => is_built_option(value),
    }
}
