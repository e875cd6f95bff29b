//! The expressions that run by now.
ghost use Rattle.std.specs.Prelude.{◌≡◌, map, option_map};
ghost use Rattle.checked_tree.specs.Shape.{shape_of, shape_of_link, shape_of_generator, optional, seen, whole, wholes, rows};
ghost use Rattle.comet_meaning.specs.Built as built;

use checked_tree::{Form, Generator, Link, Method, Typed};

fn is_built_method(method: Method) -> bool
    ensures { result ≡ built.is_built_method method }
{
    matches!(
        method,
        Method::Close
            | Method::ReadInt
            | Method::Low
            | Method::Up
            | Method::RangeSize
            | Method::Insert
            | Method::Delete
            | Method::Contains
            | Method::SetSize
            | Method::ArraySize
            | Method::Domain
            | Method::Post
            | Method::Violations
            | Method::SystemAssignDelta
            | Method::SystemSwapDelta
            | Method::ObjectiveAssignDelta
            | Method::ObjectiveSwapDelta
            | Method::ObjectiveValue
            | Method::ObjectiveEvaluation
            | Method::PostPart
            | Method::Draw
            | Method::HasMove
            | Method::GetMove
            | Method::Restore
    )
}

/// Whether it holds only forms that run by now.
#[cycle(expression)]
pub(crate) fn is_built_part(part: &Typed) -> bool
    ensures { result ≡ built.is_built_part (seen part.now) }
{
    is_built_expression(&part.form)
}

/// Whether it is of a form that runs by now, and its parts are.
#[cycle(expression)]
#[tactic(auto, unfolding(checked_tree::specs::Shape::shape_of, checked_tree::specs::Shape::shape_of_link, checked_tree::specs::Shape::shape_of_generator))]
fn is_built_expression(form: &Form) -> bool
    ensures { result ≡ built.is_built_expression (shape_of form.now) }
{
    match form {
        Form::Number(_) | Form::Truth(_) | Form::Text(_) | Form::Name(_) => true,
        Form::Unary { operand, .. } => is_built_part(operand),
        Form::Parentheses(inner) => is_built_part(inner),
        Form::Chain { first, links } => is_built_part(first) && are_built_links(links),
        Form::Compare { left, right, .. } => is_built_part(left) && is_built_part(right),
        Form::Range { low, high } => is_built_part(low) && is_built_part(high),
        Form::Conditional {
            test,
            then,
            otherwise,
        } => is_built_part(test) && is_built_part(then) && is_built_part(otherwise),
        Form::Index { array, index } => is_built_part(array) && is_built_part(index),
        Form::Cell { grid, row, column } => {
            is_built_part(grid) && is_built_part(row) && is_built_part(column)
        }
        Form::List(members) | Form::Set(members) => are_built_parts(members),
        Form::Aggregate {
            generators,
            condition,
            body,
            ..
        } => are_built_generators(generators)
            && is_built_condition(condition)
            && is_built_part(body),
        Form::Builtin { arguments, .. } => are_built_parts(arguments),
        Form::Call { arguments, .. } => are_built_parts(arguments),
        Form::Method {
            method,
            object,
            arguments,
        } => is_built_method(*method) && is_built_part(object) && are_built_parts(arguments),
    }
}

#[cycle(expression)]
fn are_built_parts(parts: &[Typed]) -> bool
    ensures { result ≡ built.is_built_expression (wholes (map seen parts.now)) }
{
    for part in parts {
        if !is_built_part(part) {
            return false;
        }
    }
    true
}

#[cycle(expression)]
fn are_built_links(links: &[Link]) -> bool
    ensures { result ≡ built.is_built_expression (rows (map shape_of_link links.now)) }
{
    for link in links {
        if !is_built_link(link) {
            return false;
        }
    }
    true
}

#[cycle(expression)]
#[tactic(auto, unfolding(checked_tree::specs::Shape::shape_of, checked_tree::specs::Shape::shape_of_link))]
fn is_built_link(link: &Link) -> bool
    ensures { result ≡ built.is_built_expression (shape_of_link link.now) }
{
    is_built_part(&link.operand)
}

#[cycle(expression)]
pub(crate) fn are_built_generators(generators: &[Generator]) -> bool
    ensures { result ≡ built.is_built_expression (rows (map shape_of_generator generators.now)) }
{
    for generator in generators {
        if !is_built_generator(generator) {
            return false;
        }
    }
    true
}

#[cycle(expression)]
#[tactic(auto, unfolding(checked_tree::specs::Shape::shape_of, checked_tree::specs::Shape::shape_of_generator))]
fn is_built_generator(generator: &Generator) -> bool
    ensures { result ≡ built.is_built_expression (shape_of_generator generator.now) }
{
    is_built_part(&generator.domain)
}

#[cycle(expression)]
fn is_built_condition(condition: &Option<Box<Typed>>) -> bool
    ensures { result ≡ built.is_built_expression
        (optional whole (option_map (λ e. seen e.value) condition.now)) }
{
    match condition {
        None => true,
        Some(condition) => is_built_part(condition),
    }
}
