//! The expressions that do nothing but give their value.
ghost use Rattle.std.specs.Prelude.{◌≡◌, false, map, not, option_map, slice_index_or};
ghost use Rattle.checked_tree.specs.Shape.{shape_of, shape_of_link, shape_of_generator, optional, seen, whole, wholes, rows};
ghost use Rattle.type_rules.specs.Rows as types;
ghost use Rattle.comet_meaning.specs.Purity as purity;

use checked_tree::{Form, Generator, Link, Method, Slot, Typed};
use type_rules::rows::method_row;

fn is_local(slot: Slot) -> bool
    ensures { result ≡ purity.is_local slot }
{
    matches!(slot, Slot::Local(_))
}

fn is_pure_method(method: Method) -> bool
    ensures { result ≡ not (types.method_row method).impure }
{
    !method_row(method).impure
}

fn is_pure_function(known: &[bool], function: usize) -> bool
    ensures { result ≡ slice_index_or known.now function false }
{
    known.get(function).copied().unwrap_or(false)
}

/// Whether an expression is pure, where it is known which functions are.
#[cycle(purity)]
pub fn is_pure(known: &[bool], part: &Typed) -> bool
    ensures { result ≡ purity.is_pure known.now (whole (seen part.now)) }
{
    is_pure_form(known, &part.form)
}

#[cycle(purity)]
#[tactic(auto, unfolding(checked_tree::specs::Shape::shape_of, checked_tree::specs::Shape::shape_of_link, checked_tree::specs::Shape::shape_of_generator))]
fn is_pure_form(known: &[bool], form: &Form) -> bool
    ensures { result ≡ purity.is_pure known.now (shape_of form.now) }
{
    match form {
        Form::Number(_) | Form::Truth(_) | Form::Text(_) | Form::Name(_) => true,
        Form::Unary { operand: inner, .. } | Form::Parentheses(inner) => is_pure(known, inner),
        Form::Chain { first, links } => is_pure(known, first) && are_pure_links(known, links),
        Form::Compare { left, right, .. } => is_pure(known, left) && is_pure(known, right),
        Form::Range { low, high } => is_pure(known, low) && is_pure(known, high),
        Form::Conditional {
            test,
            then,
            otherwise,
        } => is_pure(known, test) && is_pure(known, then) && is_pure(known, otherwise),
        Form::Index { array, index } => is_pure(known, array) && is_pure(known, index),
        Form::Cell { grid, row, column } => {
            is_pure(known, grid) && is_pure(known, row) && is_pure(known, column)
        }
        Form::List(members) | Form::Set(members) => are_pure_parts(known, members),
        Form::Aggregate {
            generators,
            condition,
            body,
            ..
        } => are_pure_generators(known, generators)
            && is_pure_condition(known, condition)
            && is_pure(known, body),
        Form::Builtin { arguments, .. } => are_pure_parts(known, arguments),
        Form::Call {
            function,
            arguments,
        } => is_pure_function(known, *function) && are_pure_parts(known, arguments),
        Form::Method {
            method,
            object,
            arguments,
        } => is_pure_method(*method) && is_pure(known, object) && are_pure_parts(known, arguments),
    }
}

#[cycle(purity)]
fn are_pure_parts(known: &[bool], parts: &[Typed]) -> bool
    ensures { result ≡ purity.is_pure known.now (wholes (map seen parts.now)) }
{
    for part in parts {
        if !is_pure(known, part) {
            return false;
        }
    }
    true
}

#[cycle(purity)]
fn are_pure_links(known: &[bool], links: &[Link]) -> bool
    ensures { result ≡ purity.is_pure known.now (rows (map shape_of_link links.now)) }
{
    for link in links {
        if !is_pure_link(known, link) {
            return false;
        }
    }
    true
}

#[cycle(purity)]
#[tactic(auto, unfolding(checked_tree::specs::Shape::shape_of, checked_tree::specs::Shape::shape_of_link))]
fn is_pure_link(known: &[bool], link: &Link) -> bool
    ensures { result ≡ purity.is_pure known.now (shape_of_link link.now) }
{
    is_pure(known, &link.operand)
}

#[cycle(purity)]
fn are_pure_generators(known: &[bool], generators: &[Generator]) -> bool
    ensures { result ≡ purity.is_pure known.now (rows (map shape_of_generator generators.now)) }
{
    for generator in generators {
        if !is_pure_generator(known, generator) {
            return false;
        }
    }
    true
}

#[cycle(purity)]
#[tactic(auto, unfolding(checked_tree::specs::Shape::shape_of, checked_tree::specs::Shape::shape_of_generator))]
fn is_pure_generator(known: &[bool], generator: &Generator) -> bool
    ensures { result ≡ purity.is_pure known.now (shape_of_generator generator.now) }
{
    is_local(generator.slot) && is_pure(known, &generator.domain)
}

#[cycle(purity)]
fn is_pure_condition(known: &[bool], condition: &Option<Box<Typed>>) -> bool
    ensures { result ≡ purity.is_pure known.now
        (optional whole (option_map (λ e. seen e.value) condition.now)) }
{
    match condition {
        None => true,
        Some(condition) => is_pure(known, condition),
    }
}
