//! What expressions are.
ghost use Rattle.std.specs.Prelude.{◌≡◌, [], ◌∷◌, map, option_map, Option};
ghost use Rattle.tree_makers.specs.Makes.{Makes};
ghost use Rattle.checked_tree.specs.Shape as shapes;
ghost use Rattle.checked_tree.specs.Shape.{shape_of, shape_of_link, shape_of_generator, seen};
ghost use Rattle.type_rules.specs.Rules as rules;
ghost use Rattle.type_scopes.specs.Did.{Did};
ghost use Rattle.type_scopes.specs.State as acts;
ghost use Rattle.type_calls.specs.Arguments as calls;
ghost use Rattle.type_expressions.specs.Expressions as expressions;
ghost use Rattle.type_expressions.specs.Expressions.{judge, judge_link, judge_argument, judge_suffix, judge_generator, judge_generators};
ghost use Rattle.type_expressions.specs.View.{front_of, values_of, generators_of};

use crate::leaves::{check_name, check_number, check_truth};
use cbl_base::{Place, Text};
use checked_tree::{
    Builtin, Cause, Generator as CheckedGenerator, Kind, Link as CheckedLink, Stop, Typed,
};
use comet_syntax::tree::{
    Aggregate, Argument, ChainOperator, Comparison, Expression, Extreme, Generator, Generators,
    Link, Name, Suffix, UnaryOperator,
};
use std::alloc::Global;
use tree_makers::kept::{behind, beside, pushed};
use tree_makers::make_expressions::{
    make_aggregate, make_builtin, make_cell, make_chain, make_compare, make_conditional,
    make_generator, make_index, make_link, make_list, make_parentheses, make_range, make_set,
    make_text, make_unary,
};
use type_calls::{all_numbers, any_moving, called, first_context, made, method_called, note_of};
use type_rules::rows::method_named;
use type_rules::rules::{
    aggregate_rule, chain_rule, compare_rule, conditional_rule, extreme_rule, generator_rule,
    grid_rule, index_rule, inner, inside, is_joining, is_logical, list_rule, made_pure,
    parentheses_rule, range_rule, set_rule, unary_rule,
};
use type_rules::{Context, Note};
use type_scopes::{Checker, Scope};

fn operand_context(operator: UnaryOperator, context: Context) -> Context
    ensures { result ≡ expressions.operand_context operator context }
{
    match operator {
        UnaryOperator::Negative => inner(context),
        UnaryOperator::Not => inside(context),
    }
}

/// What an expression is.
#[cycle(expression)]
#[tactic(auto, unfolding(crate::specs::Expressions::judge, crate::specs::Expressions::judge_link, crate::specs::Expressions::judge_argument, crate::specs::Expressions::judge_suffix, crate::specs::Expressions::judge_generators, crate::specs::Expressions::judge_generator))]
pub fn check_expression(
    checker: &mut Checker,
    scope: Scope,
    expression: &Expression,
) -> Result<Typed, Stop>
    ensures { Did seen result checker.new (judge expression.now scope checker.old) }
{
    match expression {
        Expression::Conditional {
            test,
            then,
            otherwise,
        } => check_conditional(checker, scope, test, then, otherwise),
        Expression::Chain { first, links } => check_chain(checker, scope, links, first),
        Expression::Comparison {
            left,
            comparison,
            place,
            right,
        } => check_comparison(checker, scope, left, *comparison, *place, right),
        Expression::Range { low, place, high } => check_range(checker, scope, low, *place, high),
        Expression::Unary {
            operator,
            place,
            operand,
        } => check_unary(checker, scope, *operator, *place, operand),
        Expression::Aggregate {
            aggregate,
            place,
            generators,
            body,
        } => check_aggregate(checker, scope, *aggregate, *place, generators, body),
        Expression::Postfix { primary, suffixes } => {
            check_postfix(checker, scope, suffixes, primary)
        }
        Expression::Number { value, place } => Ok(check_number(value, *place)),
        Expression::Truth { value, place } => Ok(check_truth(*value, *place)),
        Expression::Name(name) => check_name(checker, scope, name),
        Expression::Call { name, arguments } => check_call(checker, scope, name, arguments),
        Expression::Extreme {
            extreme,
            place,
            left,
            right,
        } => check_extreme(checker, scope, *extreme, *place, left, right),
        Expression::Parentheses { place, inner } => {
            check_parentheses(checker, scope, *place, inner)
        }
        Expression::List { place, arguments } => check_list(checker, scope, *place, arguments),
        Expression::Set { place, arguments } => check_set(checker, scope, *place, arguments),
    }
}

#[cycle(expression)]
#[tactic(auto, unfolding(crate::specs::Expressions::unary_form))]
fn check_unary(
    checker: &mut Checker,
    scope: Scope,
    operator: UnaryOperator,
    place: Place,
    operand: &Expression,
) -> Result<Typed, Stop>
    ensures { Did seen result checker.new
        (expressions.unary_form operator place (judge operand.now) scope checker.old) }
{
    let context = operand_context(operator, scope.context);
    let operand = check_expression(checker, scope.within(context), operand)?;
    let note = note_of(&operand);
    let form = make_unary(checker.alloc(), operator, operand)?;
    made(
        place,
        place,
        form,
        unary_rule(operator, scope.context, note),
    )
}

#[cycle(expression)]
#[tactic(auto, unfolding(crate::specs::Expressions::comparison_form))]
fn check_comparison(
    checker: &mut Checker,
    scope: Scope,
    left: &Expression,
    comparison: Comparison,
    place: Place,
    right: &Expression,
) -> Result<Typed, Stop>
    ensures { Did seen result checker.new
        (expressions.comparison_form (judge left.now) comparison place
        (judge right.now) scope checker.old) }
{
    let at = scope.within(inner(scope.context));
    let left = check_expression(checker, at, left)?;
    let (left, right) = beside(left, check_expression(checker, at, right))?;
    let start = left.start;
    let ruling = compare_rule(scope.context, note_of(&left), note_of(&right));
    let form = make_compare(checker.alloc(), comparison, left, right)?;
    made(start, place, form, ruling)
}

#[cycle(expression)]
#[tactic(auto, unfolding(crate::specs::Expressions::range_form))]
fn check_range(
    checker: &mut Checker,
    scope: Scope,
    low: &Expression,
    place: Place,
    high: &Expression,
) -> Result<Typed, Stop>
    ensures { Did seen result checker.new
        (expressions.range_form (judge low.now) place (judge high.now) scope checker.old) }
{
    let at = scope.within(inner(scope.context));
    let low = check_expression(checker, at, low)?;
    let (low, high) = beside(low, check_expression(checker, at, high))?;
    let start = low.start;
    let ruling = range_rule(note_of(&low), note_of(&high));
    let form = make_range(checker.alloc(), low, high)?;
    made(start, place, form, ruling)
}

#[cycle(expression)]
#[tactic(auto, unfolding(crate::specs::Expressions::conditional_form))]
fn check_conditional(
    checker: &mut Checker,
    scope: Scope,
    test: &Expression,
    then: &Expression,
    otherwise: &Expression,
) -> Result<Typed, Stop>
    ensures { Did seen result checker.new
        (expressions.conditional_form (judge test.now) (judge «then».now)
        (judge otherwise.now) scope checker.old) }
{
    let at = scope.within(inner(scope.context));
    let test = check_expression(checker, at, test)?;
    let kept = beside(test, check_expression(checker, at, then))?;
    let (kept, otherwise) = beside(kept, check_expression(checker, at, otherwise))?;
    let (test, then) = kept;
    let start = test.start;
    let ruling = conditional_rule(note_of(&test), note_of(&then), note_of(&otherwise));
    let form = make_conditional(checker.alloc(), test, then, otherwise)?;
    made(start, start, form, ruling)
}

#[cycle(expression)]
#[tactic(auto, unfolding(crate::specs::Expressions::parentheses_form))]
fn check_parentheses(
    checker: &mut Checker,
    scope: Scope,
    place: Place,
    inner: &Expression,
) -> Result<Typed, Stop>
    ensures { Did seen result checker.new
        (expressions.parentheses_form place (judge inner.now) scope checker.old) }
{
    let inner = check_expression(checker, scope.within(inside(scope.context)), inner)?;
    let ruling = parentheses_rule(note_of(&inner));
    let form = make_parentheses(checker.alloc(), inner)?;
    made(place, place, form, ruling)
}

fn extreme_builtin(extreme: Extreme) -> Builtin
    ensures { result ≡ expressions.extreme_builtin extreme }
{
    match extreme {
        Extreme::Min => Builtin::Min,
        Extreme::Max => Builtin::Max,
    }
}

#[cycle(expression)]
#[tactic(auto, unfolding(crate::specs::Expressions::extreme_form))]
fn check_extreme(
    checker: &mut Checker,
    scope: Scope,
    extreme: Extreme,
    place: Place,
    left: &Expression,
    right: &Expression,
) -> Result<Typed, Stop>
    ensures { Did seen result checker.new
        (expressions.extreme_form extreme place (judge left.now)
        (judge right.now) scope checker.old) }
{
    let at = scope.within(inner(scope.context));
    let left = check_expression(checker, at, left)?;
    let (left, right) = beside(left, check_expression(checker, at, right))?;
    let ruling = extreme_rule(note_of(&left), note_of(&right));
    let form = make_builtin(checker.alloc(), extreme_builtin(extreme), left, right)?;
    made(place, place, form, ruling)
}

/// A chain so far.
#[derive(Drop)]
pub(crate) struct ChainFront {
    note: Note,
    links: Vec<CheckedLink>,
}

fn operator_context(operator: ChainOperator, context: Context) -> Context
    ensures { result ≡ expressions.operator_context operator context }
{
    if is_logical(operator) {
        inside(context)
    } else {
        inner(context)
    }
}

#[tactic(auto, using(crate::proofs::Judged::first_link))]
fn first_operator_context(links: &[Link], context: Context) -> Context
    ensures { result ≡ expressions.first_operator_context (map judge_link links.now) context }
{
    match links.first() {
        None => context,
        Some(link) => operator_context(link.operator, context),
    }
}

fn linked(
    front: ChainFront,
    operator: ChainOperator,
    place: Place,
    operand: Typed,
    ruling: Result<Note, Cause>,
) -> Result<ChainFront, Stop>
    ensures { (s : acts.State) → Did front_of result s
        (expressions.linked place (front_of front)
        (shapes.link operator place (shapes.whole (seen operand))) ruling s) }
{
    match ruling {
        Ok(note) => {
            let links = pushed(front.links, make_link(operator, place, operand))?;
            Ok(ChainFront { note, links })
        }
        Err(cause) => {
            drop((front, operand));
            Err(Stop::Fault(place, cause))
        }
    }
}

#[cycle(expression)]
#[tactic(auto, using(crate::proofs::Judged::link_is), unfolding(crate::specs::Expressions::link_form))]
fn check_link(
    checker: &mut Checker,
    scope: Scope,
    front: ChainFront,
    link: &Link,
) -> Result<ChainFront, Stop>
    ensures { Did front_of result checker.new
        (expressions.link_form scope (front_of front) (judge_link link.now) checker.old) }
{
    let context = operator_context(link.operator, scope.context);
    let operand = check_expression(checker, scope.within(context), &link.operand);
    let (front, operand) = beside(front, operand)?;
    let ruling = chain_rule(link.operator, scope.context, front.note, note_of(&operand));
    linked(front, link.operator, link.place, operand, ruling)
}

#[cycle(expression)]
fn check_links(
    checker: &mut Checker,
    scope: Scope,
    note: Note,
    links: &[Link],
) -> Result<ChainFront, Stop>
    ensures { Did front_of result checker.new
        (acts.each (expressions.link_form scope) (map judge_link links.now)
        (record { note = note; links = [] }) checker.old) }
{
    let mut front = ChainFront {
        note,
        links: Vec::new(checker.alloc()),
    };
    for link in links {
        front = check_link(checker, scope, front, link)?;
    }
    Ok(front)
}

#[cycle(expression)]
#[tactic(auto, unfolding(crate::specs::Expressions::chain_form))]
fn check_chain(
    checker: &mut Checker,
    scope: Scope,
    links: &[Link],
    first: &Expression,
) -> Result<Typed, Stop>
    ensures { Did seen result checker.new
        (expressions.chain_form (judge first.now) (map judge_link links.now) scope checker.old) }
{
    let context = first_operator_context(links, scope.context);
    let first = check_expression(checker, scope.within(context), first)?;
    let front = check_links(checker, scope, note_of(&first), links);
    let (first, front) = beside(first, front)?;
    let start = first.start;
    let form = make_chain(checker.alloc(), first, front.links)?;
    Ok(Typed {
        start,
        place: start,
        kind: front.note.kind,
        moving: front.note.moving,
        form,
    })
}

fn argument_context(first: Context, other: Context, values: &[Typed]) -> Context
    ensures { result ≡ expressions.argument_context first other (map seen values.now) }
{
    if values.is_empty() { first } else { other }
}

#[cycle(expression)]
#[tactic(auto, unfolding(crate::specs::Expressions::judge_argument, crate::specs::Expressions::judge))]
fn check_argument(checker: &mut Checker, scope: Scope, argument: &Argument) -> Result<Typed, Stop>
    ensures { Did seen result checker.new (judge_argument argument.now scope checker.old) }
{
    match argument {
        Argument::Expression(expression) => check_expression(checker, scope, expression),
        Argument::Str(text) => check_text(checker.alloc(), text),
    }
}

fn check_text(alloc: Global, text: &Text) -> Result<Typed, Stop>
    ensures { Makes seen result (shapes.quoted text.now) }
{
    let nowhere = Place { line: 0, col: 0 };
    let text = Text::from_slice(alloc, text.as_slice())?;
    Ok(Typed {
        start: nowhere,
        place: nowhere,
        kind: Kind::Text,
        moving: false,
        form: make_text(text),
    })
}

#[cycle(expression)]
#[tactic(auto, unfolding(crate::specs::Expressions::argument_form))]
fn check_next_argument(
    checker: &mut Checker,
    first: Context,
    scope: Scope,
    values: Vec<Typed>,
    argument: &Argument,
) -> Result<Vec<Typed>, Stop>
    ensures { Did values_of result checker.new
        (expressions.argument_form first scope (map seen values.items)
        (judge_argument argument.now) checker.old) }
{
    let context = argument_context(first, scope.context, &values);
    let value = check_argument(checker, scope.within(context), argument);
    let (values, value) = beside(values, value)?;
    let values = pushed(values, value)?;
    Ok(values)
}

#[cycle(expression)]
pub fn check_arguments(
    checker: &mut Checker,
    first: Context,
    scope: Scope,
    arguments: &[Argument],
) -> Result<Vec<Typed>, Stop>
    ensures { Did values_of result checker.new
        (expressions.arguments_form first (map judge_argument arguments.now) scope checker.old) }
{
    let mut values = Vec::new(checker.alloc());
    for argument in arguments {
        values = check_next_argument(checker, first, scope, values, argument)?;
    }
    Ok(values)
}

fn list_ruling(values: &Vec<Typed>) -> Result<Note, Cause>
    ensures { result ≡ rules.list_rule (calls.all_numbers (map seen values.now.items))
        (calls.any_moving (map seen values.now.items)) }
{
    list_rule(all_numbers(values), any_moving(values))
}

fn set_ruling(values: &Vec<Typed>) -> Result<Note, Cause>
    ensures { result ≡ rules.set_rule (calls.all_numbers (map seen values.now.items))
        (calls.any_moving (map seen values.now.items)) }
{
    set_rule(all_numbers(values), any_moving(values))
}

#[cycle(expression)]
#[tactic(auto, unfolding(crate::specs::Expressions::list_form))]
fn check_list(
    checker: &mut Checker,
    scope: Scope,
    place: Place,
    arguments: &[Argument],
) -> Result<Typed, Stop>
    ensures { Did seen result checker.new
        (expressions.list_form place (map judge_argument arguments.now) scope checker.old) }
{
    let context = inner(scope.context);
    let values = check_arguments(checker, context, scope.within(context), arguments)?;
    let ruling = list_ruling(&values);
    made(place, place, make_list(values), ruling)
}

#[cycle(expression)]
#[tactic(auto, unfolding(crate::specs::Expressions::set_form))]
fn check_set(
    checker: &mut Checker,
    scope: Scope,
    place: Place,
    arguments: &[Argument],
) -> Result<Typed, Stop>
    ensures { Did seen result checker.new
        (expressions.set_form place (map judge_argument arguments.now) scope checker.old) }
{
    let context = inner(scope.context);
    let values = check_arguments(checker, context, scope.within(context), arguments)?;
    let ruling = set_ruling(&values);
    made(place, place, make_set(values), ruling)
}

#[cycle(expression)]
#[tactic(auto, unfolding(crate::specs::Expressions::call_form))]
fn check_call(
    checker: &mut Checker,
    scope: Scope,
    name: &Name,
    arguments: &[Argument],
) -> Result<Typed, Stop>
    ensures { Did seen result checker.new
        (expressions.call_form name.now (map judge_argument arguments.now) scope checker.old) }
{
    let context = inner(scope.context);
    let values = check_arguments(checker, context, scope.within(context), arguments)?;
    called(checker, name, scope, values)
}

#[cycle(expression)]
#[tactic(auto, unfolding(crate::specs::Expressions::index_form))]
fn check_index(
    checker: &mut Checker,
    scope: Scope,
    place: Place,
    index: &Expression,
    front: Typed,
) -> Result<Typed, Stop>
    ensures { Did seen result checker.new
        (expressions.index_form place (judge index.now) (seen front) scope checker.old) }
{
    let (front, index) = beside(front, check_expression(checker, scope, index))?;
    let start = front.start;
    let ruling = index_rule(note_of(&front), note_of(&index));
    let form = make_index(checker.alloc(), front, index)?;
    made(start, place, form, ruling)
}

#[cycle(expression)]
#[tactic(auto, unfolding(crate::specs::Expressions::cell_form))]
fn check_cell(
    checker: &mut Checker,
    scope: Scope,
    place: Place,
    row: &Expression,
    column: &Expression,
    front: Typed,
) -> Result<Typed, Stop>
    ensures { Did seen result checker.new
        (expressions.cell_form place (judge row.now) (judge column.now)
        (seen front) scope checker.old) }
{
    let kept = beside(front, check_expression(checker, scope, row))?;
    let (kept, column) = beside(kept, check_expression(checker, scope, column))?;
    let (front, row) = kept;
    let start = front.start;
    let ruling = grid_rule(note_of(&front), note_of(&row), note_of(&column));
    let form = make_cell(checker.alloc(), front, row, column)?;
    made(start, place, form, ruling)
}

#[cycle(expression)]
#[tactic(auto, unfolding(crate::specs::Expressions::method_form))]
fn check_method(
    checker: &mut Checker,
    scope: Scope,
    name: &Name,
    arguments: &[Argument],
    front: Typed,
) -> Result<Typed, Stop>
    ensures { Did seen result checker.new
        (expressions.method_form name.now (map judge_argument arguments.now)
        (seen front) scope checker.old) }
{
    let method = method_named(front.kind, name.text.as_slice());
    let context = first_context(method, scope.context);
    let values = check_arguments(checker, context, scope, arguments);
    let (front, values) = beside(front, values)?;
    method_called(checker, name.place, front, scope, values, method)
}

#[cycle(expression)]
#[tactic(auto, unfolding(crate::specs::Expressions::judge_suffix, crate::specs::Expressions::judge_argument, crate::specs::Expressions::judge))]
fn check_suffix(
    checker: &mut Checker,
    scope: Scope,
    suffix: &Suffix,
    front: Typed,
) -> Result<Typed, Stop>
    ensures { Did seen result checker.new
        (expressions.suffix_form scope (seen front) (judge_suffix suffix.now) checker.old) }
{
    match suffix {
        Suffix::Index { place, index } => check_index(checker, scope, *place, index, front),
        Suffix::Cell {
            place,
            first,
            second,
        } => check_cell(checker, scope, *place, first, second, front),
        Suffix::Method { name, arguments } => check_method(checker, scope, name, arguments, front),
    }
}

#[cycle(expression)]
fn check_suffixes(
    checker: &mut Checker,
    scope: Scope,
    suffixes: &[Suffix],
    primary: Typed,
) -> Result<Typed, Stop>
    ensures { Did seen result checker.new
        (acts.each (expressions.suffix_form scope) (map judge_suffix suffixes.now)
        (seen primary) checker.old) }
{
    let mut front = primary;
    for suffix in suffixes {
        front = check_suffix(checker, scope, suffix, front)?;
    }
    Ok(front)
}

#[cycle(expression)]
#[tactic(auto, unfolding(crate::specs::Expressions::postfix_form))]
fn check_postfix(
    checker: &mut Checker,
    scope: Scope,
    suffixes: &[Suffix],
    primary: &Expression,
) -> Result<Typed, Stop>
    ensures { Did seen result checker.new
        (expressions.postfix_form (judge primary.now)
        (map judge_suffix suffixes.now) scope checker.old) }
{
    let at = scope.within(inner(scope.context));
    let front = check_expression(checker, at, primary)?;
    check_suffixes(checker, at, suffixes, front)
}

/// Generators so far.
fn generator_made(
    checker: &mut Checker,
    scope: Scope,
    name: &Name,
    generators: Vec<CheckedGenerator>,
    domain: Typed,
    ruling: Result<Note, Cause>,
) -> Result<Vec<CheckedGenerator>, Stop>
    ensures { Did generators_of result checker.new
        (expressions.generator_made scope name.now (map shape_of_generator generators.items)
        (seen domain) ruling checker.old) }
{
    match ruling {
        Err(cause) => {
            drop((generators, domain));
            Err(Stop::Fault(name.place, cause))
        }
        Ok(_) => {
            let slot = scope.slot_of(checker.count());
            let declared = checker.declare(name.text.as_slice(), Kind::Int);
            let (generators, domain) = behind(declared, (generators, domain))?;
            let generators = pushed(generators, make_generator(name.place, slot, domain))?;
            Ok(generators)
        }
    }
}

#[cycle(expression)]
#[tactic(auto, using(crate::proofs::Judged::generator_is), unfolding(crate::specs::Expressions::generator_form))]
fn check_generator(
    checker: &mut Checker,
    scope: Scope,
    generator: &Generator,
    generators: Vec<CheckedGenerator>,
) -> Result<Vec<CheckedGenerator>, Stop>
    ensures { Did generators_of result checker.new
        (expressions.generator_form scope (map shape_of_generator generators.items)
        (judge_generator generator.now) checker.old) }
{
    let at = scope.within(made_pure(scope.context));
    let domain = check_expression(checker, at, &generator.domain);
    let (generators, domain) = beside(generators, domain)?;
    let is_new = checker.is_new(generator.name.text.as_slice(), scope.block);
    let ruling = generator_rule(is_new, note_of(&domain));
    generator_made(checker, scope, &generator.name, generators, domain, ruling)
}

#[cycle(expression)]
fn check_generators(
    checker: &mut Checker,
    scope: Scope,
    generators: &[Generator],
) -> Result<Vec<CheckedGenerator>, Stop>
    ensures { Did generators_of result checker.new
        (expressions.generators_form (map judge_generator generators.now) scope checker.old) }
{
    let mut checked = Vec::new(checker.alloc());
    for generator in generators {
        checked = check_generator(checker, scope, generator, checked)?;
    }
    Ok(checked)
}

#[cycle(expression)]
pub fn generated(
    checker: &mut Checker,
    scope: Scope,
    generators: &Generators,
) -> Result<Vec<CheckedGenerator>, Stop>
    ensures { Did generators_of result checker.new (expressions.generators_form (judge_generators generators.now).generators scope checker.old) }
{
    check_generators(checker, scope, &generators.generators)
}

#[cycle(expression)]
#[tactic(auto, unfolding(crate::specs::Expressions::some_form))]
fn check_some(
    checker: &mut Checker,
    scope: Scope,
    condition: &Expression,
) -> Result<Option<Typed>, Stop>
    ensures { Did (option_map seen) result checker.new
        (expressions.some_form (judge condition.now) scope checker.old) }
{
    let condition = check_expression(checker, scope, condition)?;
    Ok(Some(condition))
}

#[cycle(expression)]
pub fn check_condition(
    checker: &mut Checker,
    scope: Scope,
    generators: &Generators,
) -> Result<Option<Typed>, Stop>
    ensures { Did (option_map seen) result checker.new
        (expressions.condition_form (judge_generators generators.now).condition scope checker.old) }
{
    match &generators.condition {
        None => Ok(None),
        Some(condition) => check_some(checker, scope, condition),
    }
}

pub fn condition_note(condition: &Option<Typed>) -> Note
    ensures { result ≡ expressions.condition_note (option_map seen condition.now) }
{
    match condition {
        None => Note {
            kind: Kind::Bool,
            moving: false,
        },
        Some(condition) => note_of(condition),
    }
}

fn is_one(generators: &[CheckedGenerator]) -> bool
    ensures { result ≡ expressions.is_one (map shape_of_generator generators.now) }
{
    generators.len() == 1
}

fn body_context(aggregate: Aggregate, context: Context) -> Context
    ensures { result ≡ expressions.body_context aggregate context }
{
    if is_joining(aggregate) {
        inside(context)
    } else {
        inner(context)
    }
}

#[cycle(expression)]
#[tactic(auto, unfolding(crate::specs::Expressions::aggregated))]
fn aggregated(
    checker: &mut Checker,
    aggregate: Aggregate,
    place: Place,
    generators: &Generators,
    body: &Expression,
    scope: Scope,
) -> Result<Typed, Stop>
    ensures { Did seen result checker.new
        (expressions.aggregated aggregate place (judge_generators generators.now)
        (judge body.now) scope checker.old) }
{
    let at = scope.within(inner(scope.context));
    let checked = generated(checker, at, generators)?;
    let pure = scope.within(made_pure(scope.context));
    let kept = beside(checked, check_condition(checker, pure, generators))?;
    let context = body_context(aggregate, scope.context);
    let body = check_expression(checker, scope.within(context), body);
    let (kept, body) = beside(kept, body)?;
    let (checked, condition) = kept;
    let single = is_one(&checked);
    let note = condition_note(&condition);
    let ruling = aggregate_rule(aggregate, scope.context, single, note, note_of(&body));
    let form = make_aggregate(checker.alloc(), aggregate, checked, condition, body)?;
    made(place, place, form, ruling)
}

#[cycle(expression)]
#[tactic(auto, unfolding(crate::specs::Expressions::aggregate_form))]
fn check_aggregate(
    checker: &mut Checker,
    scope: Scope,
    aggregate: Aggregate,
    place: Place,
    generators: &Generators,
    body: &Expression,
) -> Result<Typed, Stop>
    ensures { Did seen result checker.new
        (expressions.aggregate_form aggregate place (judge_generators generators.now)
        (judge body.now) scope checker.old) }
{
    let count = checker.count();
    let typed = aggregated(
        checker,
        aggregate,
        place,
        generators,
        body,
        scope.opened(count),
    )?;
    checker.close(count);
    Ok(typed)
}
