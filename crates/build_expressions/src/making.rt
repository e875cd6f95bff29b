//! Nodes of expressions, made from their parts. Lists stand the last member first.
ghost use Rattle.std.specs.Prelude.{◌≡◌, IfOk, map, reverse};
ghost use Rattle.comet_syntax.specs.Written.Expressions.{aggregate, extreme_of, link, list_of, option_value, parentheses, set_of, truth, unary, written, written_argument, written_generators, written_link, written_suffix};
ghost use Rattle.parse_stacks.specs.Levels.{index_text, method_text};

use cbl_base::{NoMemory, Place};
use comet_syntax::tree::{
    Aggregate, Argument, ChainOperator, Expression, Extreme, Generators, Link, Name, Suffix,
    UnaryOperator,
};
use parse_stacks::box_two;
use std::alloc::Global;

// A list in order.
pub fn in_order<T>(all: Vec<T>) -> Vec<T>
    ensures { result.items ≡ reverse all.items }
{
    let mut all = all;
    all.reverse();
    all
}

/// An operand behind an operator.
pub fn make_link(operator: ChainOperator, place: Place, operand: Expression) -> Link
    ensures { written_link result ≡ record {
      operator = operator;
      text = link operator place
          (written operand);
    } }
{
    Link {
        operator,
        place,
        operand,
    }
}

/// A sign before its operand.
pub fn make_unary(
    alloc: Global,
    operator: UnaryOperator,
    place: Place,
    operand: Expression,
) -> Result<Expression, NoMemory>
    ensures { IfOk result (λ e. written e ≡ unary operator place (written operand)) }
{
    let operand = Box::new(alloc, operand)?;
    Ok(Expression::Unary {
        operator,
        place,
        operand,
    })
}

/// An aggregate.
pub fn make_aggregate(
    alloc: Global,
    kind: Aggregate,
    place: Place,
    generators: Generators,
    body: Expression,
) -> Result<Expression, NoMemory>
    ensures { IfOk result (λ e. written e ≡
        aggregate kind place (written_generators generators) (written body)) }
{
    let (generators, body) = box_two(alloc, generators, body)?;
    Ok(Expression::Aggregate {
        aggregate: kind,
        place,
        generators,
        body,
    })
}

/// `min` or `max` of two expressions.
pub fn make_extreme(
    alloc: Global,
    extreme: Extreme,
    place: Place,
    left: Expression,
    right: Expression,
) -> Result<Expression, NoMemory>
    ensures { IfOk result (λ e. written e ≡
        extreme_of extreme place (written left) (written right)) }
{
    let (left, right) = box_two(alloc, left, right)?;
    Ok(Expression::Extreme {
        extreme,
        place,
        left,
        right,
    })
}

/// An expression in parentheses.
pub fn make_parentheses(
    alloc: Global,
    place: Place,
    inner: Expression,
) -> Result<Expression, NoMemory>
    ensures { IfOk result (λ e. written e ≡ parentheses place (written inner)) }
{
    let inner = Box::new(alloc, inner)?;
    Ok(Expression::Parentheses { place, inner })
}

/// `true` or `false`.
pub fn make_truth(value: bool, place: Place) -> Expression
    ensures { written result ≡ truth value place }
{
    Expression::Truth { value, place }
}

/// `[arguments]`
pub fn make_list(place: Place, all: Vec<Argument>) -> Expression
    ensures { written result ≡ list_of place (map written_argument (reverse all.items)) }
{
    let arguments = in_order(all);
    Expression::List { place, arguments }
}

/// `{arguments}`
pub fn make_set(place: Place, all: Vec<Argument>) -> Expression
    ensures { written result ≡ set_of place (map written_argument (reverse all.items)) }
{
    let arguments = in_order(all);
    Expression::Set { place, arguments }
}

/// `[index]` or `[index, second]`
pub fn make_index(place: Place, index: Expression, second: Option<Expression>) -> Suffix
    ensures { written_suffix result ≡ index_text place (written index)
        (option_value written second) }
{
    match second {
        None => Suffix::Index { place, index },
        Some(second) => Suffix::Cell {
            place,
            first: index,
            second,
        },
    }
}

/// `.name(arguments)`
pub fn make_method(name: Name, all: Vec<Argument>) -> Suffix
    ensures { written_suffix result ≡ method_text name (map written_argument (reverse all.items)) }
{
    let arguments = in_order(all);
    Suffix::Method { name, arguments }
}
