//! The forms of checked expressions, made of their parts.
ghost use Rattle.std.specs.Prelude.{◌≡◌, [], ◌∷◌, map, option_map};
ghost use Rattle.tree_makers.specs.Makes.{Makes};
ghost use Rattle.checked_tree.specs.Shape as shapes;
ghost use Rattle.checked_tree.specs.Shape.{shape_of, shape_of_link, shape_of_generator, optional, seen, whole, wholes, rows};

use crate::boxes::{box_beside, box_both, box_expression, box_three, list_both};
use cbl_base::{Place, Text};
use checked_tree::expressions::{Builtin, Form, Generator, Link, Method, Slot, Typed};
use checked_tree::stop::Stop;
use comet_syntax::tree::{Aggregate, ChainOperator, Comparison, UnaryOperator};
use std::alloc::Global;

#[tactic(auto, unfolding(checked_tree::specs::Shape::shape_of))]
pub fn make_unary(alloc: Global, operator: UnaryOperator, operand: Typed) -> Result<Form, Stop>
    ensures { Makes shape_of result (shapes.unary operator (whole (seen operand))) }
{
    let operand = Box::new(alloc, operand)?;
    Ok(Form::Unary { operator, operand })
}

#[tactic(auto, unfolding(checked_tree::specs::Shape::shape_of))]
pub fn make_parentheses(alloc: Global, inner: Typed) -> Result<Form, Stop>
    ensures { Makes shape_of result (shapes.parentheses (whole (seen inner))) }
{
    let inner = Box::new(alloc, inner)?;
    Ok(Form::Parentheses(inner))
}

#[tactic(auto, unfolding(checked_tree::specs::Shape::shape_of))]
pub fn make_compare(
    alloc: Global,
    comparison: Comparison,
    left: Typed,
    right: Typed,
) -> Result<Form, Stop>
    ensures { Makes shape_of result (shapes.compare comparison (whole (seen left))
        (whole (seen right))) }
{
    let (left, right) = box_both(alloc, left, right)?;
    Ok(Form::Compare {
        comparison,
        left,
        right,
    })
}

#[tactic(auto, unfolding(checked_tree::specs::Shape::shape_of))]
pub fn make_range(alloc: Global, low: Typed, high: Typed) -> Result<Form, Stop>
    ensures { Makes shape_of result (shapes.range (whole (seen low)) (whole (seen high))) }
{
    let (low, high) = box_both(alloc, low, high)?;
    Ok(Form::Range { low, high })
}

#[tactic(auto, unfolding(checked_tree::specs::Shape::shape_of))]
pub fn make_conditional(
    alloc: Global,
    test: Typed,
    then: Typed,
    otherwise: Typed,
) -> Result<Form, Stop>
    ensures { Makes shape_of result (shapes.conditional (whole (seen test)) (whole (seen «then»))
        (whole (seen otherwise))) }
{
    let (test, then, otherwise) = box_three(alloc, test, then, otherwise)?;
    Ok(Form::Conditional {
        test,
        then,
        otherwise,
    })
}

#[tactic(auto, unfolding(checked_tree::specs::Shape::shape_of))]
pub fn make_index(alloc: Global, array: Typed, index: Typed) -> Result<Form, Stop>
    ensures { Makes shape_of result (shapes.index (whole (seen array)) (whole (seen index))) }
{
    let (array, index) = box_both(alloc, array, index)?;
    Ok(Form::Index { array, index })
}

#[tactic(auto, unfolding(checked_tree::specs::Shape::shape_of))]
pub fn make_cell(alloc: Global, grid: Typed, row: Typed, column: Typed) -> Result<Form, Stop>
    ensures { Makes shape_of result (shapes.cell (whole (seen grid)) (whole (seen row))
        (whole (seen column))) }
{
    let (grid, row, column) = box_three(alloc, grid, row, column)?;
    Ok(Form::Cell { grid, row, column })
}

#[tactic(auto, unfolding(checked_tree::specs::Shape::shape_of))]
pub fn make_builtin(
    alloc: Global,
    builtin: Builtin,
    left: Typed,
    right: Typed,
) -> Result<Form, Stop>
    ensures { Makes shape_of result (shapes.builtin builtin
        (wholes (seen left ∷ seen right ∷ []))) }
{
    let arguments = list_both(alloc, left, right)?;
    Ok(Form::Builtin { builtin, arguments })
}

#[tactic(auto, unfolding(checked_tree::specs::Shape::shape_of))]
pub fn make_name(slot: Slot) -> Form
    ensures { shape_of result ≡ shapes.name slot }
{
    Form::Name(slot)
}

#[tactic(auto, unfolding(checked_tree::specs::Shape::shape_of))]
pub fn make_number(value: &i64) -> Form
    ensures { shape_of result ≡ shapes.number value.now }
{
    Form::Number(*value)
}

#[tactic(auto, unfolding(checked_tree::specs::Shape::shape_of))]
pub fn make_truth(value: bool) -> Form
    ensures { shape_of result ≡ shapes.truth value }
{
    Form::Truth(value)
}

#[tactic(auto, unfolding(checked_tree::specs::Shape::shape_of, checked_tree::specs::Shape::shape_of_link))]
pub fn make_chain(alloc: Global, first: Typed, links: Vec<Link>) -> Result<Form, Stop>
    ensures { Makes shape_of result (shapes.chain (whole (seen first))
        (rows (map shape_of_link links.items))) }
{
    let first = Box::new(alloc, first)?;
    Ok(Form::Chain { first, links })
}

#[tactic(auto, unfolding(checked_tree::specs::Shape::shape_of, checked_tree::specs::Shape::shape_of_link))]
pub fn make_link(operator: ChainOperator, place: Place, operand: Typed) -> Link
    ensures { shape_of_link result ≡ shapes.link operator place (whole (seen operand)) }
{
    Link {
        operator,
        place,
        operand,
    }
}

#[tactic(auto, unfolding(checked_tree::specs::Shape::shape_of))]
pub fn make_builtin_call(builtin: Builtin, arguments: Vec<Typed>) -> Form
    ensures { shape_of result ≡ shapes.builtin builtin (wholes (map seen arguments.items)) }
{
    Form::Builtin { builtin, arguments }
}

#[tactic(auto, unfolding(checked_tree::specs::Shape::shape_of))]
pub fn make_list(arguments: Vec<Typed>) -> Form
    ensures { shape_of result ≡ shapes.list (wholes (map seen arguments.items)) }
{
    Form::List(arguments)
}

#[tactic(auto, unfolding(checked_tree::specs::Shape::shape_of))]
pub fn make_set(arguments: Vec<Typed>) -> Form
    ensures { shape_of result ≡ shapes.set (wholes (map seen arguments.items)) }
{
    Form::Set(arguments)
}

#[tactic(auto, unfolding(checked_tree::specs::Shape::shape_of))]
pub fn make_method(
    alloc: Global,
    method: Method,
    object: Typed,
    arguments: Vec<Typed>,
) -> Result<Form, Stop>
    ensures { Makes shape_of result (shapes.method method (whole (seen object))
        (wholes (map seen arguments.items))) }
{
    let object = Box::new(alloc, object)?;
    Ok(Form::Method {
        method,
        object,
        arguments,
    })
}

#[tactic(auto, unfolding(checked_tree::specs::Shape::shape_of))]
pub fn make_call(function: usize, arguments: Vec<Typed>) -> Form
    ensures { shape_of result ≡ shapes.call function (wholes (map seen arguments.items)) }
{
    Form::Call {
        function,
        arguments,
    }
}

#[tactic(auto, unfolding(checked_tree::specs::Shape::shape_of))]
pub fn make_text(text: Text) -> Form
    ensures { shape_of result ≡ shapes.text text }
{
    Form::Text(text)
}

#[tactic(auto, unfolding(checked_tree::specs::Shape::shape_of, checked_tree::specs::Shape::shape_of_generator))]
pub fn make_generator(place: Place, slot: Slot, domain: Typed) -> Generator
    ensures { shape_of_generator result ≡ shapes.generator place slot (whole (seen domain)) }
{
    Generator {
        place,
        slot,
        domain,
    }
}

#[tactic(auto, unfolding(checked_tree::specs::Shape::shape_of, checked_tree::specs::Shape::shape_of_generator))]
pub fn make_aggregate(
    alloc: Global,
    aggregate: Aggregate,
    generators: Vec<Generator>,
    condition: Option<Typed>,
    body: Typed,
) -> Result<Form, Stop>
    ensures { Makes shape_of result (shapes.aggregate aggregate
        (rows (map shape_of_generator generators.items))
        (optional whole (option_map seen condition)) (whole (seen body))) }
{
    let (condition, body) = box_beside(alloc, condition, body)?;
    let condition = box_expression(alloc, condition)?;
    Ok(Form::Aggregate {
        aggregate,
        generators,
        condition,
        body,
    })
}
