//! What declarations and simple statements are made of.
ghost use Rattle.std.specs.Prelude.{◌≡◌, option_map, map};
ghost use Rattle.checked_tree.specs.Shape.{seen};
ghost use Rattle.checked_tree.specs.Actions.{start_of, dimension_of};
ghost use Rattle.type_scopes.specs.Did.{Did};
ghost use Rattle.type_scopes.specs.State as acts;
ghost use Rattle.type_expressions.specs.Expressions as expressions;
ghost use Rattle.type_expressions.specs.Expressions.{judge};
ghost use Rattle.type_declarations.specs.Parts as parts;
ghost use Rattle.type_declarations.specs.View.{source_of, ranges_of, sizes_of, cells_of};

use cbl_base::Place;
use checked_tree::{Cause, Dimension as Sized, Kind, Start, Stop, Typed, Way};
use comet_syntax::tree::{Dimension, Dimensions, Expression, Name};
use tree_makers::kept::{behind, beside, pushed};
use type_expressions::check_expression;
use type_rules::kinds::{fits, is_numbers, is_range};
use type_rules::{Asked, Context};
use type_scopes::{Checker, Scope};

/// A part's own rule: refused at this place for the fault, if there is one.
pub fn rule(place: Place, fault: Option<Cause>) -> Result<(), Stop>
    ensures { (s : acts.State) → Did (λ _. tt) result s (parts.ruled place fault s) }
{
    match fault {
        None => Ok(()),
        Some(cause) => Err(Stop::Fault(place, cause)),
    }
}

/// The fault of what has the wrong type, unless it fits.
pub fn wrong_unless(fit: bool) -> Option<Cause>
    ensures { result ≡ parts.wrong_unless fit }
{
    if fit { None } else { Some(Cause::WrongType) }
}

#[tactic(auto, unfolding(type_expressions::specs::Expressions::some_form))]
fn check_some(
    checker: &mut Checker,
    scope: Scope,
    start: &Expression,
) -> Result<Option<Typed>, Stop>
    ensures { Did (option_map seen) result checker.new
        (expressions.some_form (judge start.now) scope checker.old) }
{
    let start = check_expression(checker, scope, start)?;
    Ok(Some(start))
}

/// Judges an expression that may be left out. Refused exactly as the expression is; `NoMemory` where memory runs out.
#[tactic(auto, unfolding(crate::specs::Parts::start_form))]
pub fn check_start(
    checker: &mut Checker,
    scope: Scope,
    start: Option<&Expression>,
) -> Result<Option<Typed>, Stop>
    ensures { Did (option_map seen) result checker.new
        (parts.start_form (option_map (λ e. judge e.now) start.entry) scope checker.old) }
{
    match start {
        None => Ok(None),
        Some(start) => check_some(checker, scope, start),
    }
}

fn dimension_place(name: &Option<Name>, range: &Typed) -> Place
    ensures { result ≡ parts.dimension_place name.now (seen range.now) }
{
    match name {
        None => range.start,
        Some(name) => name.place,
    }
}

fn dimension_fault(clash: bool, kind: Kind) -> Option<Cause>
    ensures { result ≡ parts.dimension_fault clash kind }
{
    if clash {
        Some(Cause::DeclaredTwice)
    } else {
        wrong_unless(is_range(kind))
    }
}

#[tactic(auto, unfolding(crate::specs::Parts::dimension_form))]
fn check_dimension(
    checker: &mut Checker,
    scope: Scope,
    clash: bool,
    dimension: &Dimension,
) -> Result<Typed, Stop>
    ensures { Did seen result checker.new
        (parts.dimension_form clash dimension.now scope checker.old) }
{
    let range = check_expression(checker, scope, &dimension.range)?;
    let ruled = rule(
        dimension_place(&dimension.name, &range),
        dimension_fault(clash, range.kind),
    );
    let range = behind(ruled, range)?;
    Ok(range)
}

fn clashes(one: &Option<Name>, other: &Option<Name>) -> bool
    ensures { result ≡ parts.clashes one.now other.now }
{
    match (one, other) {
        (Some(one), Some(other)) => one.text.as_slice() == other.text.as_slice(),
        _ => false,
    }
}

/// The ranges of one dimension or two, judged.
#[derive(Drop)]
pub struct Ranges {
    first: Typed,
    second: Option<Typed>,
}

#[tactic(auto, unfolding(crate::specs::Parts::second_form))]
fn check_second(
    checker: &mut Checker,
    scope: Scope,
    first: &Option<Name>,
    second: &Option<Dimension>,
) -> Result<Option<Typed>, Stop>
    ensures { Did (option_map seen) result checker.new
        (parts.second_form first.now second.now scope checker.old) }
{
    match second {
        None => Ok(None),
        Some(second) => {
            let clash = clashes(first, &second.name);
            let range = check_dimension(checker, scope, clash, second)?;
            Ok(Some(range))
        }
    }
}

/// Judges the ranges of dimensions. A name that stands twice, or what is no range, is refused at its dimension;
/// `NoMemory` where memory runs out.
#[tactic(auto, unfolding(crate::specs::Parts::ranges_form))]
pub fn check_ranges(
    checker: &mut Checker,
    scope: Scope,
    dimensions: &Dimensions,
) -> Result<Ranges, Stop>
    ensures { Did ranges_of result checker.new
        (parts.ranges_form dimensions.now scope checker.old) }
{
    let first = check_dimension(checker, scope, false, &dimensions.first)?;
    let second = check_second(checker, scope, &dimensions.first.name, &dimensions.second);
    let (first, second) = beside(first, second)?;
    Ok(Ranges { first, second })
}

/// A dimension whose name is declared.
#[tactic(auto, unfolding(crate::specs::Parts::sized_form))]
fn size(
    checker: &mut Checker,
    scope: Scope,
    name: &Option<Name>,
    range: Typed,
) -> Result<Sized, Stop>
    ensures { Did dimension_of result checker.new
        (parts.sized_form name.now (seen range) scope checker.old) }
{
    match name {
        None => Ok(Sized { slot: None, range }),
        Some(name) => {
            let slot = scope.slot_of(checker.count());
            let declared = checker.declare(name.text.as_slice(), Kind::Int);
            let range = behind(declared, range)?;
            Ok(Sized {
                slot: Some(slot),
                range,
            })
        }
    }
}

fn size_second(
    checker: &mut Checker,
    scope: Scope,
    second: &Option<Dimension>,
    range: Typed,
) -> Result<Sized, Stop>
    ensures { Did dimension_of result checker.new
        (parts.sized_form (parts.second_name second.now) (seen range) scope checker.old) }
{
    match second {
        None => size(checker, scope, &None, range),
        Some(second) => size(checker, scope, &second.name, range),
    }
}

#[tactic(auto, unfolding(crate::specs::Parts::sizes_form, crate::specs::Parts::sized_second))]
fn sizes(
    checker: &mut Checker,
    scope: Scope,
    dimensions: &Dimensions,
    ranges: Ranges,
) -> Result<Vec<Sized>, Stop>
    ensures { Did sizes_of result checker.new
        (parts.sizes_form dimensions.now (ranges_of ranges) scope checker.old) }
{
    let sizes = Vec::new(checker.alloc());
    let first = size(checker, scope, &dimensions.first.name, ranges.first);
    let (second, first) = beside(ranges.second, first)?;
    let (second, sizes) = beside(second, pushed(sizes, first))?;
    match second {
        None => Ok(sizes),
        Some(range) => {
            let second = size_second(checker, scope, &dimensions.second, range);
            let (sizes, second) = beside(sizes, second)?;
            let sizes = pushed(sizes, second)?;
            Ok(sizes)
        }
    }
}

/// What is written of first values: nothing, a value for each cell, or a definition, which is a term.
#[derive(Clone, Copy)]
pub enum Source<'a> {
    Nothing,
    Each(&'a Expression),
    Define(&'a Expression),
}

/// Judges first values. Refused exactly as their expression is; `NoMemory` where memory runs out.
#[tactic(auto, unfolding(crate::specs::Parts::starting_form))]
pub fn check_source(
    checker: &mut Checker,
    scope: Scope,
    source: Source<'_>,
) -> Result<Option<Start>, Stop>
    ensures { Did (option_map start_of) result checker.new
        (parts.starting_form (source_of source.entry) scope checker.old) }
{
    match source {
        Source::Nothing => Ok(None),
        Source::Each(value) => {
            let value = check_expression(checker, scope, value)?;
            Ok(Some(Start {
                way: Way::Each,
                value,
            }))
        }
        Source::Define(value) => {
            let value = check_expression(checker, scope.within(Context::Term), value)?;
            Ok(Some(Start {
                way: Way::Define,
                value,
            }))
        }
    }
}

fn is_list(start: &Option<Start>) -> bool
    ensures { result ≡ parts.is_list (option_map start_of start.now) }
{
    match start {
        None => false,
        Some(start) => is_numbers(start.value.kind),
    }
}

/// A list of the cells' values is judged again.
fn list_source(
    checker: &mut Checker,
    scope: Scope,
    source: Source<'_>,
    start: Option<Start>,
) -> Result<Option<Start>, Stop>
    ensures { Did (option_map start_of) result checker.new
        (parts.listed (source_of source.entry) scope (option_map start_of start) checker.old) }
{
    match source {
        Source::Nothing => Ok(start),
        Source::Each(value) => {
            if is_list(&start) {
                drop(start);
                let value = check_expression(checker, scope, value)?;
                Ok(Some(Start {
                    way: Way::List,
                    value,
                }))
            } else {
                Ok(start)
            }
        }
        Source::Define(_) => Ok(start),
    }
}

/// The cells of an array: its dimensions, with the cells of their names, and its first values.
#[derive(Drop)]
pub struct Cells {
    pub sizes: Vec<Sized>,
    pub start: Option<Start>,
}

#[tactic(auto, unfolding(crate::specs::Parts::cells_within))]
fn cells_within(
    checker: &mut Checker,
    scope: Scope,
    dimensions: &Dimensions,
    ranges: Ranges,
    source: Source<'_>,
) -> Result<Cells, Stop>
    ensures { Did cells_of result checker.new
        (parts.cells_within dimensions.now (ranges_of ranges)
        (source_of source.entry) scope checker.old) }
{
    let sizes = sizes(checker, scope, dimensions, ranges)?;
    let (sizes, start) = beside(sizes, check_source(checker, scope, source))?;
    Ok(Cells { sizes, start })
}

/// Judges the first values of an array, which see the names of its dimensions; a list of all cells' values doesn't.
/// Refused exactly as their expression is; `NoMemory` where memory runs out.
#[tactic(auto, unfolding(crate::specs::Parts::cells_form))]
pub fn check_cells(
    checker: &mut Checker,
    scope: Scope,
    dimensions: &Dimensions,
    ranges: Ranges,
    source: Source<'_>,
) -> Result<Cells, Stop>
    ensures { Did cells_of result checker.new
        (parts.cells_form dimensions.now (ranges_of ranges)
        (source_of source.entry) scope checker.old) }
{
    let count = checker.count();
    let cells = cells_within(checker, scope.opened(count), dimensions, ranges, source)?;
    checker.close(count);
    let start = list_source(checker, scope, source, cells.start);
    let (sizes, start) = beside(cells.sizes, start)?;
    Ok(Cells { sizes, start })
}

fn start_asked(kind: Kind, way: Way) -> Asked
    ensures { result ≡ parts.start_asked kind way }
{
    match way {
        Way::List => Asked::Numbers,
        _ => match kind {
            Kind::SetVariable => Asked::Set,
            _ => Asked::Number,
        },
    }
}

/// Whether first values, if there are any, are what cells of this kind are asked to be.
pub fn start_fits(kind: Kind, start: &Option<Start>) -> bool
    ensures { result ≡ parts.start_fits kind (option_map start_of start.now) }
{
    match start {
        None => true,
        Some(start) => fits(start_asked(kind, start.way), start.value.kind),
    }
}

fn array_of(kind: Kind) -> Kind
    ensures { result ≡ parts.array_of kind }
{
    match kind {
        Kind::Int => Kind::Array,
        Kind::Variable => Kind::VariableArray,
        Kind::SetVariable => Kind::SetVariableArray,
        _ => kind,
    }
}

fn grid_of(kind: Kind) -> Kind
    ensures { result ≡ parts.grid_of kind }
{
    match kind {
        Kind::Int => Kind::Grid,
        Kind::Variable => Kind::VariableGrid,
        Kind::SetVariable => Kind::SetVariableGrid,
        _ => kind,
    }
}

/// The kind of an array of one dimension or two.
pub fn sized_kind(kind: Kind, dimensions: &Dimensions) -> Kind
    ensures { result ≡ parts.sized_kind kind dimensions.now }
{
    match &dimensions.second {
        None => array_of(kind),
        Some(_) => grid_of(kind),
    }
}
