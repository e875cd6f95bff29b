//! What declarations are.
ghost use Rattle.std.specs.Prelude.{◌≡◌, Option, Some, None, option_map};
ghost use Rattle.tree_makers.specs.Makes.{Makes};
ghost use Rattle.checked_tree.specs.Shape.{seen};
ghost use Rattle.checked_tree.specs.Actions.{deed_of, variable_of};
ghost use Rattle.type_scopes.specs.Did.{Did};
ghost use Rattle.type_scopes.specs.Names as names;
ghost use Rattle.type_expressions.specs.Expressions.{judge};
ghost use Rattle.type_declarations.specs.Parts as parts;
ghost use Rattle.type_declarations.specs.Declarations as declarations;
ghost use Rattle.type_declarations.specs.View.{source_of, cells_of};

use crate::objects::check_object;
use crate::parts::{
    Cells, Source, check_cells, check_ranges, check_source, check_start, rule, sized_kind,
    start_fits,
};
use cbl_base::{Place, Text};
use checked_tree::{Action, Cause, Kind, Slot, Stop, Typed, Variable};
use comet_syntax::tree::{Declaration, Dimensions, Expression, Name, VariableStart};
use std::alloc::Global;
use tree_makers::kept::{behind, beside};
use tree_makers::make_actions::{make_array, make_declared, make_variable};
use type_calls::act_on;
use type_rules::Asked;
use type_rules::kinds::{asked_of, fits, is_range, is_same};
use type_scopes::{Checker, Doing, Found, Scope};

fn declaring_fault(is_new: bool, fit: bool) -> Option<Cause>
    ensures { result ≡ declarations.declaring_fault is_new fit }
{
    if !is_new {
        Some(Cause::DeclaredTwice)
    } else if fit {
        None
    } else {
        Some(Cause::WrongType)
    }
}

fn is_new(checker: &Checker, name: &Name, scope: Scope) -> bool
    ensures { result ≡ names.is_new name.now.text scope.block checker.now.names }
{
    checker.is_new(name.text.as_slice(), scope.block)
}

fn scalar_asked(kind: Kind) -> Asked
    ensures { result ≡ declarations.scalar_asked kind }
{
    match kind {
        Kind::Array => Asked::Numbers,
        _ => asked_of(kind),
    }
}

fn scalar_fits(kind: Kind, start: &Option<Typed>) -> bool
    ensures { result ≡ declarations.scalar_fits kind (option_map seen start.now) }
{
    match start {
        None => true,
        Some(start) => fits(scalar_asked(kind), start.kind),
    }
}

fn declare_scalar(
    checker: &mut Checker,
    name: &Name,
    kind: Kind,
    start: Option<Typed>,
    scope: Scope,
) -> Result<Action, Stop>
    ensures { Did deed_of result checker.new
        (declarations.scalar_declared name.now kind (option_map seen start) scope checker.old) }
{
    let slot = scope.slot_of(checker.count());
    let start = behind(checker.declare(name.text.as_slice(), kind), start)?;
    make_declared(checker.alloc(), slot, kind, start)
}

/// A name of one value.
#[tactic(auto, unfolding(crate::specs::Declarations::scalar_form))]
fn check_scalar(
    checker: &mut Checker,
    scope: Scope,
    place: Place,
    name: &Name,
    kind: Kind,
    start: Option<&Expression>,
) -> Result<Action, Stop>
    ensures { Did deed_of result checker.new
        (declarations.scalar_form place name.now kind
        (option_map (λ e. judge e.now) start.entry) scope checker.old) }
{
    let start = check_start(checker, scope, start)?;
    let is_new = is_new(checker, name, scope);
    let ruled = rule(place, declaring_fault(is_new, scalar_fits(kind, &start)));
    let start = behind(ruled, start)?;
    declare_scalar(checker, name, kind, start, scope)
}

fn declare_array(
    checker: &mut Checker,
    name: &Name,
    kind: Kind,
    cells: Cells,
    scope: Scope,
) -> Result<Action, Stop>
    ensures { Did deed_of result checker.new
        (declarations.array_declared name.now kind (cells_of cells) scope checker.old) }
{
    let slot = scope.slot_of(checker.count());
    let cells = behind(checker.declare(name.text.as_slice(), kind), cells)?;
    make_array(checker.alloc(), slot, kind, cells.sizes, cells.start)
}

/// An array of numbers.
#[tactic(auto, unfolding(crate::specs::Declarations::array_form))]
fn check_array(
    checker: &mut Checker,
    scope: Scope,
    place: Place,
    name: &Name,
    dimensions: &Dimensions,
    source: Source<'_>,
) -> Result<Action, Stop>
    ensures { Did deed_of result checker.new
        (declarations.array_form place name.now dimensions.now
        (source_of source.entry) scope checker.old) }
{
    let ranges = check_ranges(checker, scope, dimensions)?;
    let cells = check_cells(checker, scope, dimensions, ranges, source)?;
    let is_new = is_new(checker, name, scope);
    let fault = declaring_fault(is_new, start_fits(Kind::Int, &cells.start));
    let cells = behind(rule(place, fault), cells)?;
    declare_array(
        checker,
        name,
        sized_kind(Kind::Int, dimensions),
        cells,
        scope,
    )
}

fn making_doing() -> Doing
    ensures { result ≡ declarations.making_doing }
{
    Doing {
        impure: true,
        not_in_term: false,
        global: false,
        through: true,
        forbidden: false,
    }
}

fn domain_fits(domain: &Option<Typed>) -> bool
    ensures { result ≡ declarations.domain_fits (option_map seen domain.now) }
{
    match domain {
        None => true,
        Some(domain) => is_range(domain.kind),
    }
}

/// A variable that is declared, or an array of them.
#[derive(Drop)]
struct Declared {
    kind: Kind,
    domain: Option<Typed>,
    cells: Cells,
}

fn make_declared_variable(
    alloc: Global,
    name: &Name,
    slot: Slot,
    solver: Slot,
    kind: Kind,
    domain: Option<Typed>,
    cells: Cells,
) -> Result<Action, Stop>
    ensures { Makes deed_of result (declarations.variable_deed name.now slot solver kind
        (option_map seen domain) (cells_of cells)) }
{
    let text = Text::from_slice(alloc, name.text.as_slice());
    let (kept, text) = beside((domain, cells), text)?;
    let (domain, cells) = kept;
    let variable = Variable {
        slot,
        name: text,
        kind,
        dimensions: cells.sizes,
        solver,
        domain,
        start: cells.start,
    };
    make_variable(alloc, variable)
}

fn declare_variable(
    checker: &mut Checker,
    place: Place,
    name: &Name,
    declared: Declared,
    scope: Scope,
    found: Found,
) -> Result<Action, Stop>
    ensures { Did deed_of result checker.new
        (declarations.variable_declared place name.now declared.kind
        (option_map seen declared.domain) (cells_of declared.cells) scope found checker.old) }
{
    let solver = scope.slot_of(found.index);
    let done = act_on(checker, place, scope, making_doing(), &[solver]);
    let declared = behind(done, declared)?;
    let slot = scope.slot_of(checker.count());
    let done = checker.declare(name.text.as_slice(), declared.kind);
    let declared = behind(done, declared)?;
    let alloc = checker.alloc();
    make_declared_variable(
        alloc,
        name,
        slot,
        solver,
        declared.kind,
        declared.domain,
        declared.cells,
    )
}

fn declare_with(
    checker: &mut Checker,
    place: Place,
    name: &Name,
    fit: bool,
    declared: Declared,
    scope: Scope,
    solver: Option<Found>,
) -> Result<Action, Stop>
    ensures { Did deed_of result checker.new
        (declarations.variable_with place name.now declared.kind fit
        (option_map seen declared.domain) (cells_of declared.cells) scope solver checker.old) }
{
    match solver {
        None => {
            drop(declared);
            Err(Stop::Fault(place, Cause::UnknownName))
        }
        Some(found) => {
            let is_new = is_new(checker, name, scope);
            let fit = is_same(found.kind, Kind::Solver) && (domain_fits(&declared.domain) && fit);
            let declared = behind(rule(place, declaring_fault(is_new, fit)), declared)?;
            declare_variable(checker, place, name, declared, scope, found)
        }
    }
}

/// An array of variables: its ranges, its domain, its first values.
#[tactic(auto, unfolding(crate::specs::Declarations::variables_form))]
fn check_variables(
    checker: &mut Checker,
    scope: Scope,
    place: Place,
    name: &Name,
    kind: Kind,
    dimensions: &Dimensions,
    solver: &Name,
    domain: Option<&Expression>,
    source: Source<'_>,
) -> Result<Action, Stop>
    ensures { Did deed_of result checker.new
        (declarations.variables_form place name.now kind dimensions.now solver.now
        (option_map (λ e. judge e.now) domain.entry) (source_of source.entry) scope checker.old) }
{
    let ranges = check_ranges(checker, scope, dimensions)?;
    let (ranges, domain) = beside(ranges, check_start(checker, scope, domain))?;
    let cells = check_cells(checker, scope, dimensions, ranges, source);
    let (domain, cells) = beside(domain, cells)?;
    let fit = start_fits(kind, &cells.start);
    let found = checker.look(solver.text.as_slice());
    let declared = Declared {
        kind: sized_kind(kind, dimensions),
        domain,
        cells,
    };
    declare_with(checker, place, name, fit, declared, scope, found)
}

/// A variable: its domain, its first value.
#[tactic(auto, unfolding(crate::specs::Declarations::variable_form))]
fn check_variable(
    checker: &mut Checker,
    scope: Scope,
    place: Place,
    name: &Name,
    kind: Kind,
    solver: &Name,
    domain: Option<&Expression>,
    source: Source<'_>,
) -> Result<Action, Stop>
    ensures { Did deed_of result checker.new
        (declarations.variable_form place name.now kind solver.now
        (option_map (λ e. judge e.now) domain.entry) (source_of source.entry) scope checker.old) }
{
    let domain = check_start(checker, scope, domain)?;
    let (domain, start) = beside(domain, check_source(checker, scope, source))?;
    let fit = start_fits(kind, &start);
    let found = checker.look(solver.text.as_slice());
    let sizes = Vec::new(checker.alloc());
    let declared = Declared {
        kind,
        domain,
        cells: Cells { sizes, start },
    };
    declare_with(checker, place, name, fit, declared, scope, found)
}

fn source_with(start: &Option<Expression>) -> Source<'_>
    ensures { source_of result ≡ declarations.starting_with (option_map judge start.now) }
{
    match start {
        None => Source::Nothing,
        Some(start) => Source::Each(start),
    }
}

fn variable_source(start: &Option<VariableStart>) -> Source<'_>
    ensures { source_of result ≡ declarations.variable_start start.now }
{
    match start {
        None => Source::Nothing,
        Some(VariableStart::Assign(value)) => Source::Each(value),
        Some(VariableStart::Define(value)) => Source::Define(value),
    }
}

/// Judges a declaration, and declares its name. Refused at the first part in it that is, and else at the
/// declaration; `NoMemory` where memory runs out.
#[tactic(auto, unfolding(crate::specs::Declarations::declaration_form))]
pub fn check_declaration(
    checker: &mut Checker,
    scope: Scope,
    declaration: &Declaration,
) -> Result<Action, Stop>
    ensures { Did deed_of result checker.new
        (declarations.declaration_form declaration.now scope checker.old) }
{
    match declaration {
        Declaration::Int {
            place,
            name,
            dimensions: None,
            start,
        } => check_scalar(checker, scope, *place, name, Kind::Int, start.as_ref()),
        Declaration::Int {
            place,
            name,
            dimensions: Some(dimensions),
            start,
        } => check_array(checker, scope, *place, name, dimensions, source_with(start)),
        Declaration::IntArray { place, name, value } => {
            check_scalar(checker, scope, *place, name, Kind::Array, Some(value))
        }
        Declaration::Bool { place, name, start } => {
            check_scalar(checker, scope, *place, name, Kind::Bool, start.as_ref())
        }
        Declaration::Range { place, name, value } => {
            check_scalar(checker, scope, *place, name, Kind::Range, Some(value))
        }
        Declaration::Set { place, name, start } => {
            check_scalar(checker, scope, *place, name, Kind::Set, start.as_ref())
        }
        Declaration::Variable {
            place,
            name,
            dimensions: None,
            solver,
            domain,
            start,
            ..
        } => check_variable(
            checker,
            scope,
            *place,
            name,
            Kind::Variable,
            solver,
            domain.as_ref(),
            variable_source(start),
        ),
        Declaration::Variable {
            place,
            name,
            dimensions: Some(dimensions),
            solver,
            domain,
            start,
            ..
        } => check_variables(
            checker,
            scope,
            *place,
            name,
            Kind::Variable,
            dimensions,
            solver,
            domain.as_ref(),
            variable_source(start),
        ),
        Declaration::SetVariable {
            place,
            name,
            dimensions: None,
            solver,
            definition,
            ..
        } => check_variable(
            checker,
            scope,
            *place,
            name,
            Kind::SetVariable,
            solver,
            None,
            Source::Define(definition),
        ),
        Declaration::SetVariable {
            place,
            name,
            dimensions: Some(dimensions),
            solver,
            definition,
            ..
        } => check_variables(
            checker,
            scope,
            *place,
            name,
            Kind::SetVariable,
            dimensions,
            solver,
            None,
            Source::Define(definition),
        ),
        Declaration::Object { class, name, maker } => {
            check_object(checker, scope, class, name, maker)
        }
    }
}

/// The place of a declaration: its first token.
pub fn declaration_place(declaration: &Declaration) -> Place
    ensures { result ≡ declarations.declaration_place declaration.now }
{
    match declaration {
        Declaration::Int { place, .. } => *place,
        Declaration::IntArray { place, .. } => *place,
        Declaration::Bool { place, .. } => *place,
        Declaration::Range { place, .. } => *place,
        Declaration::Set { place, .. } => *place,
        Declaration::Variable { place, .. } => *place,
        Declaration::SetVariable { place, .. } => *place,
        Declaration::Object { class, .. } => class.place,
    }
}
