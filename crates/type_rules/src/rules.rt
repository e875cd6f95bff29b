//! What each operation makes of its operands.
ghost use Rattle.std.specs.Prelude.{◌≡◌};
ghost use Rattle.type_rules.specs.Rules as rules;

use crate::context::Context;
use crate::kinds::{Note, cell_of, is_number, is_range, is_same, is_set, is_truth};
use checked_tree::{Cause, Kind};
use comet_syntax::tree::{Aggregate, ChainOperator, UnaryOperator};

pub fn wants_constraint(context: Context) -> bool
    ensures { result ≡ rules.wants_constraint context }
{
    matches!(context, Context::Constraint | Context::Posted)
}

pub fn is_term(context: Context) -> bool
    ensures { result ≡ rules.is_term context }
{
    !matches!(context, Context::Plain | Context::Pure)
}

pub fn is_pure(context: Context) -> bool
    ensures { result ≡ rules.is_pure context }
{
    !matches!(context, Context::Plain)
}

pub fn inner(context: Context) -> Context
    ensures { result ≡ rules.inner context }
{
    match context {
        Context::Constraint => Context::Term,
        Context::Posted => Context::Term,
        _ => context,
    }
}

pub fn inside(context: Context) -> Context
    ensures { result ≡ rules.inside context }
{
    match context {
        Context::Posted => Context::Constraint,
        _ => context,
    }
}

pub fn made_pure(context: Context) -> Context
    ensures { result ≡ rules.made_pure context }
{
    match context {
        Context::Plain => Context::Pure,
        Context::Constraint => Context::Term,
        Context::Posted => Context::Term,
        _ => context,
    }
}

pub fn plain(kind: Kind) -> Result<Note, Cause>
    ensures { result ≡ rules.plain kind }
{
    Ok(Note {
        kind,
        moving: false,
    })
}

pub fn with_moving(kind: Kind, moving: bool) -> Result<Note, Cause>
    ensures { result ≡ rules.with_moving kind moving }
{
    Ok(Note { kind, moving })
}

pub fn is_constraint(note: Note) -> bool
    ensures { result ≡ rules.is_constraint note }
{
    is_same(note.kind, Kind::Constraint) || (is_truth(note.kind) && !note.moving)
}

pub fn unary_rule(operator: UnaryOperator, context: Context, note: Note) -> Result<Note, Cause>
    ensures { result ≡ rules.unary_rule operator context note }
{
    match operator {
        UnaryOperator::Negative => {
            if is_number(note.kind) {
                with_moving(Kind::Int, note.moving)
            } else {
                Err(Cause::WrongType)
            }
        }
        UnaryOperator::Not => {
            if wants_constraint(context) {
                if is_constraint(note) {
                    Ok(note)
                } else {
                    Err(Cause::WrongType)
                }
            } else if is_truth(note.kind) {
                with_moving(Kind::Bool, note.moving)
            } else {
                Err(Cause::WrongType)
            }
        }
    }
}

pub fn is_logical(operator: ChainOperator) -> bool
    ensures { result ≡ rules.is_logical operator }
{
    matches!(operator, ChainOperator::Or | ChainOperator::And)
}

fn either_constraint(left: Note, right: Note) -> Kind
    ensures { result ≡ rules.either_constraint left right }
{
    if is_same(left.kind, Kind::Constraint) || is_same(right.kind, Kind::Constraint) {
        Kind::Constraint
    } else {
        Kind::Bool
    }
}

fn logical_rule(context: Context, left: Note, right: Note) -> Result<Note, Cause>
    ensures { result ≡ rules.logical_rule context left right }
{
    let moving = left.moving || right.moving;
    if wants_constraint(context) {
        if is_constraint(left) && is_constraint(right) {
            with_moving(either_constraint(left, right), moving)
        } else {
            Err(Cause::WrongType)
        }
    } else if is_truth(left.kind) && is_truth(right.kind) {
        with_moving(Kind::Bool, moving)
    } else {
        Err(Cause::WrongType)
    }
}

pub fn extreme_rule(left: Note, right: Note) -> Result<Note, Cause>
    ensures { result ≡ rules.extreme_rule left right }
{
    let moving = left.moving || right.moving;
    if is_number(left.kind) && is_number(right.kind) {
        with_moving(Kind::Int, moving)
    } else {
        Err(Cause::WrongType)
    }
}

pub fn chain_rule(
    operator: ChainOperator,
    context: Context,
    left: Note,
    right: Note,
) -> Result<Note, Cause>
    ensures { result ≡ rules.chain_rule operator context left right }
{
    if is_logical(operator) {
        logical_rule(context, left, right)
    } else {
        extreme_rule(left, right)
    }
}

fn compared(context: Context, moving: bool) -> Kind
    ensures { result ≡ rules.compared context moving }
{
    if moving && wants_constraint(context) {
        Kind::Constraint
    } else {
        Kind::Bool
    }
}

pub fn compare_rule(context: Context, left: Note, right: Note) -> Result<Note, Cause>
    ensures { result ≡ rules.compare_rule context left right }
{
    let moving = left.moving || right.moving;
    if is_number(left.kind) && is_number(right.kind) {
        with_moving(compared(context, moving), moving)
    } else {
        Err(Cause::WrongType)
    }
}

pub fn range_rule(low: Note, high: Note) -> Result<Note, Cause>
    ensures { result ≡ rules.range_rule low high }
{
    let moving = low.moving || high.moving;
    if !(is_number(low.kind) && is_number(high.kind)) {
        return Err(Cause::WrongType);
    }
    if moving {
        return Err(Cause::NotInTerm);
    }
    plain(Kind::Range)
}

fn gives_none(kind: Kind) -> bool
    ensures { result ≡ rules.gives_none kind }
{
    matches!(kind, Kind::Nothing | Kind::Move)
}

fn unified(one: Kind, other: Kind) -> Option<Kind>
    ensures { result ≡ rules.unified one other }
{
    if is_truth(one) && is_truth(other) {
        Some(Kind::Bool)
    } else if is_number(one) && is_number(other) {
        Some(Kind::Int)
    } else if is_set(one) && is_set(other) {
        Some(Kind::Set)
    } else if is_same(one, other) && !gives_none(one) {
        Some(one)
    } else {
        None
    }
}

fn unified_rule(moving: bool, kind: Option<Kind>) -> Result<Note, Cause>
    ensures { result ≡ rules.unified_rule moving kind }
{
    match kind {
        None => Err(Cause::WrongType),
        Some(kind) => {
            if moving {
                Err(Cause::NotInTerm)
            } else {
                plain(kind)
            }
        }
    }
}

pub fn conditional_rule(test: Note, then: Note, otherwise: Note) -> Result<Note, Cause>
    ensures { result ≡ rules.conditional_rule test then otherwise }
{
    let moving = test.moving || (then.moving || otherwise.moving);
    if is_truth(test.kind) {
        unified_rule(moving, unified(then.kind, otherwise.kind))
    } else {
        Err(Cause::WrongType)
    }
}

fn cell_rule(held: bool, moving: bool, kind: Option<Kind>) -> Result<Note, Cause>
    ensures { result ≡ rules.cell_rule held moving kind }
{
    match kind {
        None => Err(Cause::WrongType),
        Some(kind) => {
            if !moving {
                with_moving(kind, held)
            } else if is_same(kind, Kind::SetVariable) {
                Err(Cause::NotInTerm)
            } else {
                with_moving(Kind::Int, true)
            }
        }
    }
}

pub fn index_rule(array: Note, index: Note) -> Result<Note, Cause>
    ensures { result ≡ rules.index_rule array index }
{
    if is_number(index.kind) {
        cell_rule(array.moving, index.moving, cell_of(array.kind, false))
    } else {
        Err(Cause::WrongType)
    }
}

pub fn grid_rule(grid: Note, row: Note, column: Note) -> Result<Note, Cause>
    ensures { result ≡ rules.grid_rule grid row column }
{
    let moving = row.moving || column.moving;
    if is_number(row.kind) && is_number(column.kind) {
        cell_rule(grid.moving, moving, cell_of(grid.kind, true))
    } else {
        Err(Cause::WrongType)
    }
}

pub fn parentheses_rule(note: Note) -> Result<Note, Cause>
    ensures { result ≡ rules.parentheses_rule note }
{
    if is_same(note.kind, Kind::Nothing) {
        Err(Cause::WrongType)
    } else {
        Ok(note)
    }
}

pub fn list_rule(numbers: bool, moving: bool) -> Result<Note, Cause>
    ensures { result ≡ rules.list_rule numbers moving }
{
    if numbers {
        with_moving(Kind::Array, moving)
    } else {
        Err(Cause::WrongType)
    }
}

pub fn set_rule(numbers: bool, moving: bool) -> Result<Note, Cause>
    ensures { result ≡ rules.set_rule numbers moving }
{
    if !numbers {
        return Err(Cause::WrongType);
    }
    if moving {
        return Err(Cause::NotInTerm);
    }
    plain(Kind::Set)
}

pub fn generator_rule(is_new: bool, domain: Note) -> Result<Note, Cause>
    ensures { result ≡ rules.generator_rule is_new domain }
{
    if !is_new {
        return Err(Cause::DeclaredTwice);
    }
    if !(is_range(domain.kind) || is_set(domain.kind)) {
        return Err(Cause::WrongType);
    }
    if domain.moving {
        return Err(Cause::NotInTerm);
    }
    plain(Kind::Int)
}

pub fn is_joining(aggregate: Aggregate) -> bool
    ensures { result ≡ rules.is_joining aggregate }
{
    matches!(aggregate, Aggregate::And | Aggregate::Or)
}

fn is_choosing(aggregate: Aggregate) -> bool
    ensures { result ≡ rules.is_choosing aggregate }
{
    matches!(
        aggregate,
        Aggregate::SetOf | Aggregate::ArgMin | Aggregate::ArgMax
    )
}

fn aggregate_kind(aggregate: Aggregate) -> Kind
    ensures { result ≡ rules.aggregate_kind aggregate }
{
    match aggregate {
        Aggregate::Sum => Kind::Int,
        Aggregate::Min => Kind::Int,
        Aggregate::Max => Kind::Int,
        Aggregate::All => Kind::Array,
        Aggregate::And => Kind::Bool,
        Aggregate::Or => Kind::Bool,
        _ => Kind::Set,
    }
}

fn asks_truth(aggregate: Aggregate) -> bool
    ensures { result ≡ rules.asks_truth aggregate }
{
    matches!(aggregate, Aggregate::And | Aggregate::Or | Aggregate::SetOf)
}

fn body_fits(aggregate: Aggregate, context: Context, body: Note) -> bool
    ensures { result ≡ rules.body_fits aggregate context body }
{
    if is_joining(aggregate) && wants_constraint(context) {
        is_constraint(body)
    } else if asks_truth(aggregate) {
        is_truth(body.kind)
    } else {
        is_number(body.kind)
    }
}

fn aggregate_note(aggregate: Aggregate, context: Context, body: Note) -> Note
    ensures { result ≡ rules.aggregate_note aggregate context body }
{
    if is_joining(aggregate) && wants_constraint(context) {
        body
    } else {
        Note {
            kind: aggregate_kind(aggregate),
            moving: body.moving,
        }
    }
}

pub fn aggregate_rule(
    aggregate: Aggregate,
    context: Context,
    single: bool,
    condition: Note,
    body: Note,
) -> Result<Note, Cause>
    ensures { result ≡ rules.aggregate_rule aggregate context single condition body }
{
    if !(is_truth(condition.kind)
        && (!is_choosing(aggregate) || single)
        && body_fits(aggregate, context, body))
    {
        return Err(Cause::WrongType);
    }
    if condition.moving {
        return Err(Cause::NotInTerm);
    }
    Ok(aggregate_note(aggregate, context, body))
}
