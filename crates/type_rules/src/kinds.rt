//! What stands where what is asked.
ghost use Rattle.std.specs.Prelude.{◌≡◌};
ghost use Rattle.type_rules.specs.Kinds as kinds;

use checked_tree::Kind;

/// What an expression is, and whether it holds incremental variables in a term.
#[derive(Clone, Copy)]
pub struct Note {
    pub kind: Kind,
    pub moving: bool,
}

/// What a part asks of an operand or an argument.
#[derive(Clone, Copy)]
pub enum Asked {
    /// a number, a truth value, or a variable that is read
    Number,
    Truth,
    Range,
    /// a set, or a set variable that is read
    Set,
    /// one dimension of numbers or variables
    Numbers,
    /// a range or a set
    Domain,
    /// a constraint, or a truth value that holds no incremental variable
    Constraint,
    /// exactly this
    Exactly(Kind),
}

/// What is asked of an argument. One that is kept as a field of a constraint holds no incremental variable.
#[derive(Clone, Copy)]
pub struct Want {
    pub asked: Asked,
    pub fixed: bool,
}

pub fn is_number(kind: Kind) -> bool
    ensures { result ≡ kinds.is_number kind }
{
    matches!(kind, Kind::Int | Kind::Bool | Kind::Variable)
}

pub fn is_truth(kind: Kind) -> bool
    ensures { result ≡ kinds.is_truth kind }
{
    matches!(kind, Kind::Bool)
}

pub fn is_set(kind: Kind) -> bool
    ensures { result ≡ kinds.is_set kind }
{
    matches!(kind, Kind::Set | Kind::SetVariable)
}

pub fn is_range(kind: Kind) -> bool
    ensures { result ≡ kinds.is_range kind }
{
    matches!(kind, Kind::Range)
}

pub fn is_numbers(kind: Kind) -> bool
    ensures { result ≡ kinds.is_numbers kind }
{
    matches!(kind, Kind::Array | Kind::VariableArray)
}

pub fn is_incremental(kind: Kind) -> bool
    ensures { result ≡ kinds.is_incremental kind }
{
    matches!(
        kind,
        Kind::Variable
            | Kind::VariableArray
            | Kind::VariableGrid
            | Kind::SetVariable
            | Kind::SetVariableArray
            | Kind::SetVariableGrid
    )
}

pub fn is_printed(kind: Kind) -> bool
    ensures { result ≡ kinds.is_printed kind }
{
    matches!(
        kind,
        Kind::Int
            | Kind::Bool
            | Kind::Range
            | Kind::Set
            | Kind::Array
            | Kind::Grid
            | Kind::Variable
            | Kind::VariableArray
            | Kind::VariableGrid
            | Kind::SetVariable
            | Kind::SetVariableArray
            | Kind::SetVariableGrid
    )
}

/// Whether two kinds are one.
pub fn is_same(one: Kind, other: Kind) -> bool
    ensures { result ≡ kinds.is_same one other }
{
    one as u8 == other as u8
}

/// Whether a kind stands where this is asked.
pub fn fits(asked: Asked, kind: Kind) -> bool
    ensures { result ≡ kinds.fits asked kind }
{
    match asked {
        Asked::Number => is_number(kind),
        Asked::Truth => is_truth(kind),
        Asked::Range => is_range(kind),
        Asked::Set => is_set(kind),
        Asked::Numbers => is_numbers(kind),
        Asked::Domain => is_range(kind) || is_set(kind),
        Asked::Constraint => is_same(kind, Kind::Constraint),
        Asked::Exactly(exact) => is_same(exact, kind),
    }
}

/// What is asked of a start value or an argument of this kind.
pub fn asked_of(kind: Kind) -> Asked
    ensures { result ≡ kinds.asked_of kind }
{
    match kind {
        Kind::Int => Asked::Number,
        Kind::Bool => Asked::Truth,
        Kind::Range => Asked::Range,
        Kind::Set => Asked::Set,
        _ => Asked::Exactly(kind),
    }
}

/// The kind of a cell of an array with one dimension, or with two.
pub fn cell_of(kind: Kind, two: bool) -> Option<Kind>
    ensures { result ≡ kinds.cell_of kind two }
{
    if two {
        match kind {
            Kind::Grid => Some(Kind::Int),
            Kind::VariableGrid => Some(Kind::Variable),
            Kind::SetVariableGrid => Some(Kind::SetVariable),
            _ => None,
        }
    } else {
        match kind {
            Kind::Array => Some(Kind::Int),
            Kind::VariableArray => Some(Kind::Variable),
            Kind::SetVariableArray => Some(Kind::SetVariable),
            _ => None,
        }
    }
}
