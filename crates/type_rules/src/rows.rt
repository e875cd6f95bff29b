//! The rows of the tables of methods and functions.
ghost use Rattle.std.specs.Prelude.{◌≡◌, position};
ghost use Rattle.type_rules.specs.Rows as rows;

use crate::kinds::{Asked, Want, is_same, is_set};
use checked_tree::{Builtin, Kind, Method};

const NUMBER: Want = Want {
    asked: Asked::Number,
    fixed: false,
};

const CONSTRAINT: Want = Want {
    asked: Asked::Constraint,
    fixed: false,
};

const VARIABLE: Want = Want {
    asked: Asked::Exactly(Kind::Variable),
    fixed: false,
};

const NUMBERS: Want = Want {
    asked: Asked::Numbers,
    fixed: false,
};

const SET: Want = Want {
    asked: Asked::Set,
    fixed: false,
};

const TEXT: Want = Want {
    asked: Asked::Exactly(Kind::Text),
    fixed: false,
};

const FIXED_NUMBERS: Want = Want {
    asked: Asked::Numbers,
    fixed: true,
};

const FIXED_SET: Want = Want {
    asked: Asked::Set,
    fixed: true,
};

const FIXED_NUMBER: Want = Want {
    asked: Asked::Number,
    fixed: true,
};

/// What a call writes.
#[derive(Clone, Copy)]
pub enum Writes {
    Nothing,
    /// The object that it is called on.
    Object,
    /// The object that it is called on, and the solver that the object belongs to.
    Solver,
    /// The name that it is called on.
    Name,
}

/// A function or method: how many arguments it has at least, what it gives, and what it does.
#[derive(Clone, Copy)]
pub struct Row {
    pub least: usize,
    pub result: Kind,
    pub impure: bool,
    pub writes: Writes,
    /// It gives what no term holds.
    pub left_out: bool,
    /// No `parall` may do it.
    pub forbidden: bool,
}

fn giving(kind: Kind, least: usize) -> Row
    ensures { result ≡ rows.giving kind least }
{
    Row {
        least,
        result: kind,
        impure: false,
        writes: Writes::Nothing,
        left_out: false,
        forbidden: false,
    }
}

fn held_out(kind: Kind, least: usize) -> Row
    ensures { result ≡ rows.held_out kind least }
{
    Row {
        least,
        result: kind,
        impure: false,
        writes: Writes::Nothing,
        left_out: true,
        forbidden: false,
    }
}

fn acting(kind: Kind, least: usize) -> Row
    ensures { result ≡ rows.acting kind least }
{
    Row {
        least,
        result: kind,
        impure: true,
        writes: Writes::Object,
        left_out: false,
        forbidden: false,
    }
}

fn restoring(kind: Kind, least: usize) -> Row
    ensures { result ≡ rows.restoring kind least }
{
    Row {
        least,
        result: kind,
        impure: true,
        writes: Writes::Solver,
        left_out: false,
        forbidden: false,
    }
}

fn asking(kind: Kind, least: usize) -> Row
    ensures { result ≡ rows.asking kind least }
{
    Row {
        least,
        result: kind,
        impure: true,
        writes: Writes::Nothing,
        left_out: false,
        forbidden: false,
    }
}

fn reading(kind: Kind, least: usize) -> Row
    ensures { result ≡ rows.reading kind least }
{
    Row {
        least,
        result: kind,
        impure: true,
        writes: Writes::Nothing,
        left_out: false,
        forbidden: true,
    }
}

fn changing(kind: Kind, least: usize) -> Row
    ensures { result ≡ rows.changing kind least }
{
    Row {
        least,
        result: kind,
        impure: true,
        writes: Writes::Name,
        left_out: false,
        forbidden: false,
    }
}

pub fn method_row(method: Method) -> Row
    ensures { result ≡ rows.method_row method }
{
    match method {
        Method::Close => acting(Kind::Nothing, 0),
        Method::Post => acting(Kind::Nothing, 1),
        Method::Violations => held_out(Kind::Int, 0),
        Method::SystemAssignDelta => held_out(Kind::Int, 2),
        Method::SystemSwapDelta => held_out(Kind::Int, 2),
        Method::ObjectiveAssignDelta => held_out(Kind::Int, 2),
        Method::ObjectiveSwapDelta => held_out(Kind::Int, 2),
        Method::ObjectiveValue => held_out(Kind::Int, 0),
        Method::ObjectiveEvaluation => held_out(Kind::Int, 0),
        Method::PostPart => acting(Kind::Nothing, 1),
        Method::Draw => asking(Kind::Int, 0),
        Method::ReadInt => reading(Kind::Int, 0),
        Method::HasMove => giving(Kind::Bool, 0),
        Method::GetMove => giving(Kind::Move, 0),
        Method::Report => asking(Kind::Bool, 2),
        Method::BestValue => asking(Kind::Int, 0),
        Method::HasBest => asking(Kind::Bool, 0),
        Method::CopyBest => asking(Kind::Array, 0),
        Method::Stop => asking(Kind::Nothing, 0),
        Method::IsStopped => asking(Kind::Bool, 0),
        Method::Restore => restoring(Kind::Nothing, 0),
        Method::Low => giving(Kind::Int, 0),
        Method::Up => giving(Kind::Int, 0),
        Method::RangeSize => giving(Kind::Int, 0),
        Method::Insert => changing(Kind::Nothing, 1),
        Method::Delete => changing(Kind::Nothing, 1),
        Method::Contains => giving(Kind::Bool, 1),
        Method::SetSize => giving(Kind::Int, 0),
        Method::ArraySize => giving(Kind::Int, 0),
        Method::Domain => giving(Kind::Range, 0),
    }
}

pub fn method_wants(method: Method) -> &'static [Want]
    ensures { result.now ≡ rows.method_wants method }
{
    match method {
        Method::Close => &[],
        Method::Post => &[CONSTRAINT, NUMBER],
        Method::Violations => &[VARIABLE],
        Method::SystemAssignDelta => &[VARIABLE, NUMBER],
        Method::SystemSwapDelta => &[VARIABLE, VARIABLE],
        Method::ObjectiveAssignDelta => &[VARIABLE, NUMBER],
        Method::ObjectiveSwapDelta => &[VARIABLE, VARIABLE],
        Method::ObjectiveValue => &[],
        Method::ObjectiveEvaluation => &[],
        Method::PostPart => &[NUMBER, NUMBER],
        Method::Draw => &[],
        Method::ReadInt => &[],
        Method::HasMove => &[],
        Method::GetMove => &[],
        Method::Report => &[NUMBER, NUMBERS],
        Method::BestValue => &[],
        Method::HasBest => &[],
        Method::CopyBest => &[],
        Method::Stop => &[],
        Method::IsStopped => &[],
        Method::Restore => &[],
        Method::Low => &[],
        Method::Up => &[],
        Method::RangeSize => &[],
        Method::Insert => &[NUMBER],
        Method::Delete => &[NUMBER],
        Method::Contains => &[NUMBER],
        Method::SetSize => &[],
        Method::ArraySize => &[],
        Method::Domain => &[],
    }
}

pub fn method_spelling(method: Method) -> &'static str
    ensures { result.now ≡ rows.method_spelling method }
{
    match method {
        Method::Close => "close",
        Method::Post => "post",
        Method::Violations => "violations",
        Method::SystemAssignDelta => "getAssignDelta",
        Method::SystemSwapDelta => "getSwapDelta",
        Method::ObjectiveAssignDelta => "getAssignDelta",
        Method::ObjectiveSwapDelta => "getSwapDelta",
        Method::ObjectiveValue => "value",
        Method::ObjectiveEvaluation => "evaluation",
        Method::PostPart => "post",
        Method::Draw => "get",
        Method::ReadInt => "getInt",
        Method::HasMove => "hasMove",
        Method::GetMove => "getMove",
        Method::Report => "report",
        Method::BestValue => "value",
        Method::HasBest => "has",
        Method::CopyBest => "copy",
        Method::Stop => "stop",
        Method::IsStopped => "stopped",
        Method::Restore => "restore",
        Method::Low => "getLow",
        Method::Up => "getUp",
        Method::RangeSize => "getSize",
        Method::Insert => "insert",
        Method::Delete => "delete",
        Method::Contains => "contains",
        Method::SetSize => "getSize",
        Method::ArraySize => "getSize",
        Method::Domain => "getDomain",
    }
}

fn is_objective(kind: Kind) -> bool
    ensures { result ≡ rows.is_objective kind }
{
    matches!(kind, Kind::Objective | Kind::Total)
}

fn is_array(kind: Kind) -> bool
    ensures { result ≡ rows.is_array kind }
{
    matches!(
        kind,
        Kind::Array
            | Kind::Grid
            | Kind::VariableArray
            | Kind::VariableGrid
            | Kind::SetVariableArray
            | Kind::SetVariableGrid
    )
}

fn receives(method: Method, kind: Kind) -> bool
    ensures { result ≡ rows.receives method kind }
{
    match method {
        Method::Close => is_same(kind, Kind::Solver),
        Method::Post => is_same(kind, Kind::System),
        Method::Violations => is_same(kind, Kind::System),
        Method::SystemAssignDelta => is_same(kind, Kind::System),
        Method::SystemSwapDelta => is_same(kind, Kind::System),
        Method::ObjectiveAssignDelta => is_objective(kind),
        Method::ObjectiveSwapDelta => is_objective(kind),
        Method::ObjectiveValue => is_objective(kind),
        Method::ObjectiveEvaluation => is_objective(kind),
        Method::PostPart => is_same(kind, Kind::Total),
        Method::Draw => is_same(kind, Kind::Distribution),
        Method::ReadInt => is_same(kind, Kind::Input),
        Method::HasMove => is_same(kind, Kind::Selector),
        Method::GetMove => is_same(kind, Kind::Selector),
        Method::Report => is_same(kind, Kind::Monitor),
        Method::BestValue => is_same(kind, Kind::Monitor),
        Method::HasBest => is_same(kind, Kind::Monitor),
        Method::CopyBest => is_same(kind, Kind::Monitor),
        Method::Stop => is_same(kind, Kind::Monitor),
        Method::IsStopped => is_same(kind, Kind::Monitor),
        Method::Restore => is_same(kind, Kind::Solution),
        Method::Low => is_same(kind, Kind::Range),
        Method::Up => is_same(kind, Kind::Range),
        Method::RangeSize => is_same(kind, Kind::Range),
        Method::Insert => is_set(kind),
        Method::Delete => is_set(kind),
        Method::Contains => is_set(kind),
        Method::SetSize => is_set(kind),
        Method::ArraySize => is_array(kind),
        Method::Domain => is_same(kind, Kind::Variable),
    }
}

pub fn builtin_row(builtin: Builtin) -> Row
    ensures { result ≡ rows.builtin_row builtin }
{
    match builtin {
        Builtin::Abs => giving(Kind::Int, 1),
        Builtin::Min => giving(Kind::Int, 2),
        Builtin::Max => giving(Kind::Int, 2),
        Builtin::Count => giving(Kind::Int, 2),
        Builtin::Card => giving(Kind::Int, 1),
        Builtin::Member => giving(Kind::Bool, 2),
        Builtin::Union => giving(Kind::Set, 2),
        Builtin::Inter => giving(Kind::Set, 2),
        Builtin::Minus => giving(Kind::Set, 2),
        Builtin::AllDifferent => giving(Kind::Constraint, 1),
        Builtin::AtMost => giving(Kind::Constraint, 2),
        Builtin::AtLeast => giving(Kind::Constraint, 2),
        Builtin::Exactly => giving(Kind::Constraint, 2),
        Builtin::Knapsack => giving(Kind::Constraint, 3),
        Builtin::MultiKnapsack => giving(Kind::Constraint, 3),
        Builtin::Sequence => giving(Kind::Constraint, 4),
        Builtin::User => giving(Kind::Constraint, 2),
    }
}

pub fn builtin_wants(builtin: Builtin) -> &'static [Want]
    ensures { result.now ≡ rows.builtin_wants builtin }
{
    match builtin {
        Builtin::Abs => &[NUMBER],
        Builtin::Min => &[NUMBER, NUMBER],
        Builtin::Max => &[NUMBER, NUMBER],
        Builtin::Count => &[NUMBERS, NUMBER],
        Builtin::Card => &[SET],
        Builtin::Member => &[NUMBER, SET],
        Builtin::Union => &[SET, SET],
        Builtin::Inter => &[SET, SET],
        Builtin::Minus => &[SET, SET],
        Builtin::AllDifferent => &[NUMBERS],
        Builtin::AtMost => &[FIXED_NUMBERS, NUMBERS],
        Builtin::AtLeast => &[FIXED_NUMBERS, NUMBERS],
        Builtin::Exactly => &[FIXED_NUMBERS, NUMBERS],
        Builtin::Knapsack => &[FIXED_NUMBERS, NUMBERS, FIXED_NUMBER],
        Builtin::MultiKnapsack => &[NUMBERS, FIXED_NUMBERS, FIXED_NUMBERS],
        Builtin::Sequence => &[NUMBERS, FIXED_SET, FIXED_NUMBER, FIXED_NUMBER],
        Builtin::User => &[TEXT, NUMBERS],
    }
}

pub fn builtin_spelling(builtin: Builtin) -> &'static str
    ensures { result.now ≡ rows.builtin_spelling builtin }
{
    match builtin {
        Builtin::Abs => "abs",
        Builtin::Min => "min",
        Builtin::Max => "max",
        Builtin::Count => "count",
        Builtin::Card => "card",
        Builtin::Member => "member",
        Builtin::Union => "union",
        Builtin::Inter => "inter",
        Builtin::Minus => "minus",
        Builtin::AllDifferent => "alldifferent",
        Builtin::AtMost => "atmost",
        Builtin::AtLeast => "atleast",
        Builtin::Exactly => "exactly",
        Builtin::Knapsack => "knapsack",
        Builtin::MultiKnapsack => "multiknapsack",
        Builtin::Sequence => "sequence",
        Builtin::User => "user",
    }
}

const METHODS: [Method; 30] = [
    Method::Close,
    Method::Post,
    Method::Violations,
    Method::SystemAssignDelta,
    Method::SystemSwapDelta,
    Method::ObjectiveAssignDelta,
    Method::ObjectiveSwapDelta,
    Method::ObjectiveValue,
    Method::ObjectiveEvaluation,
    Method::PostPart,
    Method::Draw,
    Method::ReadInt,
    Method::HasMove,
    Method::GetMove,
    Method::Report,
    Method::BestValue,
    Method::HasBest,
    Method::CopyBest,
    Method::Stop,
    Method::IsStopped,
    Method::Restore,
    Method::Low,
    Method::Up,
    Method::RangeSize,
    Method::Insert,
    Method::Delete,
    Method::Contains,
    Method::SetSize,
    Method::ArraySize,
    Method::Domain,
];

const BUILTINS: [Builtin; 17] = [
    Builtin::Abs,
    Builtin::Min,
    Builtin::Max,
    Builtin::Count,
    Builtin::Card,
    Builtin::Member,
    Builtin::Union,
    Builtin::Inter,
    Builtin::Minus,
    Builtin::AllDifferent,
    Builtin::AtMost,
    Builtin::AtLeast,
    Builtin::Exactly,
    Builtin::Knapsack,
    Builtin::MultiKnapsack,
    Builtin::Sequence,
    Builtin::User,
];

fn is_method(method: Method, kind: Kind, name: &[u8]) -> bool
    ensures { result ≡ rows.is_method kind name.now method }
{
    receives(method, kind) && method_spelling(method).as_bytes() == name
}

fn place_of_method(all: &[Method], kind: Kind, name: &[u8]) -> Option<usize>
    ensures { result ≡ position (rows.is_method kind name.now) all.now }
{
    all.iter().position(|method| is_method(*method, kind, name))
}

fn method_among(all: &[Method], kind: Kind, name: &[u8]) -> Option<Method>
    ensures { result ≡ rows.first (rows.is_method kind name.now) all.now }
{
    match place_of_method(all, kind, name) {
        None => None,
        Some(index) => all.get(index).copied(),
    }
}

#[tactic(auto, unfolding(crate::specs::Rows::method_named))]
/// The method of this name on what is of this kind.
pub fn method_named(kind: Kind, name: &[u8]) -> Option<Method>
    ensures { result ≡ rows.method_named kind name.now }
{
    method_among(&METHODS, kind, name)
}

fn is_builtin(builtin: Builtin, name: &[u8]) -> bool
    ensures { result ≡ rows.is_builtin name.now builtin }
{
    builtin_spelling(builtin).as_bytes() == name
}

fn place_of_builtin(all: &[Builtin], name: &[u8]) -> Option<usize>
    ensures { result ≡ position (rows.is_builtin name.now) all.now }
{
    all.iter().position(|builtin| is_builtin(*builtin, name))
}

fn builtin_among(all: &[Builtin], name: &[u8]) -> Option<Builtin>
    ensures { result ≡ rows.first (rows.is_builtin name.now) all.now }
{
    match place_of_builtin(all, name) {
        None => None,
        Some(index) => all.get(index).copied(),
    }
}

#[tactic(auto, unfolding(crate::specs::Rows::builtin_named))]
/// The function of the language of this name.
pub fn builtin_named(name: &[u8]) -> Option<Builtin>
    ensures { result ≡ rows.builtin_named name.now }
{
    builtin_among(&BUILTINS, name)
}
