//! Classes and the types of parameters.
ghost use Rattle.std.specs.Prelude.{◌≡◌};
ghost use Rattle.type_rules.specs.Classes as classes;

use crate::kinds::{Asked, Want};
use checked_tree::Kind;
use comet_syntax::tree::{ClassKind, Name, ParameterKind};

const SOLVER: Want = Want {
    asked: Asked::Exactly(Kind::Solver),
    fixed: false,
};

const TERM: Want = Want {
    asked: Asked::Number,
    fixed: false,
};

const RANGE: Want = Want {
    asked: Asked::Range,
    fixed: false,
};

fn is_ls(name: &Name) -> bool
    ensures { result ≡ classes.is_ls name.now }
{
    name.text.as_slice() == "LS".as_bytes()
}

fn is_ls_or_none(name: &Option<Name>) -> bool
    ensures { result ≡ classes.is_ls_or_none name.now }
{
    match name {
        None => true,
        Some(name) => is_ls(name),
    }
}

/// What an object of a class is.
pub fn class_kind(class: &ClassKind) -> Kind
    ensures { result ≡ classes.class_kind class.now }
{
    match class {
        ClassKind::Solver(_) => Kind::Solver,
        ClassKind::LocalSolver => Kind::Solver,
        ClassKind::ConstraintSystem(_) => Kind::System,
        ClassKind::FunctionExpr(_) => Kind::Objective,
        ClassKind::FunctionSum(_) => Kind::Total,
        ClassKind::UniformDistribution => Kind::Distribution,
        ClassKind::InputFile => Kind::Input,
        ClassKind::MinNeighborSelector => Kind::Selector,
        ClassKind::BestMonitor => Kind::Monitor,
        ClassKind::Solution => Kind::Solution,
    }
}

/// Whether the angle brackets of a class, where it has some, hold `LS`.
pub fn class_is_ls(class: &ClassKind) -> bool
    ensures { result ≡ classes.class_is_ls class.now }
{
    match class {
        ClassKind::Solver(name) => is_ls(name),
        ClassKind::LocalSolver => true,
        ClassKind::ConstraintSystem(name) => is_ls_or_none(name),
        ClassKind::FunctionExpr(name) => is_ls_or_none(name),
        ClassKind::FunctionSum(name) => is_ls_or_none(name),
        ClassKind::UniformDistribution => true,
        ClassKind::InputFile => true,
        ClassKind::MinNeighborSelector => true,
        ClassKind::BestMonitor => true,
        ClassKind::Solution => true,
    }
}

/// What the maker of an object is handed.
pub fn class_wants(kind: Kind) -> &'static [Want]
    ensures { result.now ≡ classes.class_wants kind }
{
    match kind {
        Kind::System => &[SOLVER],
        Kind::Objective => &[TERM],
        Kind::Total => &[SOLVER],
        Kind::Distribution => &[RANGE],
        Kind::Solution => &[SOLVER],
        _ => &[],
    }
}

/// What a parameter is.
pub fn parameter_kind(parameter: &ParameterKind) -> Kind
    ensures { result ≡ classes.parameter_kind parameter.now }
{
    match parameter {
        ParameterKind::Int => Kind::Int,
        ParameterKind::IntArray => Kind::Array,
        ParameterKind::Bool => Kind::Bool,
        ParameterKind::Range => Kind::Range,
        ParameterKind::Set => Kind::Set,
        ParameterKind::Variable(_) => Kind::Variable,
        ParameterKind::VariableArray(_) => Kind::VariableArray,
        ParameterKind::Solver(_) => Kind::Solver,
        ParameterKind::LocalSolver => Kind::Solver,
        ParameterKind::ConstraintSystem(_) => Kind::System,
        ParameterKind::BestMonitor => Kind::Monitor,
    }
}

/// Whether the angle brackets of a parameter's type, where it has some, hold `LS`.
pub fn parameter_is_ls(parameter: &ParameterKind) -> bool
    ensures { result ≡ classes.parameter_is_ls parameter.now }
{
    match parameter {
        ParameterKind::Solver(name) => is_ls(name),
        ParameterKind::ConstraintSystem(name) => is_ls_or_none(name),
        ParameterKind::Int => true,
        ParameterKind::IntArray => true,
        ParameterKind::Bool => true,
        ParameterKind::Range => true,
        ParameterKind::Set => true,
        ParameterKind::Variable(_) => true,
        ParameterKind::VariableArray(_) => true,
        ParameterKind::LocalSolver => true,
        ParameterKind::BestMonitor => true,
    }
}
