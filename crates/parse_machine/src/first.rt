//! The kinds of token that a part begins with, for the forms that begin with that part.
use crate::grammar::Kind;
use crate::notation::{kind, kinds};
use comet_syntax::word;

pub const NAME: &[Kind] = kinds! { name };

pub const BLOCK: &[Kind] = kinds! { "{" };

pub const EXTREME: &[Kind] = kinds! { "min" "max" };

pub const LITERAL: &[Kind] = kinds! { number "true" "false" "(" "[" };

pub const UNNAMED: &[Kind] = kinds! {
    number "true" "false" "(" "[" "{" "min" "max" "-" "!" "sum" "all" "and" "or" "setof"
    "argMin" "argMax"
};

pub const EXPRESSION: &[Kind] = kinds! {
    name number "true" "false" "(" "[" "{" "min" "max" "-" "!" "sum" "all" "and" "or" "setof"
    "argMin" "argMax"
};

pub const ARGUMENT: &[Kind] = kinds! {
    name number "true" "false" "(" "[" "{" "min" "max" "-" "!" "sum" "all" "and" "or" "setof"
    "argMin" "argMax" string
};

pub const CLASS: &[Kind] = kinds! {
    "Solver" "LocalSolver" "ConstraintSystem" "FunctionExpr" "FunctionSum"
    "UniformDistribution" "InputFile" "MinNeighborSelector" "BestMonitor" "Solution"
};

pub const PARAMETER: &[Kind] = kinds! {
    "int" "bool" "range" "set" "var" "inc" "Solver" "LocalSolver" "ConstraintSystem"
    "BestMonitor"
};

pub const DECLARATION: &[Kind] = kinds! {
    "int" "bool" "range" "set" "var" "inc" "Solver" "LocalSolver" "ConstraintSystem"
    "FunctionExpr" "FunctionSum" "UniformDistribution" "InputFile" "MinNeighborSelector"
    "BestMonitor" "Solution"
};

pub const SIMPLE: &[Kind] = kinds! {
    name number "true" "false" "(" "[" "min" "max" "cout" "call"
};

pub const STATEMENT: &[Kind] = kinds! {
    "{" ";" "int" "bool" "range" "set" "var" "inc" "Solver" "LocalSolver" "ConstraintSystem"
    "FunctionExpr" "FunctionSum" "UniformDistribution" "InputFile" "MinNeighborSelector"
    "BestMonitor" "Solution" name number "true" "false" "(" "[" "min" "max" "cout" "call"
    "return" "if" "while" "for" "forall" "select" "selectMin" "selectMax" "neighbor"
    "whenever" "with" "parall"
};

pub const TOP: &[Kind] = kinds! {
    "import" "include" "function" "{" ";" "int" "bool" "range" "set" "var" "inc" "Solver"
    "LocalSolver" "ConstraintSystem" "FunctionExpr" "FunctionSum" "UniformDistribution"
    "InputFile" "MinNeighborSelector" "BestMonitor" "Solution" name number "true" "false" "("
    "[" "min" "max" "cout" "call" "return" "if" "while" "for" "forall" "select" "selectMin"
    "selectMax" "neighbor" "whenever" "with" "parall"
};
