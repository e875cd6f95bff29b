//! The forms of what stands at the top of a program, of parameters and of the names of classes, one a line (see `notation`).
use crate::first;
use crate::form::{Form, ProgramForm};
use crate::grammar::{Kind, Part, Row, Symbol};
use crate::notation::{begins, kind, rows, symbols};
use comet_syntax::word;

macro_rules! forms {
    ($($row:tt)*) => { rows!(Program ProgramForm $($row)*) };
}

pub static PROGRAM: [Row; 2] = forms! {
    ProgramTop(Top Program) on TOP,
    ProgramNone(),
};

pub static TOP: [Row; 4] = forms! {
    TopImport("import" name ";"),
    TopInclude("include" string ";"),
    TopFunction(at "function" ResultKind name "(" Parameters ")" deeper Block),
    TopStatement(deeper Statement) on STATEMENT,
};

pub static RESULT_KIND: [Row; 3] = forms! {
    ResultKindVoid("void"),
    ResultKindInt("int"),
    ResultKindBool("bool"),
};

pub static PARAMETERS: [Row; 2] = forms! {
    ParametersParameter(Parameter ParametersTail) on PARAMETER,
    ParametersNone(),
};

pub static PARAMETERS_TAIL: [Row; 2] = forms! {
    ParametersTailComma("," Parameter ParametersTail),
    ParametersTailNone(),
};

pub static PARAMETER: [Row; 1] = forms! {
    ParameterParameterKind(ParameterKind name) on PARAMETER,
};

pub static PARAMETER_KIND: [Row; 10] = forms! {
    ParameterKindInt(at "int" Brackets),
    ParameterKindBool(at "bool"),
    ParameterKindRange(at "range"),
    ParameterKindSet(at "set" "{" "int" "}"),
    ParameterKindVar(at "var" "{" "int" "}" Brackets),
    ParameterKindInc(at "inc" "{" "int" "}" Brackets),
    ParameterKindSolver(at "Solver" "<" name ">"),
    ParameterKindLocalSolver(at "LocalSolver"),
    ParameterKindConstraintSystem(at "ConstraintSystem" Template),
    ParameterKindBestMonitor(at "BestMonitor"),
};

pub static BRACKETS: [Row; 2] = forms! {
    BracketsLeftBracket("[" "]"),
    BracketsNone(),
};

pub static TEMPLATE: [Row; 2] = forms! {
    TemplateLess("<" name ">"),
    TemplateNone(),
};

pub static CLASS_NAME: [Row; 10] = forms! {
    ClassNameSolver(at "Solver" "<" name ">"),
    ClassNameLocalSolver(at "LocalSolver"),
    ClassNameConstraintSystem(at "ConstraintSystem" Template),
    ClassNameFunctionExpr(at "FunctionExpr" Template),
    ClassNameFunctionSum(at "FunctionSum" Template),
    ClassNameUniformDistribution(at "UniformDistribution"),
    ClassNameInputFile(at "InputFile"),
    ClassNameMinNeighborSelector(at "MinNeighborSelector"),
    ClassNameBestMonitor(at "BestMonitor"),
    ClassNameSolution(at "Solution"),
};
