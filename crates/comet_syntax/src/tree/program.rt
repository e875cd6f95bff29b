//! Programs and functions.
use crate::tree::{Block, Incremental, Name, Statement};
use cbl_base::{Place, Text};

/// A whole program.
#[derive(Drop)]
pub struct Program {
    pub parts: Vec<TopPart>,
}

/// What stands at the top of a program.
#[derive(Drop)]
pub enum TopPart {
    /// `import name;`
    Import(Name),
    /// `include string;`
    Include(Text),
    Function(Box<Function>),
    Statement(Statement),
}

/// `function result name(parameters) body`. The place is that of `function`.
#[derive(Drop)]
pub struct Function {
    pub place: Place,
    pub result: ResultKind,
    pub name: Name,
    pub parameters: Vec<Parameter>,
    pub body: Block,
}

/// What a function gives.
#[derive(Clone, Copy, PartialEq, Eq, Debug)]
pub enum ResultKind {
    Void,
    Int,
    Bool,
}

/// A parameter. The place is its first token's.
#[derive(Drop)]
pub struct Parameter {
    pub place: Place,
    pub kind: ParameterKind,
    pub name: Name,
}

/// The type of a parameter, with the name in its angle brackets.
#[derive(Drop)]
pub enum ParameterKind {
    Int,
    /// `int[]`
    IntArray,
    Bool,
    Range,
    /// `set{int}`
    Set,
    /// `var{int}`
    Variable(Incremental),
    /// `var{int}[]`
    VariableArray(Incremental),
    Solver(Name),
    LocalSolver,
    ConstraintSystem(Option<Name>),
    BestMonitor,
}
