//! Declarations.
use crate::tree::{Argument, Expression, Name};
use cbl_base::Place;

/// Which word a type of incremental variables begins with. Both mean the same.
#[derive(Clone, Copy, PartialEq, Eq, Debug)]
pub enum Incremental {
    Var,
    Inc,
}

/// A class. The place is its first token's.
#[derive(Drop)]
pub struct Class {
    pub place: Place,
    pub kind: ClassKind,
}

/// Which class it is, with the name in its angle brackets.
#[derive(Drop)]
pub enum ClassKind {
    Solver(Name),
    LocalSolver,
    ConstraintSystem(Option<Name>),
    FunctionExpr(Option<Name>),
    FunctionSum(Option<Name>),
    UniformDistribution,
    InputFile,
    MinNeighborSelector,
    BestMonitor,
    Solution,
}

/// `[dimension]` or `[dimension, dimension]`
#[derive(Drop)]
pub struct Dimensions {
    pub first: Dimension,
    pub second: Option<Dimension>,
}

/// `range` or `name in range`
#[derive(Drop)]
pub struct Dimension {
    pub name: Option<Name>,
    pub range: Expression,
}

/// What a variable starts with.
#[derive(Drop)]
pub enum VariableStart {
    /// `:= value`
    Assign(Expression),
    /// `<- term`
    Define(Expression),
}

/// How a declaration makes its object.
#[derive(Drop)]
pub enum Maker {
    /// `class name(arguments)`
    Direct(Vec<Argument>),
    /// `class name = new made(arguments)`
    New {
        made: Class,
        arguments: Vec<Argument>,
    },
}

/// A declaration. Its place is its first token's; that of an object's declaration is its class's.
#[derive(Drop)]
pub enum Declaration {
    /// `int name = start`, or with dimensions
    Int {
        place: Place,
        name: Name,
        dimensions: Option<Dimensions>,
        start: Option<Expression>,
    },
    /// `int[] name = value`
    IntArray {
        place: Place,
        name: Name,
        value: Expression,
    },
    /// `bool name = start`
    Bool {
        place: Place,
        name: Name,
        start: Option<Expression>,
    },
    /// `range name = value`
    Range {
        place: Place,
        name: Name,
        value: Expression,
    },
    /// `set{int} name = start`
    Set {
        place: Place,
        name: Name,
        start: Option<Expression>,
    },
    /// `var{int} name[dimensions](solver, domain) := start`
    Variable {
        place: Place,
        word: Incremental,
        name: Name,
        dimensions: Option<Dimensions>,
        solver: Name,
        domain: Option<Expression>,
        start: Option<VariableStart>,
    },
    /// `var{set{int}} name[dimensions](solver) <- definition`
    SetVariable {
        place: Place,
        word: Incremental,
        name: Name,
        dimensions: Option<Dimensions>,
        solver: Name,
        definition: Expression,
    },
    /// `class name(arguments)` or `class name = new made(arguments)`
    Object {
        class: Class,
        name: Name,
        maker: Maker,
    },
}
