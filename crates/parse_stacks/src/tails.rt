//! The values of those parts of a program that are no trees: what stands behind a part that is shared by several forms.
use cbl_base::Place;
use comet_syntax::tree::{
    Argument, Class, Comparison, Dimensions, Expression, Generator, Generators, Link, Name,
    ParameterKind, Step, Suffix, VariableStart, WriteOperator,
};

/// What a comparison goes on with.
#[derive(Drop)]
pub struct Compared {
    pub comparison: Comparison,
    pub place: Place,
    pub right: Expression,
}

/// What a range goes on with.
#[derive(Drop)]
pub struct UpTo {
    pub place: Place,
    pub high: Expression,
}

/// What a conditional goes on with.
#[derive(Drop)]
pub struct Branches {
    pub then: Expression,
    pub otherwise: Expression,
}

/// What stands behind the first operand of an expression, level by level. Links stand in their lists the last one
/// first.
#[derive(Drop)]
pub struct Behind {
    pub product: Vec<Link>,
    pub total: Vec<Link>,
    pub up_to: Option<UpTo>,
    pub compared: Option<Compared>,
    pub conjunction: Vec<Link>,
    pub disjunction: Vec<Link>,
    pub branches: Option<Branches>,
}

/// What stands behind `min(` or `max(`. Suffixes stand in their lists the last one first.
#[derive(Drop)]
pub enum Pair {
    /// `left, right)` and suffixes
    Two {
        left: Expression,
        right: Expression,
        suffixes: Vec<Suffix>,
    },
    /// `generators) body`
    Over {
        generators: Generators,
        body: Expression,
    },
}

/// What stands behind `min(name` or `max(name`. Lists stand the last one first.
#[derive(Drop)]
pub enum PairRest {
    /// `in domain, more : condition) body`
    Over {
        domain: Expression,
        more: Vec<Generator>,
        condition: Option<Expression>,
        body: Expression,
    },
    /// What the first expression goes on with behind its name, then `, right)` and suffixes
    Two {
        called: Option<Vec<Argument>>,
        inner: Vec<Suffix>,
        behind: Behind,
        right: Expression,
        suffixes: Vec<Suffix>,
    },
}

/// What stands behind the name that a dimension begins with.
#[derive(Drop)]
pub enum DimensionRest {
    /// `in range`
    In(Expression),
    /// What the expression that begins with the name goes on with. Suffixes stand the last one first.
    Rest {
        called: Option<Vec<Argument>>,
        suffixes: Vec<Suffix>,
        behind: Behind,
    },
}

/// What stands behind `int` in a declaration.
#[derive(Drop)]
pub enum IntRest {
    /// `[] name = value`
    Array {
        name: Name,
        value: Expression,
    },
    /// `name dimensions = start`
    Plain {
        name: Name,
        dimensions: Option<Dimensions>,
        start: Option<Expression>,
    },
}

/// What stands behind `var{` or `inc{` in a declaration.
#[derive(Drop)]
pub enum VariableRest {
    /// `int} name dimensions (solver, domain) := start`
    Number {
        name: Name,
        dimensions: Option<Dimensions>,
        solver: Name,
        domain: Option<Expression>,
        start: Option<VariableStart>,
    },
    /// `set{int}} name dimensions (solver) <- definition`
    Set {
        name: Name,
        dimensions: Option<Dimensions>,
        solver: Name,
        definition: Expression,
    },
}

/// What stands behind `name =` in a simple statement.
#[derive(Drop)]
pub enum NewValue {
    /// `new class(arguments)`. The arguments stand the last one first.
    New(Class, Vec<Argument>),
    Value(Expression),
}

/// What is done with the target of a simple statement.
#[derive(Drop)]
pub enum WriteRest {
    /// Nothing
    Nothing,
    /// `= value` and its like
    Value(WriteOperator, Expression),
    /// `:=: right`
    Swap(Expression),
    /// `++` or `--`
    Step(Step),
}

/// What stands behind the name that a simple statement begins with.
#[derive(Drop)]
pub enum NamedRest {
    /// `= value`
    Set(NewValue),
    /// What the target goes on with, and what is done with it. Suffixes stand the last one first.
    Rest {
        called: Option<Vec<Argument>>,
        suffixes: Vec<Suffix>,
        write: WriteRest,
    },
}

/// The type of a parameter, and its place.
#[derive(Drop)]
pub struct ParameterType {
    pub kind: ParameterKind,
    pub place: Place,
}
