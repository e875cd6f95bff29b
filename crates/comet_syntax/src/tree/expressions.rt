//! Expressions.
use cbl_base::{Place, Text};

/// A name, where it stands.
#[derive(Drop)]
pub struct Name {
    pub text: Text,
    pub place: Place,
}

/// What joins the operands of a chain.
#[derive(Clone, Copy, PartialEq, Eq, Debug)]
pub enum ChainOperator {
    /// `||`
    Or,
    /// `&&`
    And,
    /// `+`
    Add,
    /// `-`
    Subtract,
    /// `*`
    Multiply,
    /// `/`
    Divide,
    /// `%`
    Remainder,
}

/// What compares two operands.
#[derive(Clone, Copy, PartialEq, Eq, Debug)]
pub enum Comparison {
    /// `==`
    Equal,
    /// `!=`
    NotEqual,
    /// `<`
    Less,
    /// `<=`
    LessEqual,
    /// `>`
    Greater,
    /// `>=`
    GreaterEqual,
}

/// What stands before its one operand.
#[derive(Clone, Copy, PartialEq, Eq, Debug)]
pub enum UnaryOperator {
    /// `-`
    Negative,
    /// `!`
    Not,
}

/// `min` or `max` of two expressions.
#[derive(Clone, Copy, PartialEq, Eq, Debug)]
pub enum Extreme {
    Min,
    Max,
}

/// What an aggregate makes of the values of its body.
#[derive(Clone, Copy, PartialEq, Eq, Debug)]
pub enum Aggregate {
    Sum,
    Min,
    Max,
    All,
    And,
    Or,
    SetOf,
    ArgMin,
    ArgMax,
}

/// An expression.
#[cycle(expression)]
pub enum Expression {
    /// `test ? then : otherwise`. Its place is its first token's.
    Conditional {
        test: Box<Expression>,
        then: Box<Expression>,
        otherwise: Box<Expression>,
    },
    /// Operands of one binding level, evaluated from the left: a first one, and at least one more.
    Chain {
        first: Box<Expression>,
        links: Vec<Link>,
    },
    /// `left < right` and its like. The place is the operator's.
    Comparison {
        left: Box<Expression>,
        comparison: Comparison,
        place: Place,
        right: Box<Expression>,
    },
    /// `low .. high`. The place is the operator's.
    Range {
        low: Box<Expression>,
        place: Place,
        high: Box<Expression>,
    },
    /// `-operand` or `!operand`.
    Unary {
        operator: UnaryOperator,
        place: Place,
        operand: Box<Expression>,
    },
    /// `sum(generators) body` and its like. The place is the keyword's.
    Aggregate {
        aggregate: Aggregate,
        place: Place,
        generators: Box<Generators>,
        body: Box<Expression>,
    },
    /// A primary and what stands behind it: at least one suffix.
    Postfix {
        primary: Box<Expression>,
        suffixes: Vec<Suffix>,
    },
    /// From 0 to 9223372036854775807.
    Number {
        value: i64,
        place: Place,
    },
    /// `true` or `false`.
    Truth {
        value: bool,
        place: Place,
    },
    Name(Name),
    /// `name(arguments)`
    Call {
        name: Box<Name>,
        arguments: Vec<Argument>,
    },
    /// `min(left, right)` or `max(left, right)`. The place is the keyword's.
    Extreme {
        extreme: Extreme,
        place: Place,
        left: Box<Expression>,
        right: Box<Expression>,
    },
    /// `(inner)`
    Parentheses {
        place: Place,
        inner: Box<Expression>,
    },
    /// `[arguments]`, at least one.
    List {
        place: Place,
        arguments: Vec<Argument>,
    },
    /// `{arguments}`, at least one.
    Set {
        place: Place,
        arguments: Vec<Argument>,
    },
}

// Written and not derived: so each crate above that lets an expression go makes one call, and doesn't
// prove the release of its forms again.
impl Drop for Expression {
    #[cycle(release_expression)]
    fn drop(self) {
        match self {
            Self::Conditional {
                test: _,
                then: _,
                otherwise: _,
            } => (),
            Self::Chain { first: _, links: _ } => (),
            Self::Comparison {
                left: _,
                comparison: _,
                place: _,
                right: _,
            } => (),
            Self::Range {
                low: _,
                place: _,
                high: _,
            } => (),
            Self::Unary {
                operator: _,
                place: _,
                operand: _,
            } => (),
            Self::Aggregate {
                aggregate: _,
                place: _,
                generators: _,
                body: _,
            } => (),
            Self::Postfix {
                primary: _,
                suffixes: _,
            } => (),
            Self::Number { value: _, place: _ } => (),
            Self::Truth { value: _, place: _ } => (),
            Self::Name(_) => (),
            Self::Call {
                name: _,
                arguments: _,
            } => (),
            Self::Extreme {
                extreme: _,
                place: _,
                left: _,
                right: _,
            } => (),
            Self::Parentheses { place: _, inner: _ } => (),
            Self::List {
                place: _,
                arguments: _,
            } => (),
            Self::Set {
                place: _,
                arguments: _,
            } => (),
        }
    }
}

/// An operand of a chain behind the first one, with the operator before it. The place is the operator's.
#[cycle(expression)]
#[derive(Drop)]
pub struct Link {
    pub operator: ChainOperator,
    pub place: Place,
    pub operand: Expression,
}

/// What stands behind a primary.
#[cycle(expression)]
#[derive(Drop)]
pub enum Suffix {
    /// `[index]`. The place is that of `[`.
    Index {
        place: Place,
        index: Expression,
    },
    /// `[first, second]`. The place is that of `[`.
    Cell {
        place: Place,
        first: Expression,
        second: Expression,
    },
    /// `.name(arguments)`
    Method {
        name: Name,
        arguments: Vec<Argument>,
    },
}

/// What is handed to a call, or stands in a list or a set.
#[cycle(expression)]
#[derive(Drop)]
pub enum Argument {
    Expression(Expression),
    /// A string, with its escapes replaced.
    Str(Text),
}

/// `name in domain`
#[cycle(expression)]
#[derive(Drop)]
pub struct Generator {
    pub name: Name,
    pub domain: Expression,
}

/// Generators, at least one, and perhaps `: condition`.
#[cycle(expression)]
#[derive(Drop)]
pub struct Generators {
    pub generators: Vec<Generator>,
    pub condition: Option<Box<Expression>>,
}
