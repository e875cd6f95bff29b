//! Checked expressions.
use crate::kind::Kind;
use cbl_base::{Place, Text};
use comet_syntax::tree::{Aggregate, ChainOperator, Comparison, UnaryOperator};

/// Where a name's cell lies: among the global ones, or in the frame of the running call.
#[derive(Clone, Copy)]
pub enum Slot {
    Global(usize),
    Local(usize),
}

/// A function of the language, or a constraint.
#[derive(Clone, Copy)]
pub enum Builtin {
    Abs,
    Min,
    Max,
    Count,
    Card,
    Member,
    Union,
    Inter,
    Minus,
    AllDifferent,
    AtMost,
    AtLeast,
    Exactly,
    Knapsack,
    MultiKnapsack,
    Sequence,
    User,
}

/// A method, with what it is called on.
#[derive(Clone, Copy)]
pub enum Method {
    Close,
    Post,
    Violations,
    SystemAssignDelta,
    SystemSwapDelta,
    ObjectiveAssignDelta,
    ObjectiveSwapDelta,
    ObjectiveValue,
    ObjectiveEvaluation,
    PostPart,
    Draw,
    ReadInt,
    HasMove,
    GetMove,
    Report,
    BestValue,
    HasBest,
    CopyBest,
    Stop,
    IsStopped,
    Restore,
    Low,
    Up,
    RangeSize,
    Insert,
    Delete,
    Contains,
    SetSize,
    ArraySize,
    Domain,
}

/// An expression, with its place, what it is, and whether it holds incremental variables in a term.
#[cycle(typed)]
pub struct Typed {
    /// Its first token.
    pub start: Place,
    pub place: Place,
    pub kind: Kind,
    pub moving: bool,
    pub form: Form,
}

// Written and not derived: so each crate above that lets an expression go makes one call, and doesn't
// prove the release of its forms again.
impl Drop for Typed {
    #[cycle(release_typed)]
    fn drop(self) {
        let Self {
            start: _,
            place: _,
            kind: _,
            moving: _,
            form: _,
        } = self;
    }
}

/// The form of an expression.
#[cycle(typed)]
#[derive(Drop)]
pub enum Form {
    Number(i64),
    Truth(bool),
    Text(Text),
    Name(Slot),
    Unary {
        operator: UnaryOperator,
        operand: Box<Typed>,
    },
    Parentheses(Box<Typed>),
    Chain {
        first: Box<Typed>,
        links: Vec<Link>,
    },
    Compare {
        comparison: Comparison,
        left: Box<Typed>,
        right: Box<Typed>,
    },
    Range {
        low: Box<Typed>,
        high: Box<Typed>,
    },
    Conditional {
        test: Box<Typed>,
        then: Box<Typed>,
        otherwise: Box<Typed>,
    },
    Index {
        array: Box<Typed>,
        index: Box<Typed>,
    },
    Cell {
        grid: Box<Typed>,
        row: Box<Typed>,
        column: Box<Typed>,
    },
    List(Vec<Typed>),
    Set(Vec<Typed>),
    Aggregate {
        aggregate: Aggregate,
        generators: Vec<Generator>,
        condition: Option<Box<Typed>>,
        body: Box<Typed>,
    },
    Builtin {
        builtin: Builtin,
        arguments: Vec<Typed>,
    },
    Call {
        function: usize,
        arguments: Vec<Typed>,
    },
    Method {
        method: Method,
        object: Box<Typed>,
        arguments: Vec<Typed>,
    },
}

/// An operand of a chain behind the first one.
#[cycle(typed)]
#[derive(Drop)]
pub struct Link {
    pub operator: ChainOperator,
    pub place: Place,
    pub operand: Typed,
}

/// `name in domain`
#[cycle(typed)]
#[derive(Drop)]
pub struct Generator {
    pub place: Place,
    pub slot: Slot,
    pub domain: Typed,
}
