//! Checked statements, functions and programs.
use crate::expressions::{Generator, Slot, Typed};
use crate::kind::Kind;
use cbl_base::{Place, Text};
use comet_syntax::tree::{Extreme, Step, WithMode, WriteOperator};
use std::sync::Arc;

/// How the cells of what is declared get their first values.
#[derive(Clone, Copy)]
pub enum Way {
    /// The value is evaluated for each cell.
    Each,
    /// The value is a list of the cells' values.
    List,
    /// The value is the definition of each cell.
    Define,
}

/// The first values of what is declared.
#[derive(Drop)]
pub struct Start {
    pub way: Way,
    pub value: Typed,
}

/// A dimension of an array, with the cell of its name where it has one.
#[derive(Drop)]
pub struct Dimension {
    pub slot: Option<Slot>,
    pub range: Typed,
}

/// What `cout` prints.
#[derive(Drop)]
pub enum Printed {
    Value(Typed),
    Text(Text),
    EndLine,
}

/// A declared variable, or array of variables: its cell, its name, the cell of its solver, and its parts.
#[derive(Drop)]
pub struct Variable {
    pub slot: Slot,
    pub name: Text,
    pub kind: Kind,
    pub dimensions: Vec<Dimension>,
    pub solver: Slot,
    pub domain: Option<Typed>,
    pub start: Option<Start>,
}

/// What a statement does that holds no statement. Forms that are large are boxed.
#[derive(Drop)]
pub enum Action {
    Empty,
    /// A name of `int`, `bool`, `range`, `set{int}` or `int[]`.
    Declare {
        slot: Slot,
        kind: Kind,
        start: Option<Box<Typed>>,
    },
    /// An array of `int` with one dimension or two.
    DeclareArray {
        slot: Slot,
        kind: Kind,
        dimensions: Vec<Dimension>,
        start: Option<Box<Start>>,
    },
    DeclareVariable(Box<Variable>),
    /// An object that is declared, or that a name is given by `new`.
    Make {
        slot: Slot,
        kind: Kind,
        arguments: Vec<Typed>,
    },
    /// `target = value` and its like.
    Write {
        target: Box<Typed>,
        operator: WriteOperator,
        value: Box<Typed>,
    },
    /// `left :=: right`
    Swap {
        left: Box<Typed>,
        right: Box<Typed>,
    },
    /// `target++` and `target--`
    Step {
        target: Typed,
        step: Step,
    },
    /// An expression alone.
    Do(Typed),
    /// `call(chosen)`
    Choose(Typed),
    Print(Vec<Printed>),
    Return(Option<Typed>),
}

/// The cell of the name that a `for` declares, and its first value.
#[derive(Drop)]
pub struct Counter {
    pub slot: Slot,
    pub start: Typed,
}

/// What stands in a `for` before its body.
#[derive(Drop)]
pub struct Head {
    pub counter: Option<Counter>,
    pub test: Option<Typed>,
    pub step: Option<Action>,
}

/// Generators with their condition.
#[derive(Drop)]
pub struct Choice {
    pub generators: Vec<Generator>,
    pub condition: Option<Typed>,
}

/// The cells of the old and the new value in a `whenever`.
#[derive(Clone, Copy)]
pub struct EventSlots {
    pub old: Slot,
    pub new: Slot,
}

/// A statement. The place is its first token's.
#[cycle(task)]
pub struct Task {
    pub place: Place,
    pub act: Act,
}

// Written and not derived, as that of an expression is, and by the same reason.
impl Drop for Task {
    #[cycle(release_task)]
    fn drop(self) {
        let Self { place: _, act: _ } = self;
    }
}

/// A statement that runs later. Who keeps it for then has it, too, so it isn't copied.
pub type Later = Arc<Box<Task>>;

/// What a statement does. Forms that are large are boxed, since each statement takes the room of the largest.
#[cycle(task)]
#[derive(Drop)]
pub enum Act {
    Action(Action),
    Block(Vec<Task>),
    If {
        test: Typed,
        then: Box<Task>,
    },
    IfElse {
        test: Typed,
        then: Box<Task>,
        otherwise: Box<Task>,
    },
    While {
        test: Typed,
        body: Box<Task>,
    },
    For {
        head: Box<Head>,
        body: Box<Task>,
    },
    ForAll {
        choice: Box<Choice>,
        body: Box<Task>,
    },
    Select {
        choice: Box<Choice>,
        body: Box<Task>,
    },
    SelectBy {
        extreme: Extreme,
        choice: Box<Choice>,
        key: Box<Typed>,
        body: Box<Task>,
    },
    Neighbor {
        key: Typed,
        selector: Slot,
        body: Later,
    },
    Whenever {
        variable: Box<Typed>,
        names: Option<EventSlots>,
        body: Later,
    },
    With {
        mode: WithMode,
        solver: Slot,
        body: Box<Task>,
    },
    Parall {
        slot: Slot,
        domain: Typed,
        body: Box<Task>,
    },
}

/// A function. The place is that of `function`.
#[derive(Drop)]
pub struct Function {
    pub place: Place,
    pub name: Text,
    pub result: Kind,
    pub parameters: Vec<Kind>,
    pub body: Task,
}

/// A checked program: its functions by their numbers, and its statements.
#[derive(Drop)]
pub struct Checked {
    pub functions: Vec<Function>,
    pub tasks: Vec<Task>,
}
