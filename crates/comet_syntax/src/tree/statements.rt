//! Statements.
use crate::tree::{Argument, Class, Declaration, Expression, Extreme, Generators, Name};
use cbl_base::{Place, Text};

/// A statement. The place is its first token's.
#[cycle(statement)]
pub enum Statement {
    Block(Block),
    /// `;`
    Empty(Place),
    /// A declaration and `;`
    Declaration(Box<Declaration>),
    /// A simple statement and `;`
    Simple(Simple),
    /// `return value;`
    Return {
        place: Place,
        value: Option<Box<Expression>>,
    },
    /// `if (test) then else otherwise`
    If {
        place: Place,
        test: Box<Expression>,
        then: Box<Statement>,
        otherwise: Option<Box<Statement>>,
    },
    /// `while (test) body`
    While {
        place: Place,
        test: Box<Expression>,
        body: Box<Statement>,
    },
    /// `for (start; test; step) body`
    For {
        place: Place,
        head: Box<ForHead>,
        body: Box<Statement>,
    },
    /// `forall (generators) body`
    ForAll {
        place: Place,
        generators: Box<Generators>,
        body: Box<Statement>,
    },
    /// `select (generators) body`
    Select {
        place: Place,
        generators: Box<Generators>,
        body: Box<Statement>,
    },
    /// `selectMin (generators) (key) body` and `selectMax (generators) (key) body`
    SelectBy {
        place: Place,
        extreme: Extreme,
        generators: Box<Generators>,
        key: Box<Expression>,
        body: Box<Statement>,
    },
    /// `neighbor (key, selector) body`
    Neighbor {
        place: Place,
        key: Box<Expression>,
        selector: Name,
        body: Box<Statement>,
    },
    /// `whenever variable@event(int old, int new) body`
    Whenever {
        place: Place,
        watched: Box<Watched>,
        body: Box<Statement>,
    },
    /// `with atomic (solver) block` or `with delay (solver) block`
    With {
        place: Place,
        mode: WithMode,
        solver: Name,
        body: Box<Block>,
    },
    /// `parall (name in domain) body`
    Parall {
        place: Place,
        name: Name,
        domain: Box<Expression>,
        body: Box<Statement>,
    },
}

// Written and not derived, as that of an expression is, and by the same reason.
impl Drop for Statement {
    #[cycle(release_statement)]
    fn drop(self) {
        match self {
            Self::Block(_) => (),
            Self::Empty(_) => (),
            Self::Declaration(_) => (),
            Self::Simple(_) => (),
            Self::Return { place: _, value: _ } => (),
            Self::If {
                place: _,
                test: _,
                then: _,
                otherwise: _,
            } => (),
            Self::While {
                place: _,
                test: _,
                body: _,
            } => (),
            Self::For {
                place: _,
                head: _,
                body: _,
            } => (),
            Self::ForAll {
                place: _,
                generators: _,
                body: _,
            } => (),
            Self::Select {
                place: _,
                generators: _,
                body: _,
            } => (),
            Self::SelectBy {
                place: _,
                extreme: _,
                generators: _,
                key: _,
                body: _,
            } => (),
            Self::Neighbor {
                place: _,
                key: _,
                selector: _,
                body: _,
            } => (),
            Self::Whenever {
                place: _,
                watched: _,
                body: _,
            } => (),
            Self::With {
                place: _,
                mode: _,
                solver: _,
                body: _,
            } => (),
            Self::Parall {
                place: _,
                name: _,
                domain: _,
                body: _,
            } => (),
        }
    }
}

/// `{ statements }`. The place is that of `{`.
#[cycle(statement)]
#[derive(Drop)]
pub struct Block {
    pub place: Place,
    pub statements: Vec<Statement>,
}

/// `int name = value` in a `for`.
#[derive(Drop)]
pub struct ForStart {
    pub name: Name,
    pub value: Expression,
}

/// The three parts of a `for`. Each may be left out.
#[derive(Drop)]
pub struct ForHead {
    pub start: Option<ForStart>,
    pub test: Option<Expression>,
    pub step: Option<Simple>,
}

/// `variable@event(int old, int new)`
#[derive(Drop)]
pub struct Watched {
    pub variable: Expression,
    pub event: Name,
    pub names: Option<Events>,
}

/// The names of the old and the new value in a `whenever`.
#[derive(Drop)]
pub struct Events {
    pub old: Name,
    pub new: Name,
}

/// What a `with` does with the assignments in it.
#[derive(Clone, Copy, PartialEq, Eq, Debug)]
pub enum WithMode {
    Atomic,
    Delay,
}

/// What a simple statement does with its target and a value.
#[derive(Clone, Copy, PartialEq, Eq, Debug)]
pub enum WriteOperator {
    /// `=`
    Set,
    /// `+=`
    Add,
    /// `-=`
    Subtract,
    /// `:=`
    Assign,
    /// `<-`
    Define,
}

/// One more or one less.
#[derive(Clone, Copy, PartialEq, Eq, Debug)]
pub enum Step {
    /// `++`
    Increment,
    /// `--`
    Decrement,
}

/// A simple statement. Its place is its first token's.
#[derive(Drop)]
pub enum Simple {
    /// `target = value` and its like
    Write {
        target: Box<Expression>,
        operator: WriteOperator,
        value: Box<Expression>,
    },
    /// `left :=: right`
    Swap {
        left: Box<Expression>,
        right: Box<Expression>,
    },
    /// `target++` or `target--`
    Step {
        target: Box<Expression>,
        step: Step,
    },
    /// A postfix form alone.
    Postfix(Expression),
    /// `name = new class(arguments)`
    New(Box<NewObject>),
    /// `cout << items`, at least one. The place is that of `cout`.
    Print {
        place: Place,
        items: Vec<Item>,
    },
    /// `call(chosen)`. The place is that of `call`.
    Call {
        place: Place,
        chosen: Box<Expression>,
    },
}

/// `name = new class(arguments)`
#[derive(Drop)]
pub struct NewObject {
    pub name: Name,
    pub class: Class,
    pub arguments: Vec<Argument>,
}

/// What `cout` prints.
#[derive(Drop)]
pub enum Item {
    Expression(Expression),
    /// A string, with its escapes replaced.
    Str(Text),
    /// `endl`
    EndLine,
}
