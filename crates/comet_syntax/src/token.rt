//! The tokens of a text.
use cbl_base::{Place, Text};

/// What is spelled in one way: a sign, or a keyword.
#[derive(Clone, Copy, PartialEq, Eq, Debug)]
pub enum Word {
    /// `(`
    LeftParenthesis,
    /// `)`
    RightParenthesis,
    /// `{`
    LeftBrace,
    /// `}`
    RightBrace,
    /// `[`
    LeftBracket,
    /// `]`
    RightBracket,
    /// `,`
    Comma,
    /// `;`
    Semicolon,
    /// `:`
    Colon,
    /// `:=`
    Assign,
    /// `:=:`
    Swap,
    /// `<-`
    Arrow,
    /// `=`
    Equal,
    /// `==`
    EqualEqual,
    /// `!=`
    NotEqual,
    /// `<`
    Less,
    /// `<=`
    LessEqual,
    /// `>`
    Greater,
    /// `>=`
    GreaterEqual,
    /// `+`
    Plus,
    /// `-`
    Minus,
    /// `*`
    Star,
    /// `/`
    Slash,
    /// `%`
    Percent,
    /// `++`
    PlusPlus,
    /// `--`
    MinusMinus,
    /// `+=`
    PlusEqual,
    /// `-=`
    MinusEqual,
    /// `!`
    Exclamation,
    /// `&&`
    AndAnd,
    /// `||`
    OrOr,
    /// `<<`
    LessLess,
    /// `..`
    DotDot,
    /// `.`
    Dot,
    /// `@`
    At,
    /// `?`
    Question,
    Import,
    Include,
    Function,
    Void,
    Int,
    Bool,
    Var,
    Inc,
    Set,
    Range,
    True,
    False,
    If,
    Else,
    While,
    For,
    ForAll,
    In,
    Select,
    SelectMin,
    SelectMax,
    Neighbor,
    Whenever,
    With,
    Atomic,
    Delay,
    Parall,
    Return,
    New,
    Cout,
    Endl,
    Call,
    Sum,
    Min,
    Max,
    All,
    And,
    Or,
    SetOf,
    ArgMin,
    ArgMax,
    Solver,
    LocalSolver,
    ConstraintSystem,
    FunctionExpr,
    FunctionSum,
    UniformDistribution,
    InputFile,
    MinNeighborSelector,
    BestMonitor,
    Solution,
}

/// What a token is: a name, a number, a string with its escapes replaced, or a sign or a keyword.
#[derive(Drop, Debug)]
pub enum TokenKind {
    Name(Text),
    /// From 0 to 9223372036854775807.
    Number(i64),
    Str(Text),
    Word(Word),
}

/// A token: its kind, where it begins and where it ends in the text (the indices of its first byte and
/// of the byte behind it, from 0), and the place of its first byte.
#[derive(Drop, Debug)]
pub struct Token {
    pub kind: TokenKind,
    pub start: u32,
    pub end: u32,
    pub place: Place,
}
