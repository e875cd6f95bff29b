//! The forms of expressions and arguments, one a line (see `notation`).
use crate::first;
use crate::form::{ExpressionForm, Form};
use crate::grammar::{Kind, Part, Row, Symbol};
use crate::notation::{begins, kind, rows, symbols};
use comet_syntax::word;

macro_rules! forms {
    ($($row:tt)*) => { rows!(Expression ExpressionForm $($row)*) };
}

pub static EXPRESSION: [Row; 1] = forms! {
    ExpressionOperand(Operand ProductTail TotalTail RangeTail ComparisonTail AndTail OrTail
        Branches) on EXPRESSION,
};

pub static BRANCHES: [Row; 2] = forms! {
    BranchesQuestion("?" deeper Expression ":" deeper Expression),
    BranchesNone(),
};

pub static OR_TAIL: [Row; 2] = forms! {
    OrTailOrOr(at "||" Operand ProductTail TotalTail RangeTail ComparisonTail AndTail OrTail),
    OrTailNone(),
};

pub static AND_TAIL: [Row; 2] = forms! {
    AndTailAndAnd(at "&&" Operand ProductTail TotalTail RangeTail ComparisonTail AndTail),
    AndTailNone(),
};

pub static COMPARISON_TAIL: [Row; 7] = forms! {
    ComparisonTailEqualEqual(at "==" Operand ProductTail TotalTail RangeTail),
    ComparisonTailNotEqual(at "!=" Operand ProductTail TotalTail RangeTail),
    ComparisonTailLess(at "<" Operand ProductTail TotalTail RangeTail),
    ComparisonTailLessEqual(at "<=" Operand ProductTail TotalTail RangeTail),
    ComparisonTailGreater(at ">" Operand ProductTail TotalTail RangeTail),
    ComparisonTailGreaterEqual(at ">=" Operand ProductTail TotalTail RangeTail),
    ComparisonTailNone(),
};

pub static RANGE_TAIL: [Row; 2] = forms! {
    RangeTailDotDot(at ".." Operand ProductTail TotalTail),
    RangeTailNone(),
};

pub static TOTAL_TAIL: [Row; 3] = forms! {
    TotalTailPlus(at "+" Operand ProductTail TotalTail),
    TotalTailMinus(at "-" Operand ProductTail TotalTail),
    TotalTailNone(),
};

pub static PRODUCT_TAIL: [Row; 4] = forms! {
    ProductTailStar(at "*" Operand ProductTail),
    ProductTailSlash(at "/" Operand ProductTail),
    ProductTailPercent(at "%" Operand ProductTail),
    ProductTailNone(),
};

pub static OPERAND: [Row; 2] = forms! {
    OperandName(name Called Suffixes),
    OperandUnnamed(Unnamed) on UNNAMED,
};

pub static UNNAMED: [Row; 13] = forms! {
    UnnamedLiteral(Literal Suffixes) on LITERAL,
    UnnamedLeftBrace(at "{" Listed "}" Suffixes),
    UnnamedMin(at "min" "(" Pair),
    UnnamedMax(at "max" "(" Pair),
    UnnamedMinus(at "-" deeper Operand),
    UnnamedExclamation(at "!" deeper Operand),
    UnnamedSum(at "sum" "(" Generators ")" deeper Operand deeper ProductTail),
    UnnamedAll(at "all" "(" Generators ")" deeper Operand deeper ProductTail),
    UnnamedAnd(at "and" "(" Generators ")" deeper Operand deeper ProductTail),
    UnnamedOr(at "or" "(" Generators ")" deeper Operand deeper ProductTail),
    UnnamedSetOf(at "setof" "(" Generators ")" deeper Operand deeper ProductTail),
    UnnamedArgMin(at "argMin" "(" Generators ")" deeper Operand deeper ProductTail),
    UnnamedArgMax(at "argMax" "(" Generators ")" deeper Operand deeper ProductTail),
};

pub static PAIR: [Row; 2] = forms! {
    PairFirstName(deeper FirstName PairNamed) on NAME,
    PairUnnamed(deeper Unnamed deeper ProductTail deeper TotalTail deeper RangeTail deeper
        ComparisonTail deeper AndTail deeper OrTail deeper Branches "," deeper Expression ")"
        Suffixes) on UNNAMED,
};

pub static PAIR_NAMED: [Row; 2] = forms! {
    PairNamedIn("in" deeper Expression GeneratorsTail Condition ")" deeper Operand deeper
        ProductTail),
    PairNamedCalled(onward deeper Called deeper Suffixes deeper ProductTail deeper TotalTail
        deeper RangeTail deeper ComparisonTail deeper AndTail deeper OrTail deeper Branches ","
        deeper Expression ")" Suffixes),
};

pub static LITERAL: [Row; 5] = forms! {
    LiteralNumber(number),
    LiteralTrue(at "true"),
    LiteralFalse(at "false"),
    LiteralLeftParenthesis(at "(" deeper Expression ")"),
    LiteralLeftBracket(at "[" Listed "]"),
};

pub static EXTREME: [Row; 2] = forms! {
    ExtremeMin(at "min" "(" deeper Expression "," deeper Expression ")"),
    ExtremeMax(at "max" "(" deeper Expression "," deeper Expression ")"),
};

pub static POSTFIX: [Row; 4] = forms! {
    PostfixName(name Called Suffixes),
    PostfixLiteral(Literal Suffixes) on LITERAL,
    PostfixLeftBrace(at "{" Listed "}" Suffixes),
    PostfixExtreme(Extreme Suffixes) on EXTREME,
};

pub static CALLED: [Row; 2] = forms! {
    CalledLeftParenthesis("(" Arguments ")"),
    CalledNone(),
};

pub static SUFFIXES: [Row; 3] = forms! {
    SuffixesLeftBracket(at "[" deeper Expression Second "]" Suffixes),
    SuffixesDot("." name "(" Arguments ")" Suffixes),
    SuffixesNone(),
};

pub static SECOND: [Row; 2] = forms! {
    SecondComma("," deeper Expression),
    SecondNone(),
};

pub static ARGUMENTS: [Row; 2] = forms! {
    ArgumentsListed(Listed) on ARGUMENT,
    ArgumentsNone(),
};

pub static LISTED: [Row; 1] = forms! {
    ListedArgument(Argument ArgumentsTail) on ARGUMENT,
};

pub static ARGUMENTS_TAIL: [Row; 2] = forms! {
    ArgumentsTailComma("," Argument ArgumentsTail),
    ArgumentsTailNone(),
};

pub static ARGUMENT: [Row; 2] = forms! {
    ArgumentExpression(deeper Expression) on EXPRESSION,
    ArgumentString(string),
};
