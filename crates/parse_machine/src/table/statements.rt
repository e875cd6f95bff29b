//! The forms of statements, one a line (see `notation`).
use crate::first;
use crate::form::{Form, StatementForm};
use crate::grammar::{Kind, Part, Row, Symbol};
use crate::notation::{begins, kind, rows, symbols};
use comet_syntax::word;

macro_rules! forms {
    ($($row:tt)*) => { rows!(Statement StatementForm $($row)*) };
}

pub static BLOCK: [Row; 1] = forms! {
    BlockLeftBrace(at "{" Statements "}"),
};

pub static STATEMENTS: [Row; 2] = forms! {
    StatementsStatement(deeper Statement Statements) on STATEMENT,
    StatementsNone(),
};

pub static STATEMENT: [Row; 16] = forms! {
    StatementBlock(Block) on BLOCK,
    StatementSemicolon(at ";"),
    StatementDeclaration(Declaration ";") on DECLARATION,
    StatementSimple(Simple ";") on SIMPLE,
    StatementReturn(at "return" OptionalValue ";"),
    StatementIf(at "if" "(" deeper Expression ")" deeper Statement Otherwise),
    StatementWhile(at "while" "(" deeper Expression ")" deeper Statement),
    StatementFor(at "for" "(" ForStart ";" OptionalValue ";" ForStep ")" deeper Statement),
    StatementForAll(at "forall" "(" Generators ")" deeper Statement),
    StatementSelect(at "select" "(" Generators ")" deeper Statement),
    StatementSelectMin(at "selectMin" "(" Generators ")" "(" deeper Expression ")" deeper
        Statement),
    StatementSelectMax(at "selectMax" "(" Generators ")" "(" deeper Expression ")" deeper
        Statement),
    StatementNeighbor(at "neighbor" "(" deeper Expression "," name ")" deeper Statement),
    StatementWhenever(at "whenever" deeper Postfix "@" name "(" Events ")" deeper Statement),
    StatementWith(at "with" WithMode "(" name ")" deeper Block),
    StatementParall(at "parall" "(" name "in" deeper Expression ")" deeper Statement),
};

pub static OTHERWISE: [Row; 2] = forms! {
    OtherwiseElse("else" deeper Statement),
    OtherwiseNone(),
};

pub static OPTIONAL_VALUE: [Row; 2] = forms! {
    OptionalValueExpression(deeper Expression) on EXPRESSION,
    OptionalValueNone(),
};

pub static FOR_START: [Row; 2] = forms! {
    ForStartInt("int" name "=" deeper Expression),
    ForStartNone(),
};

pub static FOR_STEP: [Row; 2] = forms! {
    ForStepSimple(Simple) on SIMPLE,
    ForStepNone(),
};

pub static EVENTS: [Row; 2] = forms! {
    EventsInt("int" name "," "int" name),
    EventsNone(),
};

pub static WITH_MODE: [Row; 2] = forms! {
    WithModeAtomic("atomic"),
    WithModeDelay("delay"),
};

pub static GENERATORS: [Row; 1] = forms! {
    GeneratorsGenerator(deeper Generator GeneratorsTail Condition) on NAME,
};

pub static GENERATORS_TAIL: [Row; 2] = forms! {
    GeneratorsTailComma("," deeper Generator GeneratorsTail),
    GeneratorsTailNone(),
};

pub static CONDITION: [Row; 2] = forms! {
    ConditionColon(":" deeper Expression),
    ConditionNone(),
};

pub static GENERATOR: [Row; 1] = forms! {
    GeneratorName(name "in" Expression),
};

pub static SIMPLE: [Row; 5] = forms! {
    SimpleFirstName(deeper FirstName NamedSimple) on NAME,
    SimpleLiteral(deeper Literal deeper Suffixes Write) on LITERAL,
    SimpleExtreme(deeper Extreme deeper Suffixes Write) on EXTREME,
    SimpleCout(at "cout" "<<" Item ItemsTail),
    SimpleCall(at "call" "(" deeper Expression ")"),
};

pub static NAMED_SIMPLE: [Row; 2] = forms! {
    NamedSimpleEqual("=" NewValue),
    NamedSimpleCalled(onward deeper Called deeper Suffixes Write),
};

pub static NEW_VALUE: [Row; 2] = forms! {
    NewValueNew("new" ClassName "(" Arguments ")"),
    NewValueExpression(deeper Expression) on EXPRESSION,
};

pub static WRITE: [Row; 9] = forms! {
    WriteEqual("=" deeper Expression),
    WritePlusEqual("+=" deeper Expression),
    WriteMinusEqual("-=" deeper Expression),
    WriteAssign(":=" deeper Expression),
    WriteArrow("<-" deeper Expression),
    WriteSwap(":=:" deeper Postfix),
    WritePlusPlus("++"),
    WriteMinusMinus("--"),
    WriteNone(),
};

pub static FIRST_NAME: [Row; 1] = forms! {
    FirstNameName(name),
};

pub static ITEM: [Row; 3] = forms! {
    ItemExpression(deeper Expression) on EXPRESSION,
    ItemString(string),
    ItemEndl("endl"),
};

pub static ITEMS_TAIL: [Row; 2] = forms! {
    ItemsTailLessLess("<<" Item ItemsTail),
    ItemsTailNone(),
};
