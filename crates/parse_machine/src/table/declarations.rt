//! The forms of declarations, one a line (see `notation`).
use crate::first;
use crate::form::{DeclarationForm, Form};
use crate::grammar::{Kind, Part, Row, Symbol};
use crate::notation::{begins, kind, rows, symbols};
use comet_syntax::word;

macro_rules! forms {
    ($($row:tt)*) => { rows!(Declaration DeclarationForm $($row)*) };
}

pub static DECLARATION: [Row; 7] = forms! {
    DeclarationInt(at "int" IntRest),
    DeclarationBool(at "bool" name StartValue),
    DeclarationRange(at "range" name "=" deeper Expression),
    DeclarationSet(at "set" "{" "int" "}" name StartValue),
    DeclarationVar(at "var" "{" VariableRest),
    DeclarationInc(at "inc" "{" VariableRest),
    DeclarationClassName(ClassName name Maker) on CLASS,
};

pub static INT_REST: [Row; 2] = forms! {
    IntRestLeftBracket("[" "]" name "=" deeper Expression),
    IntRestName(name Dimensions StartValue),
};

pub static START_VALUE: [Row; 2] = forms! {
    StartValueEqual("=" deeper Expression),
    StartValueNone(),
};

pub static VARIABLE_REST: [Row; 2] = forms! {
    VariableRestInt("int" "}" name Dimensions "(" name Domain ")" VariableStart),
    VariableRestSet("set" "{" "int" "}" "}" name Dimensions "(" name ")" "<-" deeper Expression),
};

pub static DOMAIN: [Row; 2] = forms! {
    DomainComma("," deeper Expression),
    DomainNone(),
};

pub static VARIABLE_START: [Row; 3] = forms! {
    VariableStartAssign(":=" deeper Expression),
    VariableStartArrow("<-" deeper Expression),
    VariableStartNone(),
};

pub static MAKER: [Row; 2] = forms! {
    MakerLeftParenthesis("(" Arguments ")"),
    MakerEqual("=" "new" ClassName "(" Arguments ")"),
};

pub static DIMENSIONS: [Row; 2] = forms! {
    DimensionsLeftBracket("[" deeper Dimension DimensionsTail "]"),
    DimensionsNone(),
};

pub static DIMENSIONS_TAIL: [Row; 2] = forms! {
    DimensionsTailComma("," deeper Dimension),
    DimensionsTailNone(),
};

pub static DIMENSION: [Row; 2] = forms! {
    DimensionName(name DimensionRest),
    DimensionUnnamed(Unnamed ProductTail TotalTail RangeTail ComparisonTail AndTail OrTail
        Branches) on UNNAMED,
};

pub static DIMENSION_REST: [Row; 2] = forms! {
    DimensionRestIn("in" Expression),
    DimensionRestCalled(onward Called Suffixes ProductTail TotalTail RangeTail ComparisonTail
        AndTail OrTail Branches),
};
