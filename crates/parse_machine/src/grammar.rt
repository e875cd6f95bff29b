//! The words of the grammar's table: parts, symbols, kinds of token, and rows.
use crate::form::Form;
use comet_syntax::Word;

/// What the grammar sees of a token: whether it is a name, a number or a string, or which sign or
/// keyword it is.
#[derive(Clone, Copy)]
pub enum Kind {
    Name,
    Number,
    Str,
    Word(Word),
}

/// A part of a program.
#[derive(Clone, Copy)]
pub enum Part {
    Program,
    Top,
    ResultKind,
    Parameters,
    ParametersTail,
    Parameter,
    ParameterKind,
    Brackets,
    Template,
    ClassName,
    Block,
    Statements,
    Statement,
    Otherwise,
    OptionalValue,
    ForStart,
    ForStep,
    Events,
    WithMode,
    Generators,
    GeneratorsTail,
    Condition,
    Generator,
    Simple,
    NamedSimple,
    NewValue,
    Write,
    FirstName,
    Item,
    ItemsTail,
    Declaration,
    IntRest,
    StartValue,
    VariableRest,
    Domain,
    VariableStart,
    Maker,
    Dimensions,
    DimensionsTail,
    Dimension,
    DimensionRest,
    Expression,
    Branches,
    OrTail,
    AndTail,
    ComparisonTail,
    RangeTail,
    TotalTail,
    ProductTail,
    Operand,
    Unnamed,
    Pair,
    PairNamed,
    Literal,
    Extreme,
    Postfix,
    Called,
    Suffixes,
    Second,
    Arguments,
    Listed,
    ArgumentsTail,
    Argument,
}

/// What a form consists of.
#[derive(Clone, Copy)]
pub enum Symbol {
    /// A sign or a keyword, whose place the tree doesn't keep.
    Word(Word),
    /// A sign or a keyword, whose place the tree keeps.
    Mark(Word),
    /// A name. The tree keeps its place.
    Named,
    /// A number. The tree keeps its place.
    Numbered,
    /// A string, whose place the tree doesn't keep.
    Quoted,
    /// A part that is as deep as the form.
    Same(Part),
    /// A part that is one deeper than the form.
    Deeper(Part),
    /// A part that is as deep as the form, at the head of a form for all other tokens.
    Onward(Part),
    /// A part that is one deeper than the form, at the head of a form for all other tokens.
    OnwardDeeper(Part),
}

/// A row of the grammar's table: a form of a part, its symbols, and the kinds of token that it begins
/// with. A form for all other tokens begins with none.
#[derive(Clone, Copy)]
pub struct Row {
    pub form: Form,
    pub symbols: &'static [Symbol],
    pub on: &'static [Kind],
}
