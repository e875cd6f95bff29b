//! The tree of a program: one type for each production of the grammar.
//!
//! A tree keeps the place of each token that the rules of the language speak of: of names, numbers and
//! operators, of what opens a primary, and of the word that a statement or a declaration begins with.
//! Operands of one binding level stand side by side in one chain, and so do the suffixes of a postfix
//! form, so that only parentheses and their like nest.

mod declarations;
mod expressions;
mod program;
mod statements;

pub use declarations::{
    Class, ClassKind, Declaration, Dimension, Dimensions, Incremental, Maker, VariableStart,
};
pub use expressions::{
    Aggregate, Argument, ChainOperator, Comparison, Expression, Extreme, Generator, Generators,
    Link, Name, Suffix, UnaryOperator,
};
pub use program::{Function, Parameter, ParameterKind, Program, ResultKind, TopPart};
pub use statements::{
    Block, Events, ForHead, ForStart, Item, NewObject, Simple, Statement, Step, Watched, WithMode,
    WriteOperator,
};
