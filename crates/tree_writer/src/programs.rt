//! Programs: all that stands at the top, with spaces between.

use crate::declarations::write_generic;
use crate::statements::{write_block, write_statement};
use crate::words::{incremental_word, kind_word};
use crate::writer::Writer;
use comet_syntax::tree::{Function, Incremental, Parameter, ParameterKind, Program, TopPart};

/// `var{int}` and its like.
fn write_variable(writer: &mut Writer, word: Incremental, kind: &str) {
    writer.words(incremental_word(word));
    writer.words(kind);
}

/// The type of a parameter.
fn write_kind(writer: &mut Writer, kind: &ParameterKind) {
    match kind {
        ParameterKind::Int => writer.words("int"),
        ParameterKind::IntArray => writer.words("int[]"),
        ParameterKind::Bool => writer.words("bool"),
        ParameterKind::Range => writer.words("range"),
        ParameterKind::Set => writer.words("set{int}"),
        ParameterKind::Variable(word) => write_variable(writer, *word, "{int}"),
        ParameterKind::VariableArray(word) => write_variable(writer, *word, "{int}[]"),
        ParameterKind::Solver(name) => write_generic(writer, "Solver", Some(name)),
        ParameterKind::LocalSolver => writer.words("LocalSolver"),
        ParameterKind::ConstraintSystem(name) => {
            write_generic(writer, "ConstraintSystem", name.as_ref());
        }
        ParameterKind::BestMonitor => writer.words("BestMonitor"),
    }
}

/// `type name`
fn write_parameter(writer: &mut Writer, parameter: &Parameter) {
    write_kind(writer, &parameter.kind);
    writer.mark(parameter.place);
    writer.words(" ");
    writer.named(&parameter.name);
}

/// Parameters, with commas.
fn write_parameters(writer: &mut Writer, parameters: &[Parameter]) {
    let mut before = "";
    for parameter in parameters {
        writer.words(before);
        write_parameter(writer, parameter);
        before = ", ";
    }
}

/// `(function result name(parameters) block)`
fn write_function(writer: &mut Writer, function: &Function) {
    writer.words("(");
    writer.marked("function", function.place);
    writer.words(" ");
    writer.words(kind_word(function.result));
    writer.words(" ");
    writer.named(&function.name);
    writer.words("(");
    write_parameters(writer, function.parameters.as_slice());
    writer.words(") {");
    write_block(writer, &function.body);
    writer.words(")");
}

/// A part of a program.
fn write_top(writer: &mut Writer, part: &TopPart) {
    match part {
        TopPart::Import(name) => {
            writer.words("(import ");
            writer.named(name);
            writer.words(")");
        }
        TopPart::Include(text) => {
            writer.words("(include ");
            writer.quoted(text);
            writer.words(")");
        }
        TopPart::Function(function) => write_function(writer, function),
        TopPart::Statement(statement) => write_statement(writer, statement),
    }
}

/// Writes a program.
pub fn write_program(writer: &mut Writer, program: &Program) {
    let mut before = "";
    for part in &program.parts {
        writer.words(before);
        write_top(writer, part);
        before = " ";
    }
}
