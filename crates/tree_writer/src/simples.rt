//! Simple statements. A postfix form alone stands as it is, and each other one in parentheses.

use crate::declarations::write_class;
use crate::expressions::{write_arguments, write_expression};
use crate::words::{step_operator, write_operator};
use crate::writer::Writer;
use cbl_base::Place;
use comet_syntax::tree::{Expression, Item, NewObject, Simple};

/// `(left operator right)`
fn write_sides(writer: &mut Writer, left: &Expression, operator: &str, right: &Expression) {
    writer.words("(");
    write_expression(writer, left);
    writer.words(" ");
    writer.words(operator);
    writer.words(" ");
    write_expression(writer, right);
    writer.words(")");
}

/// `(target operator)`
fn write_step(writer: &mut Writer, target: &Expression, operator: &str) {
    writer.words("(");
    write_expression(writer, target);
    writer.words(" ");
    writer.words(operator);
    writer.words(")");
}

/// `(name = new class(arguments))`
fn write_new(writer: &mut Writer, made: &NewObject) {
    writer.words("(");
    writer.named(&made.name);
    writer.words(" = new ");
    write_class(writer, &made.class);
    write_arguments(writer, made.arguments.as_slice());
    writer.words(")");
}

fn write_item(writer: &mut Writer, item: &Item) {
    writer.words(" << ");
    match item {
        Item::Expression(expression) => write_expression(writer, expression),
        Item::Str(text) => writer.quoted(text),
        Item::EndLine => writer.words("endl"),
    }
}

/// `(cout << item << item)`
fn write_print(writer: &mut Writer, place: Place, items: &[Item]) {
    writer.words("(");
    writer.marked("cout", place);
    for item in items {
        write_item(writer, item);
    }
    writer.words(")");
}

/// `(call chosen)`
fn write_call(writer: &mut Writer, place: Place, chosen: &Expression) {
    writer.words("(");
    writer.marked("call", place);
    writer.words(" ");
    write_expression(writer, chosen);
    writer.words(")");
}

/// Writes a simple statement.
pub(crate) fn write_simple(writer: &mut Writer, simple: &Simple) {
    match simple {
        Simple::Write {
            target,
            operator,
            value,
        } => write_sides(writer, target, write_operator(*operator), value),
        Simple::Swap { left, right } => write_sides(writer, left, ":=:", right),
        Simple::Step { target, step } => write_step(writer, target, step_operator(*step)),
        Simple::Postfix(expression) => write_expression(writer, expression),
        Simple::New(made) => write_new(writer, made),
        Simple::Print { place, items } => write_print(writer, *place, items.as_slice()),
        Simple::Call { place, chosen } => write_call(writer, *place, chosen),
    }
}
