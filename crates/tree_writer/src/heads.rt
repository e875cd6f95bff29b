//! What stands in a statement before the statements in it.

use crate::expressions::{write_behind, write_expression, write_generators};
use crate::simples::write_simple;
use crate::writer::Writer;
use cbl_base::Place;
use comet_syntax::tree::{Events, Expression, ForHead, ForStart, Generators, Name, Watched};

/// `(word`
pub(crate) fn begin(writer: &mut Writer, word: &str, place: Place) {
    writer.words("(");
    writer.marked(word, place);
}

/// `(return value)`, or with no value.
pub(crate) fn write_return(writer: &mut Writer, place: Place, value: Option<&Expression>) {
    begin(writer, "return", place);
    write_behind(writer, " ", value);
    writer.words(")");
}

/// `(word test`
pub(crate) fn write_test(writer: &mut Writer, word: &str, place: Place, test: &Expression) {
    begin(writer, word, place);
    write_behind(writer, " ", Some(test));
}

fn write_counter(writer: &mut Writer, start: &ForStart) {
    writer.words("int ");
    writer.named(&start.name);
    write_behind(writer, " = ", Some(&start.value))
}

/// `(for (int name = value; test; step)`, where each of the three may be left out.
pub(crate) fn write_for(writer: &mut Writer, place: Place, head: &ForHead) {
    begin(writer, "for", place);
    writer.words(" (");
    if let Some(start) = &head.start {
        write_counter(writer, start);
    }
    writer.words(";");
    write_behind(writer, " ", head.test.as_ref());
    writer.words(";");
    if let Some(step) = &head.step {
        writer.words(" ");
        write_simple(writer, step);
    }
    writer.words(")");
}

/// `(word (generators)`, or with a key behind the generators.
pub(crate) fn write_over(
    writer: &mut Writer,
    word: &str,
    place: Place,
    generators: &Generators,
    key: Option<&Expression>,
) {
    begin(writer, word, place);
    writer.words(" ");
    write_generators(writer, generators);
    write_behind(writer, " ", key);
}

/// `(neighbor key selector`
pub(crate) fn write_neighbor(writer: &mut Writer, place: Place, key: &Expression, selector: &Name) {
    write_test(writer, "neighbor", place, key);
    writer.words(" ");
    writer.named(selector);
}

fn write_events(writer: &mut Writer, names: &Events) {
    writer.words(" (");
    writer.named(&names.old);
    writer.words(", ");
    writer.named(&names.new);
    writer.words(")");
}

/// `(whenever variable @ event (old, new)`, or with no names.
pub(crate) fn write_whenever(writer: &mut Writer, place: Place, watched: &Watched) {
    write_test(writer, "whenever", place, &watched.variable);
    writer.words(" @ ");
    writer.named(&watched.event);
    match &watched.names {
        Some(names) => write_events(writer, names),
        None => {}
    }
}

/// `(word name`
pub(crate) fn write_named(writer: &mut Writer, word: &str, place: Place, name: &Name) {
    begin(writer, word, place);
    writer.words(" ");
    writer.named(name);
}

/// `(parall name in domain`
pub(crate) fn write_parall(writer: &mut Writer, place: Place, name: &Name, domain: &Expression) {
    write_named(writer, "parall", place, name);
    writer.words(" in ");
    write_expression(writer, domain);
}
