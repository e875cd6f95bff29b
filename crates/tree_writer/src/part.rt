//! What is still to be written of an expression.

use crate::writer::Writer;
use cbl_base::Place;
use comet_syntax::tree::{Argument, Expression, Generator, Link, Suffix};

/// A piece of an expression's text that is still to be written.
#[derive(Clone, Copy)]
pub(crate) enum Part<'a> {
    /// As it stands.
    Words(&'static str),
    /// As it stands, with its place behind it.
    Mark(&'static str, Place),
    /// Behind words.
    Behind(&'static str, &'a Expression),
    /// Each behind a space and its operator.
    Links(&'a [Link]),
    /// Each behind a space.
    Suffixes(&'a [Suffix]),
    /// With commas.
    Arguments(&'a [Argument]),
    /// With commas.
    Over(&'a [Generator]),
}

/// Puts a part before what is still to be written.
pub(crate) fn put<'a>(writer: &mut Writer, todo: &mut Vec<Part<'a>>, part: Part<'a>) {
    if todo.push(part).is_err() {
        writer.is_full = true;
    }
}

/// Puts words before what is still to be written.
pub(crate) fn put_words(writer: &mut Writer, todo: &mut Vec<Part<'_>>, words: &'static str) {
    put(writer, todo, Part::Words(words));
}

/// Puts words with their place before what is still to be written.
pub(crate) fn put_mark(
    writer: &mut Writer,
    todo: &mut Vec<Part<'_>>,
    words: &'static str,
    place: Place,
) {
    put(writer, todo, Part::Mark(words, place));
}

/// Puts words and an expression before what is still to be written.
pub(crate) fn put_behind<'a>(
    writer: &mut Writer,
    todo: &mut Vec<Part<'a>>,
    words: &'static str,
    expression: &'a Expression,
) {
    put(writer, todo, Part::Behind(words, expression));
}

/// Puts a comma before what is still to be written, where a rest of a list goes on there.
pub(crate) fn put_comma<T>(writer: &mut Writer, todo: &mut Vec<Part<'_>>, rest: &[T]) {
    if !rest.is_empty() {
        put_words(writer, todo, ", ");
    }
}
