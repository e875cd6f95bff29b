//! Statements, each in parentheses that begin with its keyword, and blocks in braces. The statements in a statement are
//! put on a list, so that nothing is too deep.

use crate::declarations::write_declaration;
use crate::heads::{
    write_for, write_named, write_neighbor, write_over, write_parall, write_return, write_test,
    write_whenever,
};
use crate::simples::write_simple;
use crate::words::{selector_word, with_words};
use crate::writer::Writer;
use cbl_base::Place;
use comet_syntax::tree::{Block, Statement};
use std::slice::from_ref;

/// What is still to be written.
#[derive(Clone, Copy)]
enum Rest<'a> {
    /// As it stands.
    Words(&'static str),
    /// The end of the block that began there.
    End(Place),
    /// Each behind a space.
    Statements(&'a [Statement]),
}

/// Puts one more on the list.
fn put<'a>(writer: &mut Writer, todo: &mut Vec<Rest<'a>>, rest: Rest<'a>) {
    if todo.push(rest).is_err() {
        writer.is_full = true;
    }
}

/// Puts a statement on the list, and words behind it.
fn put_body<'a>(
    writer: &mut Writer,
    todo: &mut Vec<Rest<'a>>,
    body: &'a Statement,
    words: &'static str,
) {
    put(writer, todo, Rest::Words(words));
    put(writer, todo, Rest::Statements(from_ref(body)));
}

/// Puts the statements of a block on the list, and words behind its end.
fn put_block<'a>(
    writer: &mut Writer,
    todo: &mut Vec<Rest<'a>>,
    block: &'a Block,
    words: &'static str,
) {
    put(writer, todo, Rest::Words(words));
    put(writer, todo, Rest::End(block.place));
    put(writer, todo, Rest::Statements(block.statements.as_slice()));
}

/// Puts the statements of an `if` on the list.
fn put_branches<'a>(
    writer: &mut Writer,
    todo: &mut Vec<Rest<'a>>,
    then: &'a Statement,
    otherwise: Option<&'a Statement>,
) {
    match otherwise {
        Some(otherwise) => {
            put_body(writer, todo, otherwise, ")");
            put_body(writer, todo, then, " else");
        }
        None => put_body(writer, todo, then, ")"),
    }
}

/// Writes what stands in a statement before those in it, and puts these on the list.
fn write_form<'a>(writer: &mut Writer, todo: &mut Vec<Rest<'a>>, statement: &'a Statement) {
    match statement {
        Statement::Block(block) => {
            writer.words("{");
            put_block(writer, todo, block, "");
        }
        Statement::Empty(place) => writer.marked(";", *place),
        Statement::Declaration(declaration) => write_declaration(writer, declaration),
        Statement::Simple(simple) => write_simple(writer, simple),
        Statement::Return { place, value } => write_return(writer, *place, value.as_deref()),
        Statement::If {
            place,
            test,
            then,
            otherwise,
        } => {
            write_test(writer, "if", *place, test);
            put_branches(writer, todo, then, otherwise.as_deref());
        }
        Statement::While { place, test, body } => {
            write_test(writer, "while", *place, test);
            put_body(writer, todo, body, ")");
        }
        Statement::For { place, head, body } => {
            write_for(writer, *place, head);
            put_body(writer, todo, body, ")");
        }
        Statement::ForAll {
            place,
            generators,
            body,
        } => {
            write_over(writer, "forall", *place, generators, None);
            put_body(writer, todo, body, ")");
        }
        Statement::Select {
            place,
            generators,
            body,
        } => {
            write_over(writer, "select", *place, generators, None);
            put_body(writer, todo, body, ")");
        }
        Statement::SelectBy {
            place,
            extreme,
            generators,
            key,
            body,
        } => {
            write_over(
                writer,
                selector_word(*extreme),
                *place,
                generators,
                Some(key),
            );
            put_body(writer, todo, body, ")");
        }
        Statement::Neighbor {
            place,
            key,
            selector,
            body,
        } => {
            write_neighbor(writer, *place, key, selector);
            put_body(writer, todo, body, ")");
        }
        Statement::Whenever {
            place,
            watched,
            body,
        } => {
            write_whenever(writer, *place, watched);
            put_body(writer, todo, body, ")");
        }
        Statement::With {
            place,
            mode,
            solver,
            body,
        } => {
            write_named(writer, with_words(*mode), *place, solver);
            writer.words(" {");
            put_block(writer, todo, body, ")");
        }
        Statement::Parall {
            place,
            name,
            domain,
            body,
        } => {
            write_parall(writer, *place, name, domain);
            put_body(writer, todo, body, ")");
        }
    }
}

/// Writes the first statement behind a space, and puts the others on the list.
fn write_first<'a>(writer: &mut Writer, todo: &mut Vec<Rest<'a>>, statements: &'a [Statement]) {
    let Some(statement) = statements.first() else {
        return;
    };
    put(writer, todo, Rest::Statements(&statements[1..]));
    writer.words(" ");
    write_form(writer, todo, statement);
}

/// Writes what is on the list.
fn write_rest(writer: &mut Writer, todo: &mut Vec<Rest<'_>>) {
    for _turn in 0..u64::MAX {
        let Some(rest) = todo.pop() else {
            break;
        };
        match rest {
            Rest::Words(words) => writer.words(words),
            Rest::End(place) => writer.marked(" }", place),
            Rest::Statements(statements) => write_first(writer, todo, statements),
        }
    }
}

/// Writes a statement.
pub(crate) fn write_statement(writer: &mut Writer, statement: &Statement) {
    let mut todo = Vec::new(writer.alloc);
    write_form(writer, &mut todo, statement);
    write_rest(writer, &mut todo);
}

/// Writes a block from its first statement, each behind a space.
pub(crate) fn write_block(writer: &mut Writer, block: &Block) {
    let mut todo = Vec::new(writer.alloc);
    put_block(writer, &mut todo, block, "");
    write_rest(writer, &mut todo);
}
