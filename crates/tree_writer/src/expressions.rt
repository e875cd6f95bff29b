//! Expressions: each operation in parentheses, each literal and call as in a program. What an expression begins with is
//! written, and the others of its parts are put on the list of what is still to be written, so that nothing is too deep.

use crate::part::Part::{Arguments, Behind, Links, Mark, Over, Suffixes, Words};
use crate::part::{Part, put, put_behind, put_comma, put_mark, put_words};
use crate::words::{
    aggregate_word, chain_operator, comparison_operator, extreme_word, truth_word, unary_operator,
};
use crate::writer::Writer;
use cbl_base::Place;
use comet_syntax::tree::{Argument, Expression, Generator, Generators, Link, Suffix};

/// `(test ? then : otherwise)`
fn write_conditional<'a>(
    writer: &mut Writer,
    todo: &mut Vec<Part<'a>>,
    test: &'a Expression,
    then: &'a Expression,
    otherwise: &'a Expression,
) {
    put_words(writer, todo, ")");
    put_behind(writer, todo, " : ", otherwise);
    put_behind(writer, todo, " ? ", then);
    put_behind(writer, todo, "(", test);
}

/// `(left operator right)`
fn write_sides<'a>(
    writer: &mut Writer,
    todo: &mut Vec<Part<'a>>,
    left: &'a Expression,
    operator: &'static str,
    place: Place,
    right: &'a Expression,
) {
    put_words(writer, todo, ")");
    put_behind(writer, todo, " ", right);
    put_mark(writer, todo, operator, place);
    put_words(writer, todo, " ");
    put_behind(writer, todo, "(", left);
}

/// `(word operand)`
fn write_alone<'a>(
    writer: &mut Writer,
    todo: &mut Vec<Part<'a>>,
    word: &str,
    place: Place,
    operand: &'a Expression,
) {
    writer.begin(word, place);
    put_words(writer, todo, ")");
    put_behind(writer, todo, " ", operand);
}

/// `(word (generators) body)`
fn write_aggregate<'a>(
    writer: &mut Writer,
    todo: &mut Vec<Part<'a>>,
    word: &str,
    place: Place,
    generators: &'a Generators,
    body: &'a Expression,
) {
    writer.begin(word, place);
    writer.words(" (");
    put_words(writer, todo, ")");
    put_behind(writer, todo, ") ", body);
    if let Some(condition) = &generators.condition {
        put_behind(writer, todo, " : ", condition);
    }
    put(writer, todo, Over(generators.generators.as_slice()));
}

/// `word(left, right)`
fn write_extreme<'a>(
    writer: &mut Writer,
    todo: &mut Vec<Part<'a>>,
    word: &str,
    place: Place,
    left: &'a Expression,
    right: &'a Expression,
) {
    writer.marked(word, place);
    put_words(writer, todo, ")");
    put_behind(writer, todo, ", ", right);
    put_behind(writer, todo, "(", left);
}

/// `(first links)`
fn write_chain<'a>(
    writer: &mut Writer,
    todo: &mut Vec<Part<'a>>,
    first: &'a Expression,
    links: &'a [Link],
) {
    put_words(writer, todo, ")");
    put(writer, todo, Links(links));
    put_behind(writer, todo, "(", first);
}

/// `(primary suffixes)`
fn write_postfix<'a>(
    writer: &mut Writer,
    todo: &mut Vec<Part<'a>>,
    primary: &'a Expression,
    suffixes: &'a [Suffix],
) {
    put_words(writer, todo, ")");
    put(writer, todo, Suffixes(suffixes));
    put_behind(writer, todo, "(", primary);
}

/// Arguments, and the words with their place that stand behind them.
fn put_listed<'a>(
    writer: &mut Writer,
    todo: &mut Vec<Part<'a>>,
    arguments: &'a [Argument],
    words: &'static str,
    place: Place,
) {
    put_mark(writer, todo, words, place);
    put(writer, todo, Arguments(arguments));
}

/// Arguments, and `)`.
fn put_handed<'a>(writer: &mut Writer, todo: &mut Vec<Part<'a>>, arguments: &'a [Argument]) {
    put_words(writer, todo, ")");
    put(writer, todo, Arguments(arguments));
}

/// Writes what an expression begins with, and puts the others of its parts on the list.
fn write_form<'a>(writer: &mut Writer, todo: &mut Vec<Part<'a>>, expression: &'a Expression) {
    match expression {
        Expression::Conditional {
            test,
            then,
            otherwise,
        } => write_conditional(writer, todo, test, then, otherwise),
        Expression::Chain { first, links } => write_chain(writer, todo, first, links.as_slice()),
        Expression::Comparison {
            left,
            comparison,
            place,
            right,
        } => write_sides(
            writer,
            todo,
            left,
            comparison_operator(*comparison),
            *place,
            right,
        ),
        Expression::Range { low, place, high } => write_sides(
            writer, todo, low, "..", *place, high,
        ),
        Expression::Unary {
            operator,
            place,
            operand,
        } => write_alone(writer, todo, unary_operator(*operator), *place, operand),
        Expression::Aggregate {
            aggregate,
            place,
            generators,
            body,
        } => write_aggregate(
            writer,
            todo,
            aggregate_word(*aggregate),
            *place,
            generators,
            body,
        ),
        Expression::Postfix { primary, suffixes } => {
            write_postfix(writer, todo, primary, suffixes.as_slice());
        }
        Expression::Number { value, place } => {
            writer.number(*value);
            writer.mark(*place);
        }
        Expression::Truth { value, place } => writer.marked(truth_word(*value), *place),
        Expression::Name(name) => writer.named(name),
        Expression::Call { name, arguments } => {
            writer.named(name);
            writer.words("(");
            put_handed(writer, todo, arguments.as_slice());
        }
        Expression::Extreme {
            extreme,
            place,
            left,
            right,
        } => write_extreme(writer, todo, extreme_word(*extreme), *place, left, right),
        Expression::Parentheses { place, inner } => {
            write_alone(writer, todo, "paren", *place, inner);
        }
        Expression::List { place, arguments } => {
            writer.words("[");
            put_listed(writer, todo, arguments.as_slice(), "]", *place);
        }
        Expression::Set { place, arguments } => {
            writer.words("{");
            put_listed(writer, todo, arguments.as_slice(), "}", *place);
        }
    }
}

/// ` operator operand`, and the rest of the links.
fn write_links<'a>(writer: &mut Writer, todo: &mut Vec<Part<'a>>, links: &'a [Link]) {
    let Some(link) = links.first() else {
        return;
    };
    writer.words(" ");
    writer.marked(chain_operator(link.operator), link.place);
    put(writer, todo, Links(&links[1..]));
    put_behind(writer, todo, " ", &link.operand);
}

/// ` [index]`, ` [first, second]` or ` .name(arguments)`, and the rest of the suffixes.
fn write_suffixes<'a>(writer: &mut Writer, todo: &mut Vec<Part<'a>>, suffixes: &'a [Suffix]) {
    let Some(suffix) = suffixes.first() else {
        return;
    };
    put(writer, todo, Suffixes(&suffixes[1..]));
    match suffix {
        Suffix::Index { place, index } => {
            put_mark(writer, todo, "]", *place);
            put_behind(writer, todo, " [", index);
        }
        Suffix::Cell {
            place,
            first,
            second,
        } => {
            put_mark(writer, todo, "]", *place);
            put_behind(writer, todo, ", ", second);
            put_behind(writer, todo, " [", first);
        }
        Suffix::Method { name, arguments } => {
            writer.named_behind(" .", name);
            writer.words("(");
            put_handed(writer, todo, arguments.as_slice());
        }
    }
}

/// The first argument, and the rest behind a comma.
fn write_first<'a>(writer: &mut Writer, todo: &mut Vec<Part<'a>>, arguments: &'a [Argument]) {
    let Some(argument) = arguments.first() else {
        return;
    };
    let rest = &arguments[1..];
    put(writer, todo, Arguments(rest));
    put_comma(writer, todo, rest);
    match argument {
        Argument::Expression(expression) => put_behind(writer, todo, "", expression),
        Argument::Str(text) => writer.quoted(text),
    }
}

/// `name in domain`, and the rest behind a comma.
fn write_bindings<'a>(writer: &mut Writer, todo: &mut Vec<Part<'a>>, generators: &'a [Generator]) {
    let Some(generator) = generators.first() else {
        return;
    };
    let rest = &generators[1..];
    writer.named(&generator.name);
    put(writer, todo, Over(rest));
    put_comma(writer, todo, rest);
    put_behind(writer, todo, " in ", &generator.domain);
}

/// Writes the next part, and puts what follows of it on the list.
fn write_part<'a>(writer: &mut Writer, todo: &mut Vec<Part<'a>>, part: Part<'a>) {
    match part {
        Words(words) => writer.words(words),
        Mark(words, place) => writer.marked(words, place),
        Behind(words, expression) => {
            writer.words(words);
            write_form(writer, todo, expression);
        }
        Links(links) => write_links(writer, todo, links),
        Suffixes(suffixes) => write_suffixes(writer, todo, suffixes),
        Arguments(arguments) => write_first(writer, todo, arguments),
        Over(generators) => write_bindings(writer, todo, generators),
    }
}

/// Writes what is on the list.
fn write_rest(writer: &mut Writer, todo: &mut Vec<Part<'_>>) {
    for _turn in 0..u64::MAX {
        let Some(part) = todo.pop() else {
            break;
        };
        write_part(writer, todo, part);
    }
}

/// Writes an expression.
pub(crate) fn write_expression(writer: &mut Writer, expression: &Expression) {
    let mut todo = Vec::new(writer.alloc);
    write_form(writer, &mut todo, expression);
    write_rest(writer, &mut todo);
}

/// Writes an expression behind words, where there is one.
pub(crate) fn write_behind(writer: &mut Writer, words: &str, expression: Option<&Expression>) {
    if let Some(expression) = expression {
        writer.words(words);
        write_expression(writer, expression);
    }
}

/// Writes arguments, with commas, in parentheses.
pub(crate) fn write_arguments(writer: &mut Writer, arguments: &[Argument]) {
    let mut todo = Vec::new(writer.alloc);
    writer.words("(");
    put_handed(writer, &mut todo, arguments);
    write_rest(writer, &mut todo);
}

/// Writes generators, with commas, and their condition behind `:`, in parentheses.
pub(crate) fn write_generators(writer: &mut Writer, generators: &Generators) {
    let mut todo = Vec::new(writer.alloc);
    writer.words("(");
    put(writer, &mut todo, Over(generators.generators.as_slice()));
    write_rest(writer, &mut todo);
    write_behind(writer, " : ", generators.condition.as_deref());
    writer.words(")");
}
