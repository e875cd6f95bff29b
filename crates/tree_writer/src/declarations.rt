//! Declarations, each in parentheses, and classes.

use crate::expressions::{write_arguments, write_behind, write_expression};
use crate::words::incremental_word;
use crate::writer::Writer;
use cbl_base::Place;
use comet_syntax::tree::{
    Class, ClassKind, Declaration, Dimension, Dimensions, Expression, Incremental, Maker, Name,
    VariableStart,
};

/// A word, and a name in angle brackets where there is one.
pub(crate) fn write_generic(writer: &mut Writer, word: &str, name: Option<&Name>) {
    writer.words(word);
    match name {
        Some(name) => {
            writer.named_behind("<", name);
            writer.words(">");
        }
        None => {}
    }
}

fn write_kind(writer: &mut Writer, kind: &ClassKind) {
    match kind {
        ClassKind::Solver(name) => write_generic(writer, "Solver", Some(name)),
        ClassKind::LocalSolver => writer.words("LocalSolver"),
        ClassKind::ConstraintSystem(name) => {
            write_generic(writer, "ConstraintSystem", name.as_ref());
        }
        ClassKind::FunctionExpr(name) => write_generic(writer, "FunctionExpr", name.as_ref()),
        ClassKind::FunctionSum(name) => write_generic(writer, "FunctionSum", name.as_ref()),
        ClassKind::UniformDistribution => writer.words("UniformDistribution"),
        ClassKind::InputFile => writer.words("InputFile"),
        ClassKind::MinNeighborSelector => writer.words("MinNeighborSelector"),
        ClassKind::BestMonitor => writer.words("BestMonitor"),
        ClassKind::Solution => writer.words("Solution"),
    }
}

/// A class, and its place behind it.
pub(crate) fn write_class(writer: &mut Writer, class: &Class) {
    write_kind(writer, &class.kind);
    writer.mark(class.place);
}

/// `range` or `name in range`.
fn write_dimension(writer: &mut Writer, dimension: &Dimension) {
    if let Some(name) = &dimension.name {
        writer.named(name);
        writer.words(" in ");
    }
    write_expression(writer, &dimension.range);
}

/// ` [dimension]` or ` [dimension, dimension]`, where there are dimensions.
fn write_dimensions(writer: &mut Writer, dimensions: &Option<Dimensions>) {
    let Some(dimensions) = dimensions else {
        return;
    };
    writer.words(" [");
    write_dimension(writer, &dimensions.first);
    if let Some(second) = &dimensions.second {
        writer.words(", ");
        write_dimension(writer, second);
    }
    writer.words("]");
}

/// ` := value`, ` <- term`, or nothing.
fn write_start(writer: &mut Writer, start: &Option<VariableStart>) {
    match start {
        Some(VariableStart::Assign(value)) => write_behind(writer, " := ", Some(value)),
        Some(VariableStart::Define(term)) => write_behind(writer, " <- ", Some(term)),
        None => {}
    }
}

/// `(type name`
fn begin(writer: &mut Writer, kind: &str, place: Place, name: &Name) {
    writer.words("(");
    writer.marked(kind, place);
    writer.named_behind(" ", name);
}

/// `(type name = value)`
fn write_valued(writer: &mut Writer, kind: &str, place: Place, name: &Name, value: &Expression) {
    begin(writer, kind, place, name);
    write_behind(writer, " = ", Some(value));
    writer.words(")");
}

/// `(type name = start)`, or with no start.
fn write_started(
    writer: &mut Writer,
    kind: &str,
    place: Place,
    name: &Name,
    start: &Option<Expression>,
) {
    begin(writer, kind, place, name);
    write_behind(writer, " = ", start.as_ref());
    writer.words(")");
}

/// `(int name [dimensions] = start)`
fn write_int(
    writer: &mut Writer,
    place: Place,
    name: &Name,
    dimensions: &Option<Dimensions>,
    start: &Option<Expression>,
) {
    begin(writer, "int", place, name);
    write_dimensions(writer, dimensions);
    write_behind(writer, " = ", start.as_ref());
    writer.words(")");
}

/// `(var{int} name [dimensions] (solver`, and its like.
fn begin_variable(
    writer: &mut Writer,
    word: Incremental,
    kind: &str,
    place: Place,
    name: &Name,
    dimensions: &Option<Dimensions>,
    solver: &Name,
) {
    writer.words("(");
    writer.words(incremental_word(word));
    writer.marked(kind, place);
    writer.named_behind(" ", name);
    write_dimensions(writer, dimensions);
    writer.named_behind(" (", solver);
}

/// An object's declaration.
fn write_object(writer: &mut Writer, class: &Class, name: &Name, maker: &Maker) {
    writer.words("(");
    write_class(writer, class);
    writer.named_behind(" ", name);
    match maker {
        Maker::Direct(arguments) => write_arguments(writer, arguments.as_slice()),
        Maker::New { made, arguments } => {
            writer.words(" = new ");
            write_class(writer, made);
            write_arguments(writer, arguments.as_slice());
        }
    }
    writer.words(")");
}

/// Writes a declaration.
pub(crate) fn write_declaration(writer: &mut Writer, declaration: &Declaration) {
    match declaration {
        Declaration::Int {
            place,
            name,
            dimensions,
            start,
        } => write_int(writer, *place, name, dimensions, start),
        Declaration::IntArray { place, name, value } => {
            write_valued(writer, "int[]", *place, name, value);
        }
        Declaration::Bool { place, name, start } => {
            write_started(writer, "bool", *place, name, start);
        }
        Declaration::Range { place, name, value } => {
            write_valued(writer, "range", *place, name, value);
        }
        Declaration::Set { place, name, start } => {
            write_started(writer, "set{int}", *place, name, start);
        }
        Declaration::Variable {
            place,
            word,
            name,
            dimensions,
            solver,
            domain,
            start,
        } => {
            begin_variable(writer, *word, "{int}", *place, name, dimensions, solver);
            write_behind(writer, ", ", domain.as_ref());
            writer.words(")");
            write_start(writer, start);
            writer.words(")");
        }
        Declaration::SetVariable {
            place,
            word,
            name,
            dimensions,
            solver,
            definition,
        } => {
            begin_variable(
                writer,
                *word,
                "{set{int}}",
                *place,
                name,
                dimensions,
                solver,
            );
            write_behind(writer, ") <- ", Some(definition));
            writer.words(")");
        }
        Declaration::Object { class, name, maker } => write_object(writer, class, name, maker),
    }
}
