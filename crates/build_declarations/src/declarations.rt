//! Declarations, and what their names start with.
ghost use Rattle.std.specs.Prelude.{◌≡◌, IfOk, reverse};
ghost use Rattle.comet_syntax.specs.Grammar.Declarations.{declaration_var};
ghost use Rattle.comet_syntax.specs.Grammar.Symbols.{declaration};
ghost use Rattle.parse_machine.specs.Forms.{part_in_declaration, body_in_declaration};
ghost use Rattle.parse_machine.specs.declared.form.DeclarationForm.TheVariants as forms;
ghost use Rattle.parse_stacks.specs.Undoing.{Ready, Undone};
ghost use Rattle.build_declarations.specs.MadeDeclarations.{Made, IsReady, IsUndone, IsDirect, IsNew, int_declaration, variable_declaration};

use crate::dimensions::{
    undo_called_rest, undo_dimensions, undo_named_dimension, undo_no_dimensions,
    undo_no_second_dimension, undo_range_rest, undo_second_dimension, undo_unnamed_dimension,
};
use cbl_base::{NoMemory, Place};
use comet_syntax::tree::{Argument, Class, Declaration, Incremental, Maker, VariableStart};
use parse_machine::DeclarationForm;
use parse_stacks::{IntRest, Stacks, VariableRest, put, take};
use std::alloc::Global;

fn declare_int(place: Place, rest: IntRest) -> Declaration
    ensures { result ≡ int_declaration place rest }
{
    match rest {
        IntRest::Array { name, value } => Declaration::IntArray { place, name, value },
        IntRest::Plain {
            name,
            dimensions,
            start,
        } => Declaration::Int {
            place,
            name,
            dimensions,
            start,
        },
    }
}

fn declare_variable(place: Place, word: Incremental, rest: VariableRest) -> Declaration
    ensures { result ≡ variable_declaration place word rest }
{
    match rest {
        VariableRest::Number {
            name,
            dimensions,
            solver,
            domain,
            start,
        } => Declaration::Variable {
            place,
            word,
            name,
            dimensions,
            solver,
            domain,
            start,
        },
        VariableRest::Set {
            name,
            dimensions,
            solver,
            definition,
        } => Declaration::SetVariable {
            place,
            word,
            name,
            dimensions,
            solver,
            definition,
        },
    }
}

// Of an object by its arguments, which are given the last one first.
fn make_direct(arguments: Vec<Argument>) -> Maker
    ensures { IsDirect (reverse arguments.items) result }
{
    let mut arguments = arguments;
    arguments.reverse();
    Maker::Direct(arguments)
}

// The same with `new`.
fn make_new(made: Class, arguments: Vec<Argument>) -> Maker
    ensures { IsNew made (reverse arguments.items) result }
{
    let mut arguments = arguments;
    arguments.reverse();
    Maker::New { made, arguments }
}

// `int` and what stands behind it
fn undo_int(stacks: &mut Stacks) -> Result<(), NoMemory>
    requires { IsReady forms.DeclarationInt stacks.old }
    ensures { IfOk result (λ _. IsUndone forms.DeclarationInt stacks.old stacks.new) }
{
    let place = take(&mut stacks.places);
    let rest = take(&mut stacks.int_rests);
    put(&mut stacks.declarations, declare_int(place, rest))
}

// `bool name = start`
fn undo_bool(stacks: &mut Stacks) -> Result<(), NoMemory>
    requires { IsReady forms.DeclarationBool stacks.old }
    ensures { IfOk result (λ _. IsUndone forms.DeclarationBool stacks.old stacks.new) }
{
    let place = take(&mut stacks.places);
    let name = take(&mut stacks.names);
    let start = take(&mut stacks.optional);
    put(
        &mut stacks.declarations,
        Declaration::Bool { place, name, start },
    )
}

// `range name = value`
fn undo_range(stacks: &mut Stacks) -> Result<(), NoMemory>
    requires { IsReady forms.DeclarationRange stacks.old }
    ensures { IfOk result (λ _. IsUndone forms.DeclarationRange stacks.old stacks.new) }
{
    let place = take(&mut stacks.places);
    let name = take(&mut stacks.names);
    let value = take(&mut stacks.expressions);
    put(
        &mut stacks.declarations,
        Declaration::Range { place, name, value },
    )
}

// `set{int} name = start`
fn undo_set(stacks: &mut Stacks) -> Result<(), NoMemory>
    requires { IsReady forms.DeclarationSet stacks.old }
    ensures { IfOk result (λ _. IsUndone forms.DeclarationSet stacks.old stacks.new) }
{
    let place = take(&mut stacks.places);
    let name = take(&mut stacks.names);
    let start = take(&mut stacks.optional);
    put(
        &mut stacks.declarations,
        Declaration::Set { place, name, start },
    )
}

// `var{` or `inc{` and what stands behind it
fn undo_variable(stacks: &mut Stacks, word: Incremental) -> Result<(), NoMemory>
    requires { IsReady forms.DeclarationVar stacks.old }
    ensures { IfOk result (λ _. Undone declaration declaration_var
        (λ v x. x ≡ variable_declaration v.0 word v.1.1.0) stacks.old stacks.new) }
{
    let place = take(&mut stacks.places);
    let rest = take(&mut stacks.variable_rests);
    put(
        &mut stacks.declarations,
        declare_variable(place, word, rest),
    )
}

// `class name` and how the object is made
fn undo_object(stacks: &mut Stacks) -> Result<(), NoMemory>
    requires { IsReady forms.DeclarationClassName stacks.old }
    ensures { IfOk result (λ _. IsUndone forms.DeclarationClassName stacks.old stacks.new) }
{
    let class = take(&mut stacks.classes);
    let name = take(&mut stacks.names);
    let maker = take(&mut stacks.makers);
    put(
        &mut stacks.declarations,
        Declaration::Object { class, name, maker },
    )
}

// `[] name = value`
fn undo_array_rest(stacks: &mut Stacks) -> Result<(), NoMemory>
    requires { IsReady forms.IntRestLeftBracket stacks.old }
    ensures { IfOk result (λ _. IsUndone forms.IntRestLeftBracket stacks.old stacks.new) }
{
    let name = take(&mut stacks.names);
    let value = take(&mut stacks.expressions);
    put(&mut stacks.int_rests, IntRest::Array { name, value })
}

// `name dimensions = start`
fn undo_plain_rest(stacks: &mut Stacks) -> Result<(), NoMemory>
    requires { IsReady forms.IntRestName stacks.old }
    ensures { IfOk result (λ _. IsUndone forms.IntRestName stacks.old stacks.new) }
{
    let name = take(&mut stacks.names);
    let dimensions = take(&mut stacks.all_dimensions);
    let start = take(&mut stacks.optional);
    put(
        &mut stacks.int_rests,
        IntRest::Plain {
            name,
            dimensions,
            start,
        },
    )
}

// `int} name dimensions (solver, domain) := start`
fn undo_number_rest(stacks: &mut Stacks) -> Result<(), NoMemory>
    requires { IsReady forms.VariableRestInt stacks.old }
    ensures { IfOk result (λ _. IsUndone forms.VariableRestInt stacks.old stacks.new) }
{
    let name = take(&mut stacks.names);
    let dimensions = take(&mut stacks.all_dimensions);
    let solver = take(&mut stacks.names);
    let domain = take(&mut stacks.optional);
    let start = take(&mut stacks.variable_starts);
    put(
        &mut stacks.variable_rests,
        VariableRest::Number {
            name,
            dimensions,
            solver,
            domain,
            start,
        },
    )
}

// `set{int}} name dimensions (solver) <- definition`
fn undo_set_rest(stacks: &mut Stacks) -> Result<(), NoMemory>
    requires { IsReady forms.VariableRestSet stacks.old }
    ensures { IfOk result (λ _. IsUndone forms.VariableRestSet stacks.old stacks.new) }
{
    let name = take(&mut stacks.names);
    let dimensions = take(&mut stacks.all_dimensions);
    let solver = take(&mut stacks.names);
    let definition = take(&mut stacks.expressions);
    put(
        &mut stacks.variable_rests,
        VariableRest::Set {
            name,
            dimensions,
            solver,
            definition,
        },
    )
}

// `= value` or `, domain`
fn undo_value(stacks: &mut Stacks) -> Result<(), NoMemory>
    requires { IsReady forms.StartValueEqual stacks.old }
    ensures { IfOk result (λ _. IsUndone forms.StartValueEqual stacks.old stacks.new) }
{
    let value = take(&mut stacks.expressions);
    put(&mut stacks.optional, Some(value))
}

// No value and no domain
fn undo_no_value(stacks: &mut Stacks) -> Result<(), NoMemory>
    ensures { IfOk result (λ _. IsUndone forms.StartValueNone stacks.old stacks.new) }
{
    put(&mut stacks.optional, None)
}

// No value or definition of a variable
fn undo_no_start(stacks: &mut Stacks) -> Result<(), NoMemory>
    ensures { IfOk result (λ _. IsUndone forms.VariableStartNone stacks.old stacks.new) }
{
    put(&mut stacks.variable_starts, None)
}

// `:= value`
fn undo_assigned(stacks: &mut Stacks) -> Result<(), NoMemory>
    requires { IsReady forms.VariableStartAssign stacks.old }
    ensures { IfOk result (λ _. IsUndone forms.VariableStartAssign stacks.old stacks.new) }
{
    let value = take(&mut stacks.expressions);
    put(
        &mut stacks.variable_starts,
        Some(VariableStart::Assign(value)),
    )
}

// `<- term`
fn undo_defined(stacks: &mut Stacks) -> Result<(), NoMemory>
    requires { IsReady forms.VariableStartArrow stacks.old }
    ensures { IfOk result (λ _. IsUndone forms.VariableStartArrow stacks.old stacks.new) }
{
    let term = take(&mut stacks.expressions);
    put(
        &mut stacks.variable_starts,
        Some(VariableStart::Define(term)),
    )
}

// `(arguments)`
fn undo_direct(stacks: &mut Stacks) -> Result<(), NoMemory>
    requires { IsReady forms.MakerLeftParenthesis stacks.old }
    ensures { IfOk result (λ _. IsUndone forms.MakerLeftParenthesis stacks.old stacks.new) }
{
    let arguments = take(&mut stacks.lists);
    put(&mut stacks.makers, make_direct(arguments))
}

// `= new class(arguments)`
fn undo_new(stacks: &mut Stacks) -> Result<(), NoMemory>
    requires { IsReady forms.MakerEqual stacks.old }
    ensures { IfOk result (λ _. IsUndone forms.MakerEqual stacks.old stacks.new) }
{
    let made = take(&mut stacks.classes);
    let arguments = take(&mut stacks.lists);
    put(&mut stacks.makers, make_new(made, arguments))
}

/// Undoes a form of declarations: takes the values of its symbols off the stacks, and puts what is made of them there.
pub fn undo_declaration(
    alloc: Global,
    stacks: &mut Stacks,
    form: DeclarationForm,
) -> Result<(), NoMemory>
    requires { Ready (body_in_declaration form) stacks.old }
    ensures { IfOk result (λ _. Undone (part_in_declaration form) (body_in_declaration form)
        (Made form) stacks.old stacks.new) }
{
    match form {
        DeclarationForm::DeclarationInt => undo_int(stacks),
        DeclarationForm::DeclarationBool => undo_bool(stacks),
        DeclarationForm::DeclarationRange => undo_range(stacks),
        DeclarationForm::DeclarationSet => undo_set(stacks),
        DeclarationForm::DeclarationVar => undo_variable(stacks, Incremental::Var),
        DeclarationForm::DeclarationInc => undo_variable(stacks, Incremental::Inc),
        DeclarationForm::DeclarationClassName => undo_object(stacks),
        DeclarationForm::IntRestLeftBracket => undo_array_rest(stacks),
        DeclarationForm::IntRestName => undo_plain_rest(stacks),
        DeclarationForm::StartValueNone => undo_no_value(stacks),
        DeclarationForm::StartValueEqual => undo_value(stacks),
        DeclarationForm::VariableRestInt => undo_number_rest(stacks),
        DeclarationForm::VariableRestSet => undo_set_rest(stacks),
        DeclarationForm::DomainNone => undo_no_value(stacks),
        DeclarationForm::DomainComma => undo_value(stacks),
        DeclarationForm::VariableStartNone => undo_no_start(stacks),
        DeclarationForm::VariableStartAssign => undo_assigned(stacks),
        DeclarationForm::VariableStartArrow => undo_defined(stacks),
        DeclarationForm::MakerLeftParenthesis => undo_direct(stacks),
        DeclarationForm::MakerEqual => undo_new(stacks),
        DeclarationForm::DimensionsNone => undo_no_dimensions(stacks),
        DeclarationForm::DimensionsLeftBracket => undo_dimensions(stacks),
        DeclarationForm::DimensionsTailNone => undo_no_second_dimension(stacks),
        DeclarationForm::DimensionsTailComma => undo_second_dimension(stacks),
        DeclarationForm::DimensionName => undo_named_dimension(alloc, stacks),
        DeclarationForm::DimensionUnnamed => undo_unnamed_dimension(alloc, stacks),
        DeclarationForm::DimensionRestIn => undo_range_rest(stacks),
        DeclarationForm::DimensionRestCalled => undo_called_rest(stacks),
    }
}
