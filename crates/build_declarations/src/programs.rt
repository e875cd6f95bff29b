//! What stands at the top of a program.
ghost use Rattle.std.specs.Prelude.{◌≡◌, IfOk, reverse};
ghost use Rattle.comet_syntax.specs.Grammar.Programs.{result_kind_void};
ghost use Rattle.comet_syntax.specs.Grammar.Symbols.{result_kind};
ghost use Rattle.parse_machine.specs.Forms.{part_in_program, body_in_program};
ghost use Rattle.parse_machine.specs.declared.form.ProgramForm.TheVariants as forms;
ghost use Rattle.parse_stacks.specs.Undoing.{Ready, Undone};
ghost use Rattle.build_declarations.specs.MadePrograms.{Made, IsReady, IsUndone, IsFunctionPart};

use crate::classes::{
    Templated, undo_class, undo_no_template, undo_solver, undo_template, undo_templated,
};
use crate::parameters::{
    undo_brackets, undo_int_kind, undo_kind, undo_no_parameters, undo_parameter, undo_parameters,
    undo_solver_kind, undo_system_kind, undo_variable_kind,
};
use cbl_base::{NoMemory, Place};
use comet_syntax::tree::{
    Block, ClassKind, Function, Incremental, Name, Parameter, ParameterKind, ResultKind, TopPart,
};
use parse_machine::ProgramForm;
use parse_stacks::{Stacks, put, put_first, put_made, take};
use std::alloc::Global;

// A function, whose parameters are given the last one first.
fn make_function(
    alloc: Global,
    place: Place,
    kind: ResultKind,
    name: Name,
    parameters: Vec<Parameter>,
    body: Block,
) -> Result<TopPart, NoMemory>
    ensures { IfOk result (λ x. IsFunctionPart place kind name (reverse parameters.items) body x) }
{
    let mut parameters = parameters;
    parameters.reverse();
    let function = Function {
        place,
        result: kind,
        name,
        parameters,
        body,
    };
    let function = Box::new(alloc, function)?;
    Ok(TopPart::Function(function))
}

// A part in front of others
fn undo_top(stacks: &mut Stacks) -> Result<(), NoMemory>
    requires { IsReady forms.ProgramTop stacks.old }
    ensures { IfOk result (λ _. IsUndone forms.ProgramTop stacks.old stacks.new) }
{
    let top = take(&mut stacks.tops);
    put_first(&mut stacks.programs, top)
}

// No parts
fn undo_no_tops(alloc: Global, stacks: &mut Stacks) -> Result<(), NoMemory>
    ensures { IfOk result (λ _. IsUndone forms.ProgramNone stacks.old stacks.new) }
{
    put(&mut stacks.programs, Vec::new(alloc))
}

// What a function gives back
fn undo_result(stacks: &mut Stacks, kind: ResultKind) -> Result<(), NoMemory>
    ensures { IfOk result (λ _. Undone result_kind result_kind_void (λ v x.
        x ≡ kind) stacks.old stacks.new) }
{
    put(&mut stacks.results, kind)
}

// `import name;`
fn undo_import(stacks: &mut Stacks) -> Result<(), NoMemory>
    requires { IsReady forms.TopImport stacks.old }
    ensures { IfOk result (λ _. IsUndone forms.TopImport stacks.old stacks.new) }
{
    let name = take(&mut stacks.names);
    put(&mut stacks.tops, TopPart::Import(name))
}

// `include string;`
fn undo_include(stacks: &mut Stacks) -> Result<(), NoMemory>
    requires { IsReady forms.TopInclude stacks.old }
    ensures { IfOk result (λ _. IsUndone forms.TopInclude stacks.old stacks.new) }
{
    let text = take(&mut stacks.texts);
    put(&mut stacks.tops, TopPart::Include(text))
}

// `function result name(parameters) body`
fn undo_function(alloc: Global, stacks: &mut Stacks) -> Result<(), NoMemory>
    requires { IsReady forms.TopFunction stacks.old }
    ensures { IfOk result (λ _. IsUndone forms.TopFunction stacks.old stacks.new) }
{
    let place = take(&mut stacks.places);
    let kind = take(&mut stacks.results);
    let name = take(&mut stacks.names);
    let parameters = take(&mut stacks.parameter_lists);
    let body = take(&mut stacks.blocks);
    let function = make_function(alloc, place, kind, name, parameters, body);
    put_made(&mut stacks.tops, function)
}

// A statement
fn undo_statement_part(stacks: &mut Stacks) -> Result<(), NoMemory>
    requires { IsReady forms.TopStatement stacks.old }
    ensures { IfOk result (λ _. IsUndone forms.TopStatement stacks.old stacks.new) }
{
    let statement = take(&mut stacks.statements);
    put(&mut stacks.tops, TopPart::Statement(statement))
}

/// Undoes a form of programs, of parameters or of classes: takes the values of its symbols off the stacks, and puts
/// what is made of them there.
pub fn undo_program(alloc: Global, stacks: &mut Stacks, form: ProgramForm) -> Result<(), NoMemory>
    requires { Ready (body_in_program form) stacks.old }
    ensures { IfOk result (λ _. Undone (part_in_program form) (body_in_program form)
        (Made form) stacks.old stacks.new) }
{
    match form {
        ProgramForm::ProgramNone => undo_no_tops(alloc, stacks),
        ProgramForm::ProgramTop => undo_top(stacks),
        ProgramForm::TopImport => undo_import(stacks),
        ProgramForm::TopInclude => undo_include(stacks),
        ProgramForm::TopFunction => undo_function(alloc, stacks),
        ProgramForm::TopStatement => undo_statement_part(stacks),
        ProgramForm::ResultKindVoid => undo_result(stacks, ResultKind::Void),
        ProgramForm::ResultKindInt => undo_result(stacks, ResultKind::Int),
        ProgramForm::ResultKindBool => undo_result(stacks, ResultKind::Bool),
        ProgramForm::ParametersNone => undo_no_parameters(alloc, stacks),
        ProgramForm::ParametersParameter => undo_parameters(stacks),
        ProgramForm::ParametersTailNone => undo_no_parameters(alloc, stacks),
        ProgramForm::ParametersTailComma => undo_parameters(stacks),
        ProgramForm::ParameterParameterKind => undo_parameter(stacks),
        ProgramForm::ParameterKindInt => undo_int_kind(stacks),
        ProgramForm::ParameterKindBool => undo_kind(stacks, ParameterKind::Bool),
        ProgramForm::ParameterKindRange => undo_kind(stacks, ParameterKind::Range),
        ProgramForm::ParameterKindSet => undo_kind(stacks, ParameterKind::Set),
        ProgramForm::ParameterKindVar => undo_variable_kind(stacks, Incremental::Var),
        ProgramForm::ParameterKindInc => undo_variable_kind(stacks, Incremental::Inc),
        ProgramForm::ParameterKindSolver => undo_solver_kind(stacks),
        ProgramForm::ParameterKindLocalSolver => undo_kind(stacks, ParameterKind::LocalSolver),
        ProgramForm::ParameterKindConstraintSystem => undo_system_kind(stacks),
        ProgramForm::ParameterKindBestMonitor => undo_kind(stacks, ParameterKind::BestMonitor),
        ProgramForm::BracketsNone => undo_brackets(stacks, false),
        ProgramForm::BracketsLeftBracket => undo_brackets(stacks, true),
        ProgramForm::TemplateNone => undo_no_template(stacks),
        ProgramForm::TemplateLess => undo_template(stacks),
        ProgramForm::ClassNameSolver => undo_solver(stacks),
        ProgramForm::ClassNameLocalSolver => undo_class(stacks, ClassKind::LocalSolver),
        ProgramForm::ClassNameConstraintSystem => {
            undo_templated(stacks, Templated::ConstraintSystem)
        }
        ProgramForm::ClassNameFunctionExpr => undo_templated(stacks, Templated::FunctionExpr),
        ProgramForm::ClassNameFunctionSum => undo_templated(stacks, Templated::FunctionSum),
        ProgramForm::ClassNameUniformDistribution => {
            undo_class(stacks, ClassKind::UniformDistribution)
        }
        ProgramForm::ClassNameInputFile => undo_class(stacks, ClassKind::InputFile),
        ProgramForm::ClassNameMinNeighborSelector => {
            undo_class(stacks, ClassKind::MinNeighborSelector)
        }
        ProgramForm::ClassNameBestMonitor => undo_class(stacks, ClassKind::BestMonitor),
        ProgramForm::ClassNameSolution => undo_class(stacks, ClassKind::Solution),
    }
}
