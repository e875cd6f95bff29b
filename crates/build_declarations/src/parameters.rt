//! The parameters of a function, and their types.
ghost use Rattle.std.specs.Prelude.{◌≡◌, [], IfOk};
ghost use Rattle.comet_syntax.specs.Grammar.Programs.{parameter_kind_bool, parameter_kind_var};
ghost use Rattle.comet_syntax.specs.Grammar.Symbols.{brackets, parameter_kind};
ghost use Rattle.parse_machine.specs.declared.form.ProgramForm.TheVariants as forms;
ghost use Rattle.parse_stacks.specs.Undoing.{Undone};
ghost use Rattle.build_declarations.specs.MadePrograms.{IsReady, IsUndone, int_kind, variable_kind};

use cbl_base::NoMemory;
use comet_syntax::tree::{Incremental, Parameter, ParameterKind};
use parse_stacks::{ParameterType, Stacks, put, put_first, take};
use std::alloc::Global;

fn kind_of_int(is_array: bool) -> ParameterKind
    ensures { result ≡ int_kind is_array }
{
    if is_array {
        ParameterKind::IntArray
    } else {
        ParameterKind::Int
    }
}

fn kind_of_variable(word: Incremental, is_array: bool) -> ParameterKind
    ensures { result ≡ variable_kind word is_array }
{
    if is_array {
        ParameterKind::VariableArray(word)
    } else {
        ParameterKind::Variable(word)
    }
}

// A parameter in front of others
pub fn undo_parameters(stacks: &mut Stacks) -> Result<(), NoMemory>
    requires { IsReady forms.ParametersParameter stacks.old }
    ensures { IfOk result (λ _. IsUndone forms.ParametersParameter stacks.old stacks.new) }
{
    let parameter = take(&mut stacks.parameters);
    put_first(&mut stacks.parameter_lists, parameter)
}

// No parameters, or no more of them
pub fn undo_no_parameters(alloc: Global, stacks: &mut Stacks) -> Result<(), NoMemory>
    ensures { IfOk result (λ _. IsUndone forms.ParametersNone stacks.old stacks.new) }
{
    put(&mut stacks.parameter_lists, Vec::new(alloc))
}

// `[]` behind a type, or not
pub fn undo_brackets(stacks: &mut Stacks, is_array: bool) -> Result<(), NoMemory>
    ensures { IfOk result (λ _. Undone brackets [] (λ v x. x ≡ is_array) stacks.old stacks.new) }
{
    put(&mut stacks.brackets, is_array)
}

// A type and a name
pub fn undo_parameter(stacks: &mut Stacks) -> Result<(), NoMemory>
    requires { IsReady forms.ParameterParameterKind stacks.old }
    ensures { IfOk result (λ _. IsUndone forms.ParameterParameterKind stacks.old stacks.new) }
{
    let typed = take(&mut stacks.parameter_types);
    let name = take(&mut stacks.names);
    put(
        &mut stacks.parameters,
        Parameter {
            place: typed.place,
            kind: typed.kind,
            name,
        },
    )
}

// A type that is its word alone, or `set{int}`
pub fn undo_kind(stacks: &mut Stacks, kind: ParameterKind) -> Result<(), NoMemory>
    requires { IsReady forms.ParameterKindBool stacks.old }
    ensures { IfOk result (λ _. Undone parameter_kind parameter_kind_bool
        (λ v x. x ≡ record { kind = kind; place = v.0 }) stacks.old stacks.new) }
{
    let place = take(&mut stacks.places);
    put(&mut stacks.parameter_types, ParameterType { kind, place })
}

// `int` or `int[]`
pub fn undo_int_kind(stacks: &mut Stacks) -> Result<(), NoMemory>
    requires { IsReady forms.ParameterKindInt stacks.old }
    ensures { IfOk result (λ _. IsUndone forms.ParameterKindInt stacks.old stacks.new) }
{
    let place = take(&mut stacks.places);
    let is_array = take(&mut stacks.brackets);
    let kind = kind_of_int(is_array);
    put(&mut stacks.parameter_types, ParameterType { kind, place })
}

// `var{int}` or `var{int}[]`, and the same with `inc`
pub fn undo_variable_kind(stacks: &mut Stacks, word: Incremental) -> Result<(), NoMemory>
    requires { IsReady forms.ParameterKindVar stacks.old }
    ensures { IfOk result (λ _. Undone parameter_kind parameter_kind_var
        (λ v x. x ≡ record { kind = variable_kind word v.1.1.1.1.0; place = v.0 })
        stacks.old stacks.new) }
{
    let place = take(&mut stacks.places);
    let is_array = take(&mut stacks.brackets);
    let kind = kind_of_variable(word, is_array);
    put(&mut stacks.parameter_types, ParameterType { kind, place })
}

// `Solver<name>`
pub fn undo_solver_kind(stacks: &mut Stacks) -> Result<(), NoMemory>
    requires { IsReady forms.ParameterKindSolver stacks.old }
    ensures { IfOk result (λ _. IsUndone forms.ParameterKindSolver stacks.old stacks.new) }
{
    let place = take(&mut stacks.places);
    let name = take(&mut stacks.names);
    let kind = ParameterKind::Solver(name);
    put(&mut stacks.parameter_types, ParameterType { kind, place })
}

// `ConstraintSystem` or `ConstraintSystem<name>`
pub fn undo_system_kind(stacks: &mut Stacks) -> Result<(), NoMemory>
    requires { IsReady forms.ParameterKindConstraintSystem stacks.old }
    ensures { IfOk result (λ _. IsUndone forms.ParameterKindConstraintSystem stacks.old stacks.new) }
{
    let place = take(&mut stacks.places);
    let template = take(&mut stacks.templates);
    let kind = ParameterKind::ConstraintSystem(template);
    put(&mut stacks.parameter_types, ParameterType { kind, place })
}
