//! Classes, and the name in their angle brackets.
ghost use Rattle.std.specs.Prelude.{◌≡◌, IfOk};
ghost use Rattle.comet_syntax.specs.Grammar.Programs.{class_name_function_expr, class_name_solution};
ghost use Rattle.comet_syntax.specs.Grammar.Symbols.{class_name};
ghost use Rattle.parse_machine.specs.declared.form.ProgramForm.TheVariants as forms;
ghost use Rattle.parse_stacks.specs.Undoing.{Undone};
ghost use Rattle.build_declarations.specs.MadePrograms.{IsReady, IsUndone, templated_class};

use cbl_base::NoMemory;
use comet_syntax::tree::{Class, ClassKind, Name};
use parse_stacks::{Stacks, put, take};

/// A class that may have a name in angle brackets.
#[derive(Clone, Copy)]
pub enum Templated {
    ConstraintSystem,
    FunctionExpr,
    FunctionSum,
}

fn with_template(class: Templated, template: Option<Name>) -> ClassKind
    ensures { result ≡ templated_class class template }
{
    match class {
        Templated::ConstraintSystem => ClassKind::ConstraintSystem(template),
        Templated::FunctionExpr => ClassKind::FunctionExpr(template),
        Templated::FunctionSum => ClassKind::FunctionSum(template),
    }
}

// `<name>`
pub fn undo_template(stacks: &mut Stacks) -> Result<(), NoMemory>
    requires { IsReady forms.TemplateLess stacks.old }
    ensures { IfOk result (λ _. IsUndone forms.TemplateLess stacks.old stacks.new) }
{
    let name = take(&mut stacks.names);
    put(&mut stacks.templates, Some(name))
}

// No name in angle brackets
pub fn undo_no_template(stacks: &mut Stacks) -> Result<(), NoMemory>
    ensures { IfOk result (λ _. IsUndone forms.TemplateNone stacks.old stacks.new) }
{
    put(&mut stacks.templates, None)
}

// `Solver<name>`
pub fn undo_solver(stacks: &mut Stacks) -> Result<(), NoMemory>
    requires { IsReady forms.ClassNameSolver stacks.old }
    ensures { IfOk result (λ _. IsUndone forms.ClassNameSolver stacks.old stacks.new) }
{
    let place = take(&mut stacks.places);
    let name = take(&mut stacks.names);
    put(
        &mut stacks.classes,
        Class {
            place,
            kind: ClassKind::Solver(name),
        },
    )
}

// A class that has no name in angle brackets
pub fn undo_class(stacks: &mut Stacks, kind: ClassKind) -> Result<(), NoMemory>
    requires { IsReady forms.ClassNameSolution stacks.old }
    ensures { IfOk result (λ _. Undone class_name class_name_solution
        (λ v x. x ≡ record { place = v.0; kind = kind }) stacks.old stacks.new) }
{
    let place = take(&mut stacks.places);
    put(&mut stacks.classes, Class { place, kind })
}

// A class that may have one
pub fn undo_templated(stacks: &mut Stacks, class: Templated) -> Result<(), NoMemory>
    requires { IsReady forms.ClassNameFunctionExpr stacks.old }
    ensures { IfOk result (λ _. Undone class_name class_name_function_expr
        (λ v x. x ≡ record { place = v.0; kind = templated_class class v.1.0 }) stacks.old stacks.new) }
{
    let place = take(&mut stacks.places);
    let template = take(&mut stacks.templates);
    let kind = with_template(class, template);
    put(&mut stacks.classes, Class { place, kind })
}
