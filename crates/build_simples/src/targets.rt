//! What a simple statement does with its target.
ghost use Rattle.std.specs.Prelude.{◌≡◌, IfOk};
ghost use Rattle.parse_stacks.specs.declared.tails.WriteRest.TheVariants as write_rests;
ghost use Rattle.comet_syntax.specs.Written.Expressions.{written, name_alone, by_name};
ghost use Rattle.comet_syntax.specs.Written.Declarations.{whole_text};
ghost use Rattle.comet_syntax.specs.Written.Statements.{written_simple, write_text, step_text};
ghost use Rattle.parse_stacks.specs.declared.tails.NewValue.TheVariants as new_values;
ghost use Rattle.parse_stacks.specs.declared.tails.NamedRest.TheVariants as named_rests;
ghost use Rattle.build_simples.specs.MadeSimples.{done_text, named_text};

use cbl_base::NoMemory;
use comet_syntax::tree::{
    Argument, Class, Expression, Name, NewObject, Simple, Step, WriteOperator,
};
use parse_stacks::{NamedRest, NewValue, WriteRest, beside, box_two, name_operand};
use std::alloc::Global;

// `target = value` and its like
fn make_write(
    alloc: Global,
    target: Expression,
    operator: WriteOperator,
    value: Expression,
) -> Result<Simple, NoMemory>
    ensures { IfOk result (λ s. written_simple s ≡
        write_text operator (written target) (whole_text value)) }
{
    let (target, value) = box_two(alloc, target, value)?;
    Ok(Simple::Write {
        target,
        operator,
        value,
    })
}

// `left :=: right`
fn make_swap(alloc: Global, left: Expression, right: Expression) -> Result<Simple, NoMemory>
    ensures { IfOk result (λ s. written_simple s ≡
        done_text (written left) (write_rests.Swap right)) }
{
    let (left, right) = box_two(alloc, left, right)?;
    Ok(Simple::Swap { left, right })
}

// `target++` or `target--`
fn make_step(alloc: Global, target: Expression, step: Step) -> Result<Simple, NoMemory>
    ensures { IfOk result (λ s. written_simple s ≡ step_text step (written target)) }
{
    let target = Box::new(alloc, target)?;
    Ok(Simple::Step { target, step })
}

// `name = new class(arguments)`
fn make_new(
    alloc: Global,
    name: Name,
    class: Class,
    arguments: Vec<Argument>,
) -> Result<Simple, NoMemory>
    ensures { IfOk result (λ s. written_simple s ≡
        named_text name (named_rests.Set (new_values.New class arguments))) }
{
    let mut arguments = arguments;
    arguments.reverse();
    let object = NewObject {
        name,
        class,
        arguments,
    };
    let object = Box::new(alloc, object)?;
    Ok(Simple::New(object))
}

/// A target, and what is done with it.
pub fn finish_target(alloc: Global, target: Expression, rest: WriteRest) -> Result<Simple, NoMemory>
    ensures { IfOk result (λ s. written_simple s ≡ done_text (written target) rest) }
{
    match rest {
        WriteRest::Nothing => Ok(Simple::Postfix(target)),
        WriteRest::Value(operator, value) => {
            let made = make_write(alloc, target, operator, value)?;
            Ok(made)
        }
        WriteRest::Swap(right) => {
            let made = make_swap(alloc, target, right)?;
            Ok(made)
        }
        WriteRest::Step(step) => {
            let made = make_step(alloc, target, step)?;
            Ok(made)
        }
    }
}

// `name = value`
fn set_name(alloc: Global, name: Name, value: NewValue) -> Result<Simple, NoMemory>
    ensures { IfOk result (λ s. written_simple s ≡ named_text name (named_rests.Set value)) }
{
    match value {
        NewValue::New(class, arguments) => {
            let made = make_new(alloc, name, class, arguments)?;
            Ok(made)
        }
        NewValue::Value(value) => {
            let made = make_write(alloc, Expression::Name(name), WriteOperator::Set, value)?;
            Ok(made)
        }
    }
}

/// A name, and what stands behind it.
pub fn finish_name(alloc: Global, name: Name, rest: NamedRest) -> Result<Simple, NoMemory>
    ensures { IfOk result (λ s. written_simple s ≡ named_text name rest) }
{
    match rest {
        NamedRest::Set(value) => {
            let made = set_name(alloc, name, value)?;
            Ok(made)
        }
        NamedRest::Rest {
            called,
            suffixes,
            write,
        } => {
            let (target, write) = beside(name_operand(alloc, name, called, suffixes), write)?;
            let made = finish_target(alloc, target, write)?;
            Ok(made)
        }
    }
}
