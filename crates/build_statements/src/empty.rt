//! The forms of parts that are left out are undone.
ghost use Rattle.std.specs.Prelude.{IfOk};
ghost use Rattle.parse_machine.specs.declared.form.StatementForm.TheVariants as forms;
ghost use Rattle.build_statements.specs.MadeStatements.{IsUndone};

use cbl_base::NoMemory;
use parse_stacks::{Stacks, put};
use std::alloc::Global;

/// No `else`.
pub fn undo_no_otherwise(stacks: &mut Stacks) -> Result<(), NoMemory>
    ensures { IfOk result (λ _. IsUndone forms.OtherwiseNone stacks.old stacks.new) }
{
    put(&mut stacks.otherwise, None)
}

/// No value and no condition.
pub fn undo_no_value(stacks: &mut Stacks) -> Result<(), NoMemory>
    ensures { IfOk result (λ _. IsUndone forms.OptionalValueNone stacks.old stacks.new) }
{
    put(&mut stacks.optional, None)
}

/// No start of a `for`.
pub fn undo_no_for_start(stacks: &mut Stacks) -> Result<(), NoMemory>
    ensures { IfOk result (λ _. IsUndone forms.ForStartNone stacks.old stacks.new) }
{
    put(&mut stacks.for_starts, None)
}

/// No step of a `for`.
pub fn undo_no_for_step(stacks: &mut Stacks) -> Result<(), NoMemory>
    ensures { IfOk result (λ _. IsUndone forms.ForStepNone stacks.old stacks.new) }
{
    put(&mut stacks.for_steps, None)
}

/// No names in a `whenever`.
pub fn undo_no_events(stacks: &mut Stacks) -> Result<(), NoMemory>
    ensures { IfOk result (λ _. IsUndone forms.EventsNone stacks.old stacks.new) }
{
    put(&mut stacks.events, None)
}

/// No statements.
pub fn undo_no_statements(alloc: Global, stacks: &mut Stacks) -> Result<(), NoMemory>
    ensures { IfOk result (λ _. IsUndone forms.StatementsNone stacks.old stacks.new) }
{
    let none = Vec::new(alloc);
    put(&mut stacks.statement_lists, none)
}

/// No more generators.
pub fn undo_no_generators(alloc: Global, stacks: &mut Stacks) -> Result<(), NoMemory>
    ensures { IfOk result (λ _. IsUndone forms.GeneratorsTailNone stacks.old stacks.new) }
{
    let none = Vec::new(alloc);
    put(&mut stacks.generator_lists, none)
}
