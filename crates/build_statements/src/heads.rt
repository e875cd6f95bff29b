//! The forms of what stands in statements beside other statements are undone.
ghost use Rattle.std.specs.Prelude.{◌≡◌, IfOk};
ghost use Rattle.comet_syntax.specs.Grammar.Statements.{with_mode_atomic};
ghost use Rattle.comet_syntax.specs.Grammar.Symbols.{with_mode};
ghost use Rattle.parse_machine.specs.declared.form.StatementForm.TheVariants as forms;
ghost use Rattle.parse_stacks.specs.Undoing.{Ready, Undone};
ghost use Rattle.build_statements.specs.MadeStatements.{IsReady, IsUndone};

use cbl_base::NoMemory;
use comet_syntax::tree::{Events, ForStart, WithMode};
use parse_stacks::{Stacks, put, take};

/// `else` and a statement
pub fn undo_otherwise(stacks: &mut Stacks) -> Result<(), NoMemory>
    requires { IsReady forms.OtherwiseElse stacks.old }
    ensures { IfOk result (λ _. IsUndone forms.OtherwiseElse stacks.old stacks.new) }
{
    let behind = take(&mut stacks.statements);
    put(&mut stacks.otherwise, Some(behind))
}

/// A value that may be left out.
pub fn undo_value(stacks: &mut Stacks) -> Result<(), NoMemory>
    requires { IsReady forms.OptionalValueExpression stacks.old }
    ensures { IfOk result (λ _. IsUndone forms.OptionalValueExpression stacks.old stacks.new) }
{
    let value = take(&mut stacks.expressions);
    put(&mut stacks.optional, Some(value))
}

/// `int name = value`
pub fn undo_for_start(stacks: &mut Stacks) -> Result<(), NoMemory>
    requires { IsReady forms.ForStartInt stacks.old }
    ensures { IfOk result (λ _. IsUndone forms.ForStartInt stacks.old stacks.new) }
{
    let name = take(&mut stacks.names);
    let value = take(&mut stacks.expressions);
    put(&mut stacks.for_starts, Some(ForStart { name, value }))
}

/// A simple statement as the step of a `for`.
pub fn undo_for_step(stacks: &mut Stacks) -> Result<(), NoMemory>
    requires { IsReady forms.ForStepSimple stacks.old }
    ensures { IfOk result (λ _. IsUndone forms.ForStepSimple stacks.old stacks.new) }
{
    let step = take(&mut stacks.simples);
    put(&mut stacks.for_steps, Some(step))
}

/// `int old, int new`
pub fn undo_events(stacks: &mut Stacks) -> Result<(), NoMemory>
    requires { IsReady forms.EventsInt stacks.old }
    ensures { IfOk result (λ _. IsUndone forms.EventsInt stacks.old stacks.new) }
{
    let old = take(&mut stacks.names);
    let new = take(&mut stacks.names);
    put(&mut stacks.events, Some(Events { old, new }))
}

/// `atomic` or `delay`
pub fn undo_with_mode(stacks: &mut Stacks, mode: WithMode) -> Result<(), NoMemory>
    ensures { IfOk result (λ _. Undone with_mode with_mode_atomic (λ v x.
        x ≡ mode) stacks.old stacks.new) }
{
    put(&mut stacks.modes, mode)
}
