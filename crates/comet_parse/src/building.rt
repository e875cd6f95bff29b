//! The tree of a listing, which is undone from its end.
ghost use Rattle.std.specs.Prelude.{◌≡◌, IfOk};
ghost use Rattle.cbl_base.specs.declared.limits.TheConstants.{MAX_NESTING};
ghost use Rattle.comet_syntax.specs.Written.Programs.{written_program};
ghost use Rattle.parse_machine.specs.Forms.{part_in, body_in};
ghost use Rattle.parse_machine.specs.Listing.{Lists, shown_all};
ghost use Rattle.parse_stacks.specs.Undoing.{Ready, Undone};
ghost use Rattle.comet_parse.specs.Made.{Made};

use crate::keeping::keep;
use build_declarations::{undo_declaration, undo_program};
use build_expressions::undo_expression;
use build_statements::undo_statement;
use cbl_base::NoMemory;
use comet_syntax::Token;
use comet_syntax::tree::Program;
use parse_machine::{Event, Form};
use parse_stacks::{Stacks, take};
use std::alloc::Global;

// Undoes a form: takes the values of its symbols from the stacks, and puts the value of its part there.
fn undo(alloc: Global, stacks: &mut Stacks, form: Form) -> Result<(), NoMemory>
    requires { Ready (body_in form) stacks.old }
    ensures { IfOk result (λ _. Undone (part_in form) (body_in form)
        (Made form) stacks.old stacks.new) }
{
    match form {
        Form::Program(form) => undo_program(alloc, stacks, form)?,
        Form::Statement(form) => undo_statement(alloc, stacks, form)?,
        Form::Declaration(form) => undo_declaration(alloc, stacks, form)?,
        Form::Expression(form) => undo_expression(alloc, stacks, form)?,
    }
    Ok(())
}

/// The program whose text is a listing of the tokens.
pub fn build(alloc: Global, log: Vec<Event>, tokens: &[Token]) -> Result<Program, NoMemory>
    requires { Lists MAX_NESTING tokens.now log.items }
    ensures { IfOk result (λ p. written_program p ≡ shown_all log.items tokens.now) }
{
    let mut log = log;
    let mut rest = tokens;
    let mut stacks = Stacks::new(alloc);
    while let Some(event) = log.pop() {
        match event {
            Event::Chose(form) => undo(alloc, &mut stacks, form)?,
            Event::Read(keeps_place) => {
                let (token, before) = rest.split_last().unwrap();
                keep(alloc, &mut stacks, keeps_place, token)?;
                rest = before;
            }
        }
    }
    let mut parts = take(&mut stacks.programs);
    parts.reverse();
    Ok(Program { parts })
}
