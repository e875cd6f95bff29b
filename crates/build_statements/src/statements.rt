//! The forms of blocks and statements are undone.
ghost use Rattle.std.specs.Prelude.{◌≡◌, IfOk};
ghost use Rattle.comet_syntax.specs.Grammar.Statements.{statement_select_min};
ghost use Rattle.comet_syntax.specs.Grammar.Symbols.{statement};
ghost use Rattle.comet_syntax.specs.Written.Expressions.{written_generators, generators_text};
ghost use Rattle.comet_syntax.specs.Written.Declarations.{whole_text};
ghost use Rattle.comet_syntax.specs.Written.Statements.{written_statement, select_by_text};
ghost use Rattle.parse_machine.specs.declared.form.StatementForm.TheVariants as forms;
ghost use Rattle.parse_stacks.specs.Undoing.{Undone};
ghost use Rattle.build_statements.specs.MadeStatements.{IsReady, IsUndone};

use crate::nodes::{
    make_block, make_block_alone, make_declared, make_empty, make_for, make_for_all, make_if,
    make_neighbor, make_parall, make_return, make_select, make_select_by, make_simple_alone,
    make_whenever, make_while, make_with,
};
use cbl_base::NoMemory;
use comet_syntax::tree::Extreme;
use parse_stacks::{Stacks, put, put_first, put_made, take};
use std::alloc::Global;

/// `{ statements }`
pub fn undo_block(stacks: &mut Stacks) -> Result<(), NoMemory>
    requires { IsReady forms.BlockLeftBrace stacks.old }
    ensures { IfOk result (λ _. IsUndone forms.BlockLeftBrace stacks.old stacks.new) }
{
    let place = take(&mut stacks.places);
    let mut statements = take(&mut stacks.statement_lists);
    statements.reverse();
    let block = make_block(place, statements);
    put(&mut stacks.blocks, block)
}

/// A statement before others.
pub fn undo_more_statements(stacks: &mut Stacks) -> Result<(), NoMemory>
    requires { IsReady forms.StatementsStatement stacks.old }
    ensures { IfOk result (λ _. IsUndone forms.StatementsStatement stacks.old stacks.new) }
{
    let first = take(&mut stacks.statements);
    put_first(&mut stacks.statement_lists, first)
}

/// A block as a statement.
pub fn undo_block_alone(stacks: &mut Stacks) -> Result<(), NoMemory>
    requires { IsReady forms.StatementBlock stacks.old }
    ensures { IfOk result (λ _. IsUndone forms.StatementBlock stacks.old stacks.new) }
{
    let block = take(&mut stacks.blocks);
    let made = make_block_alone(block);
    put(&mut stacks.statements, made)
}

/// `;`
pub fn undo_empty(stacks: &mut Stacks) -> Result<(), NoMemory>
    requires { IsReady forms.StatementSemicolon stacks.old }
    ensures { IfOk result (λ _. IsUndone forms.StatementSemicolon stacks.old stacks.new) }
{
    let place = take(&mut stacks.places);
    let made = make_empty(place);
    put(&mut stacks.statements, made)
}

/// `declaration;`
pub fn undo_declared(alloc: Global, stacks: &mut Stacks) -> Result<(), NoMemory>
    requires { IsReady forms.StatementDeclaration stacks.old }
    ensures { IfOk result (λ _. IsUndone forms.StatementDeclaration stacks.old stacks.new) }
{
    let declaration = take(&mut stacks.declarations);
    let made = make_declared(alloc, declaration);
    put_made(&mut stacks.statements, made)
}

/// `simple;`
pub fn undo_simple_alone(stacks: &mut Stacks) -> Result<(), NoMemory>
    requires { IsReady forms.StatementSimple stacks.old }
    ensures { IfOk result (λ _. IsUndone forms.StatementSimple stacks.old stacks.new) }
{
    let simple = take(&mut stacks.simples);
    let made = make_simple_alone(simple);
    put(&mut stacks.statements, made)
}

/// `return value;`
pub fn undo_return(alloc: Global, stacks: &mut Stacks) -> Result<(), NoMemory>
    requires { IsReady forms.StatementReturn stacks.old }
    ensures { IfOk result (λ _. IsUndone forms.StatementReturn stacks.old stacks.new) }
{
    let place = take(&mut stacks.places);
    let value = take(&mut stacks.optional);
    let made = make_return(alloc, place, value);
    put_made(&mut stacks.statements, made)
}

/// `if (test) then otherwise`
pub fn undo_if(alloc: Global, stacks: &mut Stacks) -> Result<(), NoMemory>
    requires { IsReady forms.StatementIf stacks.old }
    ensures { IfOk result (λ _. IsUndone forms.StatementIf stacks.old stacks.new) }
{
    let place = take(&mut stacks.places);
    let test = take(&mut stacks.expressions);
    let then = take(&mut stacks.statements);
    let otherwise = take(&mut stacks.otherwise);
    let made = make_if(alloc, place, test, then, otherwise);
    put_made(&mut stacks.statements, made)
}

/// `while (test) body`
pub fn undo_while(alloc: Global, stacks: &mut Stacks) -> Result<(), NoMemory>
    requires { IsReady forms.StatementWhile stacks.old }
    ensures { IfOk result (λ _. IsUndone forms.StatementWhile stacks.old stacks.new) }
{
    let place = take(&mut stacks.places);
    let test = take(&mut stacks.expressions);
    let body = take(&mut stacks.statements);
    let made = make_while(alloc, place, test, body);
    put_made(&mut stacks.statements, made)
}

/// `for (start; test; step) body`
pub fn undo_for(alloc: Global, stacks: &mut Stacks) -> Result<(), NoMemory>
    requires { IsReady forms.StatementFor stacks.old }
    ensures { IfOk result (λ _. IsUndone forms.StatementFor stacks.old stacks.new) }
{
    let place = take(&mut stacks.places);
    let start = take(&mut stacks.for_starts);
    let test = take(&mut stacks.optional);
    let step = take(&mut stacks.for_steps);
    let body = take(&mut stacks.statements);
    let made = make_for(alloc, place, start, test, step, body);
    put_made(&mut stacks.statements, made)
}

/// `forall (generators) body`
pub fn undo_for_all(alloc: Global, stacks: &mut Stacks) -> Result<(), NoMemory>
    requires { IsReady forms.StatementForAll stacks.old }
    ensures { IfOk result (λ _. IsUndone forms.StatementForAll stacks.old stacks.new) }
{
    let place = take(&mut stacks.places);
    let generators = take(&mut stacks.all_generators);
    let body = take(&mut stacks.statements);
    let made = make_for_all(alloc, place, generators, body);
    put_made(&mut stacks.statements, made)
}

/// `select (generators) body`
pub fn undo_select(alloc: Global, stacks: &mut Stacks) -> Result<(), NoMemory>
    requires { IsReady forms.StatementSelect stacks.old }
    ensures { IfOk result (λ _. IsUndone forms.StatementSelect stacks.old stacks.new) }
{
    let place = take(&mut stacks.places);
    let generators = take(&mut stacks.all_generators);
    let body = take(&mut stacks.statements);
    let made = make_select(alloc, place, generators, body);
    put_made(&mut stacks.statements, made)
}

/// `selectMin (generators) (key) body` or `selectMax (generators) (key) body`
pub fn undo_select_by(alloc: Global, stacks: &mut Stacks, extreme: Extreme) -> Result<(), NoMemory>
    requires { IsReady forms.StatementSelectMin stacks.old }
    ensures { IfOk result (λ _. Undone statement statement_select_min
        (λ v x. written_statement x ≡ select_by_text extreme v.0 (generators_text (written_generators v.1.1.0)) (whole_text v.1.1.1.1.1.0) (written_statement v.1.1.1.1.1.1.1.0))
        stacks.old stacks.new) }
{
    let place = take(&mut stacks.places);
    let generators = take(&mut stacks.all_generators);
    let key = take(&mut stacks.expressions);
    let body = take(&mut stacks.statements);
    let made = make_select_by(alloc, place, extreme, generators, key, body);
    put_made(&mut stacks.statements, made)
}

/// `neighbor (key, selector) body`
pub fn undo_neighbor(alloc: Global, stacks: &mut Stacks) -> Result<(), NoMemory>
    requires { IsReady forms.StatementNeighbor stacks.old }
    ensures { IfOk result (λ _. IsUndone forms.StatementNeighbor stacks.old stacks.new) }
{
    let place = take(&mut stacks.places);
    let key = take(&mut stacks.expressions);
    let selector = take(&mut stacks.names);
    let body = take(&mut stacks.statements);
    let made = make_neighbor(alloc, place, key, selector, body);
    put_made(&mut stacks.statements, made)
}

/// `whenever variable@event(int old, int new) body`
pub fn undo_whenever(alloc: Global, stacks: &mut Stacks) -> Result<(), NoMemory>
    requires { IsReady forms.StatementWhenever stacks.old }
    ensures { IfOk result (λ _. IsUndone forms.StatementWhenever stacks.old stacks.new) }
{
    let place = take(&mut stacks.places);
    let variable = take(&mut stacks.expressions);
    let event = take(&mut stacks.names);
    let names = take(&mut stacks.events);
    let body = take(&mut stacks.statements);
    let made = make_whenever(alloc, place, variable, event, names, body);
    put_made(&mut stacks.statements, made)
}

/// `with atomic (solver) block` or `with delay (solver) block`
pub fn undo_with(alloc: Global, stacks: &mut Stacks) -> Result<(), NoMemory>
    requires { IsReady forms.StatementWith stacks.old }
    ensures { IfOk result (λ _. IsUndone forms.StatementWith stacks.old stacks.new) }
{
    let place = take(&mut stacks.places);
    let mode = take(&mut stacks.modes);
    let solver = take(&mut stacks.names);
    let body = take(&mut stacks.blocks);
    let made = make_with(alloc, place, mode, solver, body);
    put_made(&mut stacks.statements, made)
}

/// `parall (name in domain) body`
pub fn undo_parall(alloc: Global, stacks: &mut Stacks) -> Result<(), NoMemory>
    requires { IsReady forms.StatementParall stacks.old }
    ensures { IfOk result (λ _. IsUndone forms.StatementParall stacks.old stacks.new) }
{
    let place = take(&mut stacks.places);
    let name = take(&mut stacks.names);
    let domain = take(&mut stacks.expressions);
    let body = take(&mut stacks.statements);
    let made = make_parall(alloc, place, name, domain, body);
    put_made(&mut stacks.statements, made)
}
