//! Any form of statements is undone.
ghost use Rattle.std.specs.Prelude.{IfOk};
ghost use Rattle.build_statements.specs.MadeStatements.{IsReady, IsUndone};

use crate::empty::{
    undo_no_events, undo_no_for_start, undo_no_for_step, undo_no_generators, undo_no_otherwise,
    undo_no_statements, undo_no_value,
};
use crate::heads::{
    undo_events, undo_for_start, undo_for_step, undo_otherwise, undo_value, undo_with_mode,
};
use crate::statements::{
    undo_block, undo_block_alone, undo_declared, undo_empty, undo_for, undo_for_all, undo_if,
    undo_more_statements, undo_neighbor, undo_parall, undo_return, undo_select, undo_select_by,
    undo_simple_alone, undo_whenever, undo_while, undo_with,
};
use build_expressions::{
    undo_condition, undo_generator, undo_generators_form, undo_generators_more,
};
use build_simples::{
    undo_call, undo_end_line, undo_first_name, undo_item, undo_more_items, undo_named,
    undo_named_rest, undo_new, undo_no_items, undo_no_write, undo_print, undo_set, undo_set_value,
    undo_step, undo_string, undo_swap, undo_unnamed, undo_write,
};
use cbl_base::NoMemory;
use comet_syntax::tree::{Extreme, Step, WithMode, WriteOperator};
use parse_machine::StatementForm;
use parse_stacks::Stacks;
use std::alloc::Global;

/// Takes the values of a form's symbols off the stacks, and puts there what is made of them.
pub fn undo_statement(
    alloc: Global,
    stacks: &mut Stacks,
    form: StatementForm,
) -> Result<(), NoMemory>
    requires { IsReady form stacks.old }
    ensures { IfOk result (λ _. IsUndone form stacks.old stacks.new) }
{
    match form {
        StatementForm::BlockLeftBrace => undo_block(stacks),
        StatementForm::StatementsNone => undo_no_statements(alloc, stacks),
        StatementForm::StatementsStatement => undo_more_statements(stacks),
        StatementForm::StatementBlock => undo_block_alone(stacks),
        StatementForm::StatementSemicolon => undo_empty(stacks),
        StatementForm::StatementDeclaration => undo_declared(alloc, stacks),
        StatementForm::StatementSimple => undo_simple_alone(stacks),
        StatementForm::StatementReturn => undo_return(alloc, stacks),
        StatementForm::StatementIf => undo_if(alloc, stacks),
        StatementForm::StatementWhile => undo_while(alloc, stacks),
        StatementForm::StatementFor => undo_for(alloc, stacks),
        StatementForm::StatementForAll => undo_for_all(alloc, stacks),
        StatementForm::StatementSelect => undo_select(alloc, stacks),
        StatementForm::StatementSelectMin => undo_select_by(alloc, stacks, Extreme::Min),
        StatementForm::StatementSelectMax => undo_select_by(alloc, stacks, Extreme::Max),
        StatementForm::StatementNeighbor => undo_neighbor(alloc, stacks),
        StatementForm::StatementWhenever => undo_whenever(alloc, stacks),
        StatementForm::StatementWith => undo_with(alloc, stacks),
        StatementForm::StatementParall => undo_parall(alloc, stacks),
        StatementForm::OtherwiseNone => undo_no_otherwise(stacks),
        StatementForm::OtherwiseElse => undo_otherwise(stacks),
        StatementForm::OptionalValueNone => undo_no_value(stacks),
        StatementForm::OptionalValueExpression => undo_value(stacks),
        StatementForm::ForStartNone => undo_no_for_start(stacks),
        StatementForm::ForStartInt => undo_for_start(stacks),
        StatementForm::ForStepNone => undo_no_for_step(stacks),
        StatementForm::ForStepSimple => undo_for_step(stacks),
        StatementForm::EventsNone => undo_no_events(stacks),
        StatementForm::EventsInt => undo_events(stacks),
        StatementForm::WithModeAtomic => undo_with_mode(stacks, WithMode::Atomic),
        StatementForm::WithModeDelay => undo_with_mode(stacks, WithMode::Delay),
        StatementForm::GeneratorsGenerator => undo_generators_form(alloc, stacks),
        StatementForm::GeneratorsTailNone => undo_no_generators(alloc, stacks),
        StatementForm::GeneratorsTailComma => undo_generators_more(stacks),
        StatementForm::ConditionNone => undo_no_value(stacks),
        StatementForm::ConditionColon => undo_condition(stacks),
        StatementForm::GeneratorName => undo_generator(stacks),
        StatementForm::SimpleFirstName => undo_named(alloc, stacks),
        StatementForm::SimpleLiteral => undo_unnamed(alloc, stacks),
        StatementForm::SimpleExtreme => undo_unnamed(alloc, stacks),
        StatementForm::SimpleCout => undo_print(stacks),
        StatementForm::SimpleCall => undo_call(alloc, stacks),
        StatementForm::NamedSimpleEqual => undo_set(stacks),
        StatementForm::NamedSimpleCalled => undo_named_rest(stacks),
        StatementForm::NewValueNew => undo_new(stacks),
        StatementForm::NewValueExpression => undo_set_value(stacks),
        StatementForm::WriteNone => undo_no_write(stacks),
        StatementForm::WriteEqual => undo_write(stacks, WriteOperator::Set),
        StatementForm::WritePlusEqual => undo_write(stacks, WriteOperator::Add),
        StatementForm::WriteMinusEqual => undo_write(stacks, WriteOperator::Subtract),
        StatementForm::WriteAssign => undo_write(stacks, WriteOperator::Assign),
        StatementForm::WriteArrow => undo_write(stacks, WriteOperator::Define),
        StatementForm::WriteSwap => undo_swap(stacks),
        StatementForm::WritePlusPlus => undo_step(stacks, Step::Increment),
        StatementForm::WriteMinusMinus => undo_step(stacks, Step::Decrement),
        StatementForm::FirstNameName => undo_first_name(stacks),
        StatementForm::ItemExpression => undo_item(stacks),
        StatementForm::ItemString => undo_string(stacks),
        StatementForm::ItemEndl => undo_end_line(stacks),
        StatementForm::ItemsTailNone => undo_no_items(alloc, stacks),
        StatementForm::ItemsTailLessLess => undo_more_items(stacks),
    }
}
