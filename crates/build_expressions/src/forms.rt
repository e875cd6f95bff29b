//! A form of expressions, undone.
ghost use Rattle.std.specs.Prelude.{IfOk};
ghost use Rattle.parse_machine.specs.Forms.{body_in_expression, part_in_expression};
ghost use Rattle.parse_stacks.specs.Undoing.{Ready, Undone};
ghost use Rattle.build_expressions.specs.Made.{Made};

use crate::arguments::{
    undo_argument, undo_called, undo_index, undo_listed, undo_method, undo_more_arguments,
    undo_no_arguments, undo_no_call, undo_no_second, undo_no_suffixes, undo_second, undo_string,
};
use crate::levels::{
    undo_branches, undo_compared, undo_conjunction, undo_disjunction, undo_no_branches,
    undo_no_comparison, undo_no_links, undo_no_range, undo_product, undo_range, undo_total,
    undo_whole,
};
use crate::operands::{
    undo_aggregate, undo_extreme, undo_list, undo_named, undo_parentheses, undo_set, undo_suffixed,
    undo_truth, undo_unary,
};
use crate::pairs::{undo_named_pair, undo_pair, undo_pair_over, undo_pair_two, undo_unnamed_pair};
use cbl_base::NoMemory;
use comet_syntax::tree::{Aggregate, ChainOperator, Comparison, Extreme, UnaryOperator};
use parse_machine::ExpressionForm as Form;
use parse_stacks::Stacks;
use std::alloc::Global;

/// Takes the values of a form's symbols off the stacks, and puts there what is made of them. A value that is its one
/// symbol's stays where it stands.
pub fn undo_expression(alloc: Global, stacks: &mut Stacks, form: Form) -> Result<(), NoMemory>
    requires { Ready (body_in_expression form) stacks.old }
    ensures { IfOk result (λ _. Undone (part_in_expression form) (body_in_expression form)
        (Made form) stacks.old stacks.new) }
{
    match form {
        Form::ExpressionOperand => undo_whole(alloc, stacks),
        Form::BranchesNone => undo_no_branches(stacks),
        Form::BranchesQuestion => undo_branches(stacks),
        Form::OrTailNone => undo_no_links(alloc, stacks),
        Form::OrTailOrOr => undo_disjunction(alloc, stacks),
        Form::AndTailNone => undo_no_links(alloc, stacks),
        Form::AndTailAndAnd => undo_conjunction(alloc, stacks),
        Form::ComparisonTailNone => undo_no_comparison(stacks),
        Form::ComparisonTailEqualEqual => undo_compared(alloc, stacks, Comparison::Equal),
        Form::ComparisonTailNotEqual => undo_compared(alloc, stacks, Comparison::NotEqual),
        Form::ComparisonTailLess => undo_compared(alloc, stacks, Comparison::Less),
        Form::ComparisonTailLessEqual => undo_compared(alloc, stacks, Comparison::LessEqual),
        Form::ComparisonTailGreater => undo_compared(alloc, stacks, Comparison::Greater),
        Form::ComparisonTailGreaterEqual => undo_compared(alloc, stacks, Comparison::GreaterEqual),
        Form::RangeTailNone => undo_no_range(stacks),
        Form::RangeTailDotDot => undo_range(alloc, stacks),
        Form::TotalTailNone => undo_no_links(alloc, stacks),
        Form::TotalTailPlus => undo_total(alloc, stacks, ChainOperator::Add),
        Form::TotalTailMinus => undo_total(alloc, stacks, ChainOperator::Subtract),
        Form::ProductTailNone => undo_no_links(alloc, stacks),
        Form::ProductTailStar => undo_product(stacks, ChainOperator::Multiply),
        Form::ProductTailSlash => undo_product(stacks, ChainOperator::Divide),
        Form::ProductTailPercent => undo_product(stacks, ChainOperator::Remainder),
        Form::OperandName => undo_named(alloc, stacks),
        Form::OperandUnnamed => Ok(()),
        Form::UnnamedLiteral => undo_suffixed(alloc, stacks),
        Form::UnnamedLeftBrace => undo_set(alloc, stacks),
        Form::UnnamedMin => undo_pair(alloc, stacks, Extreme::Min),
        Form::UnnamedMax => undo_pair(alloc, stacks, Extreme::Max),
        Form::UnnamedMinus => undo_unary(alloc, stacks, UnaryOperator::Negative),
        Form::UnnamedExclamation => undo_unary(alloc, stacks, UnaryOperator::Not),
        Form::UnnamedSum => undo_aggregate(alloc, stacks, Aggregate::Sum),
        Form::UnnamedAll => undo_aggregate(alloc, stacks, Aggregate::All),
        Form::UnnamedAnd => undo_aggregate(alloc, stacks, Aggregate::And),
        Form::UnnamedOr => undo_aggregate(alloc, stacks, Aggregate::Or),
        Form::UnnamedSetOf => undo_aggregate(alloc, stacks, Aggregate::SetOf),
        Form::UnnamedArgMin => undo_aggregate(alloc, stacks, Aggregate::ArgMin),
        Form::UnnamedArgMax => undo_aggregate(alloc, stacks, Aggregate::ArgMax),
        Form::PairFirstName => undo_named_pair(alloc, stacks),
        Form::PairUnnamed => undo_unnamed_pair(alloc, stacks),
        Form::PairNamedIn => undo_pair_over(alloc, stacks),
        Form::PairNamedCalled => undo_pair_two(stacks),
        Form::LiteralNumber => Ok(()),
        Form::LiteralTrue => undo_truth(stacks, true),
        Form::LiteralFalse => undo_truth(stacks, false),
        Form::LiteralLeftParenthesis => undo_parentheses(alloc, stacks),
        Form::LiteralLeftBracket => undo_list(stacks),
        Form::ExtremeMin => undo_extreme(alloc, stacks, Extreme::Min),
        Form::ExtremeMax => undo_extreme(alloc, stacks, Extreme::Max),
        Form::PostfixName => undo_named(alloc, stacks),
        Form::PostfixLiteral => undo_suffixed(alloc, stacks),
        Form::PostfixLeftBrace => undo_set(alloc, stacks),
        Form::PostfixExtreme => undo_suffixed(alloc, stacks),
        Form::CalledNone => undo_no_call(stacks),
        Form::CalledLeftParenthesis => undo_called(stacks),
        Form::SuffixesNone => undo_no_suffixes(alloc, stacks),
        Form::SuffixesLeftBracket => undo_index(stacks),
        Form::SuffixesDot => undo_method(stacks),
        Form::SecondNone => undo_no_second(stacks),
        Form::SecondComma => undo_second(stacks),
        Form::ArgumentsNone => undo_no_arguments(alloc, stacks),
        Form::ArgumentsListed => Ok(()),
        Form::ListedArgument => undo_listed(stacks),
        Form::ArgumentsTailNone => undo_no_arguments(alloc, stacks),
        Form::ArgumentsTailComma => undo_more_arguments(stacks),
        Form::ArgumentExpression => undo_argument(stacks),
        Form::ArgumentString => undo_string(stacks),
    }
}
