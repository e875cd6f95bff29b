//! Operands: names, literals, sets, signs and aggregates, with what stands behind a primary.
ghost use Rattle.std.specs.Prelude.{IfOk};
ghost use Rattle.comet_syntax.specs.Grammar.Symbols.{extreme, literal, operand, unnamed};
ghost use Rattle.comet_syntax.specs.Grammar.Expressions.{extreme_min, literal_left_bracket, literal_left_parenthesis, literal_true, operand_name, unnamed_left_brace, unnamed_literal, unnamed_minus, unnamed_sum};
ghost use Rattle.parse_stacks.specs.Undoing.{Ready, Undone};
ghost use Rattle.build_expressions.specs.MadeOperands.{AggregateMade, ExtremeMade, ListMade, NamedMade, ParenthesesMade, SetMade, SuffixedMade, TruthMade, UnaryMade};

use crate::making::{
    make_aggregate, make_extreme, make_list, make_parentheses, make_set, make_truth, make_unary,
};
use cbl_base::NoMemory;
use comet_syntax::tree::{Aggregate, Extreme, UnaryOperator};
use parse_stacks::{Stacks, link, name_operand, put, put_made, suffix, take};
use std::alloc::Global;

/// A name or a call, with suffixes.
pub fn undo_named(alloc: Global, stacks: &mut Stacks) -> Result<(), NoMemory>
    requires { Ready operand_name stacks.old }
    ensures { IfOk result (λ _. Undone operand operand_name NamedMade stacks.old stacks.new) }
{
    let name = take(&mut stacks.names);
    let called = take(&mut stacks.called);
    let suffixes = take(&mut stacks.suffixes);
    let made = name_operand(alloc, name, called, suffixes);
    put_made(&mut stacks.expressions, made)
}

/// A literal, or `min` or `max` of two expressions, with suffixes.
pub fn undo_suffixed(alloc: Global, stacks: &mut Stacks) -> Result<(), NoMemory>
    requires { Ready unnamed_literal stacks.old }
    ensures { IfOk result (λ _. Undone unnamed unnamed_literal SuffixedMade stacks.old stacks.new) }
{
    let primary = take(&mut stacks.expressions);
    let suffixes = take(&mut stacks.suffixes);
    let made = suffix(alloc, primary, suffixes);
    put_made(&mut stacks.expressions, made)
}

/// `{arguments}` and suffixes
pub fn undo_set(alloc: Global, stacks: &mut Stacks) -> Result<(), NoMemory>
    requires { Ready unnamed_left_brace stacks.old }
    ensures { IfOk result (λ _. Undone unnamed unnamed_left_brace SetMade stacks.old stacks.new) }
{
    let place = take(&mut stacks.places);
    let listed = take(&mut stacks.lists);
    let suffixes = take(&mut stacks.suffixes);
    let primary = make_set(place, listed);
    let made = suffix(alloc, primary, suffixes);
    put_made(&mut stacks.expressions, made)
}

/// `-operand` or `!operand`
pub fn undo_unary(
    alloc: Global,
    stacks: &mut Stacks,
    operator: UnaryOperator,
) -> Result<(), NoMemory>
    requires { Ready unnamed_minus stacks.old }
    ensures { IfOk result (λ _. Undone unnamed unnamed_minus
        (UnaryMade operator) stacks.old stacks.new) }
{
    let place = take(&mut stacks.places);
    let operand = take(&mut stacks.expressions);
    let made = make_unary(alloc, operator, place, operand);
    put_made(&mut stacks.expressions, made)
}

/// `sum(generators) body` and its like
pub fn undo_aggregate(alloc: Global, stacks: &mut Stacks, kind: Aggregate) -> Result<(), NoMemory>
    requires { Ready unnamed_sum stacks.old }
    ensures { IfOk result (λ _. Undone unnamed unnamed_sum
        (AggregateMade kind) stacks.old stacks.new) }
{
    let place = take(&mut stacks.places);
    let operand = take(&mut stacks.expressions);
    let product = take(&mut stacks.links);
    let body = link(alloc, operand, product)?;
    let generators = take(&mut stacks.all_generators);
    let made = make_aggregate(alloc, kind, place, generators, body);
    put_made(&mut stacks.expressions, made)
}

/// `true` or `false`
pub fn undo_truth(stacks: &mut Stacks, value: bool) -> Result<(), NoMemory>
    requires { Ready literal_true stacks.old }
    ensures { IfOk result (λ _. Undone literal literal_true
        (TruthMade value) stacks.old stacks.new) }
{
    let place = take(&mut stacks.places);
    let made = make_truth(value, place);
    put(&mut stacks.expressions, made)
}

/// `(inner)`
pub fn undo_parentheses(alloc: Global, stacks: &mut Stacks) -> Result<(), NoMemory>
    requires { Ready literal_left_parenthesis stacks.old }
    ensures { IfOk result (λ _. Undone literal literal_left_parenthesis ParenthesesMade stacks.old stacks.new) }
{
    let place = take(&mut stacks.places);
    let inner = take(&mut stacks.expressions);
    let made = make_parentheses(alloc, place, inner);
    put_made(&mut stacks.expressions, made)
}

/// `[arguments]`
pub fn undo_list(stacks: &mut Stacks) -> Result<(), NoMemory>
    requires { Ready literal_left_bracket stacks.old }
    ensures { IfOk result (λ _. Undone literal literal_left_bracket ListMade stacks.old stacks.new) }
{
    let place = take(&mut stacks.places);
    let listed = take(&mut stacks.lists);
    let made = make_list(place, listed);
    put(&mut stacks.expressions, made)
}

/// `min(left, right)` or `max(left, right)`
pub fn undo_extreme(alloc: Global, stacks: &mut Stacks, which: Extreme) -> Result<(), NoMemory>
    requires { Ready extreme_min stacks.old }
    ensures { IfOk result (λ _. Undone extreme extreme_min
        (ExtremeMade which) stacks.old stacks.new) }
{
    let place = take(&mut stacks.places);
    let left = take(&mut stacks.expressions);
    let right = take(&mut stacks.expressions);
    let made = make_extreme(alloc, which, place, left, right);
    put_made(&mut stacks.expressions, made)
}
