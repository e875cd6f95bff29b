//! Calls, suffixes and arguments.
ghost use Rattle.std.specs.Prelude.{◌≡◌, [], IfOk, None};
ghost use Rattle.comet_syntax.specs.Grammar.Symbols.{argument, arguments, arguments_tail, called, listed, second, suffixes};
ghost use Rattle.comet_syntax.specs.Grammar.Expressions.{argument_expression, argument_string, arguments_tail_comma, called_left_parenthesis, listed_argument, second_comma, suffixes_dot, suffixes_left_bracket};
ghost use Rattle.parse_stacks.specs.Undoing.{Ready, Undone};
ghost use Rattle.build_expressions.specs.MadeArguments.{ArgumentMade, CalledMade, IndexMade, ListedMade, MethodMade, MoreArgumentsMade, SecondMade, StringMade};

use crate::making::{in_order, make_index, make_method};
use cbl_base::NoMemory;
use comet_syntax::tree::Argument;
use parse_stacks::{Stacks, put, put_first, take};
use std::alloc::Global;

/// `(arguments)`
pub fn undo_called(stacks: &mut Stacks) -> Result<(), NoMemory>
    requires { Ready called_left_parenthesis stacks.old }
    ensures { IfOk result (λ _. Undone called called_left_parenthesis CalledMade stacks.old stacks.new) }
{
    let listed = take(&mut stacks.lists);
    let all = in_order(listed);
    put(&mut stacks.called, Some(all))
}

/// `[index]` or `[index, second]`, and more
pub fn undo_index(stacks: &mut Stacks) -> Result<(), NoMemory>
    requires { Ready suffixes_left_bracket stacks.old }
    ensures { IfOk result (λ _. Undone suffixes suffixes_left_bracket IndexMade stacks.old stacks.new) }
{
    let place = take(&mut stacks.places);
    let index = take(&mut stacks.expressions);
    let second = take(&mut stacks.optional);
    let next = make_index(place, index, second);
    put_first(&mut stacks.suffixes, next)
}

/// `.name(arguments)` and more
pub fn undo_method(stacks: &mut Stacks) -> Result<(), NoMemory>
    requires { Ready suffixes_dot stacks.old }
    ensures { IfOk result (λ _. Undone suffixes suffixes_dot MethodMade stacks.old stacks.new) }
{
    let name = take(&mut stacks.names);
    let listed = take(&mut stacks.lists);
    let next = make_method(name, listed);
    put_first(&mut stacks.suffixes, next)
}

/// `, second`
pub fn undo_second(stacks: &mut Stacks) -> Result<(), NoMemory>
    requires { Ready second_comma stacks.old }
    ensures { IfOk result (λ _. Undone second second_comma SecondMade stacks.old stacks.new) }
{
    let index = take(&mut stacks.expressions);
    put(&mut stacks.optional, Some(index))
}

/// A first argument and more
pub fn undo_listed(stacks: &mut Stacks) -> Result<(), NoMemory>
    requires { Ready listed_argument stacks.old }
    ensures { IfOk result (λ _. Undone listed listed_argument ListedMade stacks.old stacks.new) }
{
    let first = take(&mut stacks.arguments);
    put_first(&mut stacks.lists, first)
}

/// `, argument` and more
pub fn undo_more_arguments(stacks: &mut Stacks) -> Result<(), NoMemory>
    requires { Ready arguments_tail_comma stacks.old }
    ensures { IfOk result (λ _. Undone arguments_tail arguments_tail_comma MoreArgumentsMade stacks.old stacks.new) }
{
    let next = take(&mut stacks.arguments);
    put_first(&mut stacks.lists, next)
}

/// An expression as an argument
pub fn undo_argument(stacks: &mut Stacks) -> Result<(), NoMemory>
    requires { Ready argument_expression stacks.old }
    ensures { IfOk result (λ _. Undone argument argument_expression ArgumentMade stacks.old stacks.new) }
{
    let value = take(&mut stacks.expressions);
    put(&mut stacks.arguments, Argument::Expression(value))
}

/// A string as an argument
pub fn undo_string(stacks: &mut Stacks) -> Result<(), NoMemory>
    requires { Ready argument_string stacks.old }
    ensures { IfOk result (λ _. Undone argument argument_string StringMade stacks.old stacks.new) }
{
    let string = take(&mut stacks.texts);
    put(&mut stacks.arguments, Argument::Str(string))
}

/// No call
pub fn undo_no_call(stacks: &mut Stacks) -> Result<(), NoMemory>
    ensures { IfOk result (λ _. Undone called [] (λ v x. x ≡ None) stacks.old stacks.new) }
{
    put(&mut stacks.called, None)
}

/// No suffixes
pub fn undo_no_suffixes(alloc: Global, stacks: &mut Stacks) -> Result<(), NoMemory>
    ensures { IfOk result (λ _. Undone suffixes [] (λ v x. x.items ≡ []) stacks.old stacks.new) }
{
    put(&mut stacks.suffixes, Vec::new(alloc))
}

/// No second index
pub fn undo_no_second(stacks: &mut Stacks) -> Result<(), NoMemory>
    ensures { IfOk result (λ _. Undone second [] (λ v x. x ≡ None) stacks.old stacks.new) }
{
    put(&mut stacks.optional, None)
}

/// No arguments
pub fn undo_no_arguments(alloc: Global, stacks: &mut Stacks) -> Result<(), NoMemory>
    ensures { IfOk result (λ _. Undone arguments [] (λ v x. x.items ≡ []) stacks.old stacks.new) }
{
    put(&mut stacks.lists, Vec::new(alloc))
}
