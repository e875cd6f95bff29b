//! The forms of simple statements are undone.
ghost use Rattle.std.specs.Prelude.{◌≡◌, IfOk, [], ◌∷◌, reverse};
ghost use Rattle.comet_syntax.specs.declared.token.Word.TheVariants as words;
ghost use Rattle.comet_syntax.specs.Grammar.Statements.{first_name_name, named_simple_called, named_simple_equal, new_value_expression, new_value_new, simple_call, simple_cout, simple_first_name, simple_literal, write_equal, write_plus_plus, write_swap};
ghost use Rattle.comet_syntax.specs.Grammar.Symbols.{first_name, named_simple, new_value, simple, write};
ghost use Rattle.comet_syntax.specs.Written.Shown.{form, word, mark};
ghost use Rattle.comet_syntax.specs.Written.Expressions.{written};
ghost use Rattle.comet_syntax.specs.Written.Declarations.{whole_text};
ghost use Rattle.comet_syntax.specs.Written.Statements.{written_simple, items_text};
ghost use Rattle.parse_stacks.specs.declared.tails.NamedRest.TheVariants as named_rests;
ghost use Rattle.parse_stacks.specs.declared.tails.NewValue.TheVariants as new_values;
ghost use Rattle.parse_stacks.specs.declared.tails.WriteRest.TheVariants as write_rests;
ghost use Rattle.parse_stacks.specs.Raised.{with_suffixes};
ghost use Rattle.parse_stacks.specs.Undoing.{Ready, Undone};
ghost use Rattle.build_simples.specs.MadeSimples.{done_text, named_text};

use crate::targets::{finish_name, finish_target};
use cbl_base::{NoMemory, Place};
use comet_syntax::tree::{Expression, Item, Simple, Step, WriteOperator};
use parse_stacks::{
    NamedRest, NewValue, Stacks, WriteRest, put, put_before, put_made, suffix, take,
};
use std::alloc::Global;

/// A simple statement that begins with a name.
pub fn undo_named(alloc: Global, stacks: &mut Stacks) -> Result<(), NoMemory>
    requires { Ready simple_first_name stacks.old }
    ensures { IfOk result (λ _. Undone simple simple_first_name (λ v x.
        written_simple x ≡ named_text v.0 v.1.0) stacks.old stacks.new) }
{
    let name = take(&mut stacks.names);
    let rest = take(&mut stacks.named_rests);
    let made = finish_name(alloc, name, rest);
    put_made(&mut stacks.simples, made)
}

/// A simple statement that begins with a literal, or with `min` or `max`.
pub fn undo_unnamed(alloc: Global, stacks: &mut Stacks) -> Result<(), NoMemory>
    requires { Ready simple_literal stacks.old }
    ensures { IfOk result (λ _. Undone simple simple_literal (λ v x.
        written_simple x ≡ done_text (with_suffixes
        (written v.0) v.1.0) v.1.1.0) stacks.old stacks.new) }
{
    let primary = take(&mut stacks.expressions);
    let suffixes = take(&mut stacks.suffixes);
    let target = suffix(alloc, primary, suffixes)?;
    let rest = take(&mut stacks.writes);
    let made = finish_target(alloc, target, rest);
    put_made(&mut stacks.simples, made)
}

// `cout << items`
fn make_print(place: Place, items: Vec<Item>) -> Simple
    ensures { written_simple result ≡ (λ behind.
        form simple simple_cout ∷ mark words.Cout place (items_text items.items behind)) }
{
    Simple::Print { place, items }
}

/// `cout << item` and more items
pub fn undo_print(stacks: &mut Stacks) -> Result<(), NoMemory>
    requires { Ready simple_cout stacks.old }
    ensures { IfOk result (λ _. Undone simple simple_cout (λ v x.
        written_simple x ≡ (λ behind. form simple simple_cout ∷ mark words.Cout v.0
        (items_text (v.1.1.0 ∷ reverse v.1.1.1.0.items) behind))) stacks.old stacks.new) }
{
    let place = take(&mut stacks.places);
    let first = take(&mut stacks.items);
    let more = take(&mut stacks.item_lists);
    let mut items = put_before(more, first)?;
    items.reverse();
    let made = make_print(place, items);
    put(&mut stacks.simples, made)
}

// `call(chosen)`
fn make_call(alloc: Global, place: Place, chosen: Expression) -> Result<Simple, NoMemory>
    ensures { IfOk result (λ s. written_simple s ≡
        (λ behind. form simple simple_call ∷ mark words.Call place
        (word words.LeftParenthesis (whole_text chosen (word words.RightParenthesis behind))))) }
{
    let chosen = Box::new(alloc, chosen)?;
    Ok(Simple::Call { place, chosen })
}

/// `call(chosen)`
pub fn undo_call(alloc: Global, stacks: &mut Stacks) -> Result<(), NoMemory>
    requires { Ready simple_call stacks.old }
    ensures { IfOk result (λ _. Undone simple simple_call (λ v x.
        written_simple x ≡ (λ behind. form simple simple_call ∷ mark words.Call v.0
        (word words.LeftParenthesis (whole_text v.1.1.0
        (word words.RightParenthesis behind))))) stacks.old stacks.new) }
{
    let place = take(&mut stacks.places);
    let chosen = take(&mut stacks.expressions);
    let made = make_call(alloc, place, chosen);
    put_made(&mut stacks.simples, made)
}

/// `= value` behind a name
pub fn undo_set(stacks: &mut Stacks) -> Result<(), NoMemory>
    requires { Ready named_simple_equal stacks.old }
    ensures { IfOk result (λ _. Undone named_simple named_simple_equal (λ v x.
        x ≡ named_rests.Set v.1.0) stacks.old stacks.new) }
{
    let value = take(&mut stacks.new_values);
    put(&mut stacks.named_rests, NamedRest::Set(value))
}

/// What a target that begins with a name goes on with, and what is done with it.
pub fn undo_named_rest(stacks: &mut Stacks) -> Result<(), NoMemory>
    requires { Ready named_simple_called stacks.old }
    ensures { IfOk result (λ _. Undone named_simple named_simple_called (λ v x.
        x ≡ named_rests.Rest v.0 v.1.0 v.1.1.0) stacks.old stacks.new) }
{
    let called = take(&mut stacks.called);
    let suffixes = take(&mut stacks.suffixes);
    let write = take(&mut stacks.writes);
    let rest = NamedRest::Rest {
        called,
        suffixes,
        write,
    };
    put(&mut stacks.named_rests, rest)
}

/// `new class(arguments)`
pub fn undo_new(stacks: &mut Stacks) -> Result<(), NoMemory>
    requires { Ready new_value_new stacks.old }
    ensures { IfOk result (λ _. Undone new_value new_value_new (λ v x.
        x ≡ new_values.New v.1.0 v.1.1.1.0) stacks.old stacks.new) }
{
    let class = take(&mut stacks.classes);
    let arguments = take(&mut stacks.lists);
    put(&mut stacks.new_values, NewValue::New(class, arguments))
}

/// A value that a name is set to.
pub fn undo_set_value(stacks: &mut Stacks) -> Result<(), NoMemory>
    requires { Ready new_value_expression stacks.old }
    ensures { IfOk result (λ _. Undone new_value new_value_expression (λ v x.
        x ≡ new_values.Value v.0) stacks.old stacks.new) }
{
    let value = take(&mut stacks.expressions);
    put(&mut stacks.new_values, NewValue::Value(value))
}

/// Nothing is done with a target.
pub fn undo_no_write(stacks: &mut Stacks) -> Result<(), NoMemory>
    ensures { IfOk result (λ _. Undone write [] (λ v x.
        x ≡ write_rests.Nothing) stacks.old stacks.new) }
{
    put(&mut stacks.writes, WriteRest::Nothing)
}

/// `= value` and its like
pub fn undo_write(stacks: &mut Stacks, operator: WriteOperator) -> Result<(), NoMemory>
    requires { Ready write_equal stacks.old }
    ensures { IfOk result (λ _. Undone write write_equal (λ v x.
        x ≡ write_rests.Value operator v.1.0) stacks.old stacks.new) }
{
    let value = take(&mut stacks.expressions);
    put(&mut stacks.writes, WriteRest::Value(operator, value))
}

/// `:=: right`
pub fn undo_swap(stacks: &mut Stacks) -> Result<(), NoMemory>
    requires { Ready write_swap stacks.old }
    ensures { IfOk result (λ _. Undone write write_swap (λ v x.
        x ≡ write_rests.Swap v.1.0) stacks.old stacks.new) }
{
    let right = take(&mut stacks.expressions);
    put(&mut stacks.writes, WriteRest::Swap(right))
}

/// `++` or `--`
pub fn undo_step(stacks: &mut Stacks, step: Step) -> Result<(), NoMemory>
    ensures { IfOk result (λ _. Undone write write_plus_plus (λ v x.
        x ≡ write_rests.Step step) stacks.old stacks.new) }
{
    put(&mut stacks.writes, WriteRest::Step(step))
}

/// The name that a simple statement or a pair begins with.
pub fn undo_first_name(stacks: &mut Stacks) -> Result<(), NoMemory>
    requires { Ready first_name_name stacks.old }
    ensures { IfOk result (λ _. Undone first_name first_name_name (λ v x.
        x ≡ v.0) stacks.old stacks.new) }
{
    let name = take(&mut stacks.names);
    put(&mut stacks.names, name)
}
