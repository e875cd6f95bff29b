//! The forms of what is printed are undone.
ghost use Rattle.std.specs.Prelude.{◌≡◌, [], ◌∷◌, IfOk, reverse};
ghost use Rattle.comet_syntax.specs.declared.tree.statements.Item.TheVariants as items;
ghost use Rattle.comet_syntax.specs.Grammar.Statements.{item_endl, item_expression, item_string, items_tail_less_less};
ghost use Rattle.comet_syntax.specs.Grammar.Symbols.{item, items_tail};
ghost use Rattle.parse_stacks.specs.Undoing.{Ready, Undone};

use cbl_base::NoMemory;
use comet_syntax::tree::Item;
use parse_stacks::{Stacks, put, put_first, take};
use std::alloc::Global;

/// An expression that is printed.
pub fn undo_item(stacks: &mut Stacks) -> Result<(), NoMemory>
    requires { Ready item_expression stacks.old }
    ensures { IfOk result (λ _. Undone item item_expression (λ v x.
        x ≡ items.Expression v.0) stacks.old stacks.new) }
{
    let value = take(&mut stacks.expressions);
    put(&mut stacks.items, Item::Expression(value))
}

/// A string that is printed.
pub fn undo_string(stacks: &mut Stacks) -> Result<(), NoMemory>
    requires { Ready item_string stacks.old }
    ensures { IfOk result (λ _. Undone item item_string (λ v x.
        x ≡ items.Str v.0) stacks.old stacks.new) }
{
    let text = take(&mut stacks.texts);
    put(&mut stacks.items, Item::Str(text))
}

/// `endl`
pub fn undo_end_line(stacks: &mut Stacks) -> Result<(), NoMemory>
    ensures { IfOk result (λ _. Undone item item_endl (λ v x.
        x ≡ items.EndLine) stacks.old stacks.new) }
{
    put(&mut stacks.items, Item::EndLine)
}

/// `<< item` before other items
pub fn undo_more_items(stacks: &mut Stacks) -> Result<(), NoMemory>
    requires { Ready items_tail_less_less stacks.old }
    ensures { IfOk result (λ _. Undone items_tail items_tail_less_less (λ v x.
        reverse x.items ≡ v.1.0 ∷ reverse v.1.1.0.items) stacks.old stacks.new) }
{
    let first = take(&mut stacks.items);
    put_first(&mut stacks.item_lists, first)
}

/// No more items.
pub fn undo_no_items(alloc: Global, stacks: &mut Stacks) -> Result<(), NoMemory>
    ensures { IfOk result (λ _. Undone items_tail [] (λ v x. x.items ≡ []) stacks.old stacks.new) }
{
    let none = Vec::new(alloc);
    put(&mut stacks.item_lists, none)
}
