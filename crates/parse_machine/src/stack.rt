//! What is still to come, as a stack of what is left of each form that was begun.
ghost use Rattle.std.specs.Prelude.{◌≡◌, ◌≤◌, [], ◌∷◌, map, IfOk, IfErr, MatchOption};
ghost use Rattle.cbl_base.specs.declared.limits.TheConstants.{MAX_NESTING};
ghost use Rattle.comet_syntax.specs.Derivation.{push};
ghost use Rattle.parse_base.specs.declared.stop.Stop.TheVariants as stops;
ghost use Rattle.parse_machine.specs.Items.{item_at, item_in};
ghost use Rattle.parse_machine.specs.Parts.{symbol_of};

use crate::frame::Frame;
use crate::grammar::{Kind, Symbol};
use crate::item::Item;
use parse_base::Stop;
use std::alloc::Global;
use std::marker::Model;

/// What is still to come, the next first.
#[derive(Drop)]
pub struct Stack {
    frames: Vec<Frame>,
}

impl Model for Stack {
    ghost use Rattle.std.specs.Prelude.{List, reverse};
    ghost use Rattle.comet_syntax.specs.Derivation.{Item as ItemOf};
    ghost use Rattle.parse_machine.specs.Items.{pending};

    ghost Value = { List ItemOf };

    ghost view = { λ stack. pending (reverse stack.frames.items) };
}

// What a symbol of a form at this depth leaves to come.
fn item_of(symbol: Symbol, depth: usize) -> Item
    requires { depth ≤ MAX_NESTING }
    ensures { item_in result ≡ item_at (symbol_of symbol) depth }
{
    match symbol {
        Symbol::Word(word) => Item::Token(false, Kind::Word(word)),
        Symbol::Mark(word) => Item::Token(true, Kind::Word(word)),
        Symbol::Named => Item::Token(true, Kind::Name),
        Symbol::Numbered => Item::Token(true, Kind::Number),
        Symbol::Quoted => Item::Token(false, Kind::Str),
        Symbol::Same(part) => Item::Part(part, depth),
        Symbol::Deeper(part) => Item::Part(part, depth + 1),
        Symbol::Onward(part) => Item::Part(part, depth),
        Symbol::OnwardDeeper(part) => Item::Part(part, depth + 1),
    }
}

impl Stack {
    /// Nothing is to come.
    pub fn new(alloc: Global) -> Stack
        ensures { result ≡ [] }
    {
        Stack {
            frames: Vec::new(alloc),
        }
    }

    /// The symbols of a form come next.
    pub fn push(&mut self, symbols: &'static [Symbol], depth: usize) -> Result<(), Stop>
        requires { depth ≤ MAX_NESTING }
        ensures ok { IfOk result (λ _. self.new ≡ push (map symbol_of symbols.now) depth self.old) }
        ensures err { IfErr result (λ stop. stop ≡ stops.NoMemory) }
    {
        if let Some((first, behind)) = symbols.split_first() {
            self.frames.push(Frame {
                first: *first,
                behind,
                depth,
            })?;
        }
        Ok(())
    }

    /// Takes what comes next.
    pub fn take(&mut self) -> Result<Option<Item>, Stop>
        ensures ok { IfOk result (λ next.
            MatchOption next (self.old ≡ []) (λ item. self.old ≡ item_in item ∷ self.new)) }
        ensures err { IfErr result (λ stop. stop ≡ stops.NoMemory) }
    {
        match self.frames.pop() {
            Some(frame) => {
                self.push(frame.behind, frame.depth)?;
                Ok(Some(item_of(frame.first, frame.depth)))
            }
            None => Ok(None),
        }
    }
}
