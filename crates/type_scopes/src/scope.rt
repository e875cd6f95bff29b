//! Where parts stand.
use checked_tree::{Kind, Slot};
use type_rules::Context;

/// Where a part stands.
#[derive(Clone, Copy)]
pub struct Scope {
    pub context: Context,
    /// How many names were visible where the innermost block began.
    pub block: usize,
    /// At the top, outside any block.
    pub at_top: bool,
    /// How many of the names are global, where it isn't at the top.
    pub globals: usize,
    /// In a function: how many of the local names are its parameters, and what it gives.
    pub function: Option<Frame>,
    /// In a `parall`: how many local names lie outside it.
    pub parall: Option<usize>,
    /// In a `with`, a `neighbor`, a `whenever` or a `parall`.
    pub no_return: bool,
}

/// The function that a part stands in.
#[derive(Clone, Copy)]
pub struct Frame {
    pub parameters: usize,
    pub result: Kind,
}

impl Scope {
    ghost use Rattle.std.specs.Prelude.{◌≡◌};
    ghost use Rattle.type_scopes.specs.Names as names;

    /// The same place, where this is asked.
    pub fn within(self, context: Context) -> Scope
        ensures { result ≡ names.within context self }
    {
        Scope { context, ..self }
    }

    /// A block of its own, behind so many names.
    pub fn opened(self, count: usize) -> Scope
        ensures { result ≡ names.opened self count }
    {
        let globals = if self.at_top { count } else { self.globals };
        Scope {
            block: count,
            at_top: false,
            globals,
            ..self
        }
    }

    pub fn slot_of(self, index: usize) -> Slot
        ensures { result ≡ names.slot_of self index }
    {
        if self.at_top || index < self.globals {
            Slot::Global(index)
        } else {
            Slot::Local(index - self.globals)
        }
    }

    pub fn is_outside(self, slot: Slot) -> bool
        ensures { result ≡ names.is_outside self slot }
    {
        match self.parall {
            None => false,
            Some(count) => match slot {
                Slot::Global(_) => true,
                Slot::Local(number) => number < count,
            },
        }
    }
}
