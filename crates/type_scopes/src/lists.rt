//! Lists that contracts see as such.
use checked_tree::{Kind, Slot};
use std::alloc::Global;
use std::marker::Model;

/// Kinds, seen as their list.
#[derive(Drop)]
pub struct Kinds {
    items: Vec<Kind>,
}

impl Model for Kinds {
    ghost use Rattle.std.specs.Prelude.{List};
    ghost use Rattle.checked_tree.specs.declared.kind.Kind.{Kind};

    ghost Value = { List Kind };

    ghost view = { λ a. a.items.items };
}

impl Kinds {
    ghost use Rattle.std.specs.Prelude.{◌≡◌};

    pub fn new(items: Vec<Kind>) -> Kinds
        ensures { result ≡ items.items }
    {
        Kinds { items }
    }

    pub fn as_slice(&self) -> &[Kind]
        ensures { result.now ≡ self.now }
    {
        self.items.as_slice()
    }
}

/// Cells, seen as their list.
#[derive(Drop)]
pub struct Slots {
    items: Vec<Slot>,
}

impl Model for Slots {
    ghost use Rattle.std.specs.Prelude.{List};
    ghost use Rattle.checked_tree.specs.declared.expressions.Slot.{Slot};

    ghost Value = { List Slot };

    ghost view = { λ a. a.items.items };
}

impl Slots {
    ghost use Rattle.std.specs.Prelude.{◌≡◌, []};

    pub fn new(items: Vec<Slot>) -> Slots
        ensures { result ≡ items.items }
    {
        Slots { items }
    }

    pub fn none(alloc: Global) -> Slots
        ensures { result ≡ [] }
    {
        Slots {
            items: Vec::new(alloc),
        }
    }

    pub fn as_slice(&self) -> &[Slot]
        ensures { result.now ≡ self.now }
    {
        self.items.as_slice()
    }
}

/// Tests, seen as their list.
#[derive(Drop)]
pub struct Flags {
    items: Vec<bool>,
}

impl Model for Flags {
    ghost use Rattle.std.specs.Prelude.{List, Bool};

    ghost Value = { List Bool };

    ghost view = { λ a. a.items.items };
}

impl Flags {
    ghost use Rattle.std.specs.Prelude.{◌≡◌, IfOk};
    ghost use Rattle.type_scopes.specs.Effects as effects;

    /// So many, none of them true.
    pub fn none(alloc: Global, count: usize) -> Result<Flags, cbl_base::NoMemory>
        ensures { IfOk result (λ flags. flags ≡ effects.no_flags count) }
    {
        let items = vec![in alloc; false; count]?;
        Ok(Flags { items })
    }

    pub fn as_slice(&self) -> &[bool]
        ensures { result.now ≡ self.now }
    {
        self.items.as_slice()
    }

    /// Marks the parameter that a cell is.
    pub fn mark(&mut self, slot: Slot)
        ensures { self.new ≡ effects.marked slot self.old }
    {
        if let Slot::Local(number) = slot {
            if number < self.items.len() {
                self.items[number] = true;
            }
        }
    }

    /// Marks the parameters among these cells.
    pub fn mark_all(&mut self, slots: &[Slot])
        ensures { self.new ≡ effects.all_marked slots.now self.old }
    {
        for slot in slots {
            self.mark(*slot);
        }
    }
}
