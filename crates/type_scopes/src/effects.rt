//! What parts do beyond giving a value.
ghost use Rattle.std.specs.Prelude.{◌≡◌, IfOk};
ghost use Rattle.std.specs.List.{list_any};
ghost use Rattle.type_scopes.specs.Effects as effects;

use crate::lists::{Flags, Kinds};
use cbl_base::NoMemory;
use checked_tree::{Kind, Slot};
use std::alloc::Global;

/// What a part does beyond giving a value, besides which names it writes.
#[derive(Clone, Copy)]
pub struct Doing {
    pub impure: bool,
    /// It is left out of terms, or holds incremental variables where none may.
    pub not_in_term: bool,
    /// It writes a global name.
    pub global: bool,
    /// It writes through what it is handed, and not only the name's own cell.
    pub through: bool,
    pub forbidden: bool,
}

/// What a function does beyond giving a value.
#[derive(Drop)]
pub struct Effects {
    /// It draws, prints, writes, commits, reads data or asks a monitor.
    pub impure: bool,
    pub writes_global: bool,
    /// Through which parameters it writes.
    pub written: Flags,
    /// It does what no `parall` may.
    pub forbidden: bool,
}

/// A function, as its calls see it.
#[derive(Drop)]
pub struct Signature {
    pub result: Kind,
    pub parameters: Kinds,
    /// Its body is one `return` of an expression.
    pub is_single: bool,
    pub effects: Effects,
}

impl Effects {
    /// No effects, of a function with so many parameters.
    pub fn none(alloc: Global, parameters: usize) -> Result<Effects, NoMemory>
        ensures { IfOk result (λ none. none ≡ effects.no_effects parameters) }
    {
        Ok(Effects {
            impure: false,
            writes_global: false,
            written: Flags::none(alloc, parameters)?,
            forbidden: false,
        })
    }

    /// Adds what a part does that writes through these cells.
    pub fn add(&mut self, doing: Doing, roots: &[Slot])
        ensures { self.new ≡ effects.with_doing doing roots.now self.old }
    {
        let global = doing.global || is_any_global(roots);
        self.impure = self.impure || doing.impure;
        self.writes_global = self.writes_global || global;
        if doing.through {
            self.written.mark_all(roots);
        }
        self.forbidden = self.forbidden || doing.forbidden;
    }

    /// Whether they are the same.
    pub fn is_same(&self, other: &Effects) -> bool
        ensures { result ≡ effects.same_effects self.now other.now }
    {
        let flags = is_same_flags(self.written.as_slice(), other.written.as_slice());
        self.impure == other.impure
            && (self.writes_global == other.writes_global
                && (self.forbidden == other.forbidden && flags))
    }
}

fn is_any_global(slots: &[Slot]) -> bool
    ensures { result ≡ list_any effects.is_global slots.now }
{
    slots.iter().any(|slot| matches!(slot, Slot::Global(_)))
}

fn is_same_flags(ones: &[bool], others: &[bool]) -> bool
    ensures { result ≡ effects.same_flags ones.now others.now }
{
    ones == others
}
