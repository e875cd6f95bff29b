//! The visible names, found by their spelling.
ghost use Rattle.std.specs.Prelude.{◌≡◌, ◌++◌, ◌∷◌, ◌<◌, ◌-◌, [], ℕ, List, length, take, slice_get, IfOk, OnOk, OnErr};
ghost use Rattle.type_scopes.specs.Index.{IsIndexed, bindings_of};
ghost use Rattle.type_scopes.specs.Names as names;

use crate::latest::Latest;
use crate::lists::Slots;
use cbl_base::{NoMemory, Text};
use checked_tree::{Kind, Slot};
use std::alloc::Global;
use std::marker::Model;

/// A name that is visible.
#[derive(Drop)]
pub struct Binding {
    pub name: Text,
    pub kind: Kind,
    /// Of a function: its signature's number.
    pub function: usize,
    /// Of a solution: the cells of the solvers that it may belong to.
    pub solvers: Slots,
}

/// A name, with the number of the name of its spelling that it hides.
#[derive(Drop)]
pub(crate) struct Entry {
    binding: Binding,
    hidden: usize,
}

/// A visible name: its number in order of declaration, and what it is.
#[derive(Clone, Copy)]
pub struct Found {
    pub index: usize,
    pub kind: Kind,
    pub function: usize,
}

/// The visible names, seen as their list in order of declaration.
#[derive(Drop)]
pub struct Names {
    alloc: Global,
    entries: Vec<Entry>,
    latest: Latest,
}

impl Model for Names {
    ghost use Rattle.std.specs.Prelude.{List};
    ghost use Rattle.type_scopes.specs.declared.names.Binding.{Binding};
    ghost use Rattle.type_scopes.specs.Index.{IsIndexed, bindings_of};

    ghost Value = { List Binding };

    ghost view = { λ a. bindings_of a.entries.items };

    ghost invariant = { λ a. IsIndexed a.entries.items a.latest };
}

fn found_at(entries: &[Entry], index: usize) -> Option<Found>
    ensures { result ≡ names.found_in index (slice_get (bindings_of entries.now) index) }
{
    match entries.get(index) {
        None => None,
        Some(entry) => Some(Found {
            index,
            kind: entry.binding.kind,
            function: entry.binding.function,
        }),
    }
}

fn solvers_at(entries: &[Entry], index: usize) -> &[Slot]
    ensures { result.now ≡ names.solvers_at (bindings_of entries.now) index }
{
    match entries.get(index) {
        None => &[],
        Some(entry) => entry.binding.solvers.as_slice(),
    }
}

/// Takes the last name off.
fn hide_last(entries: &mut Vec<Entry>, latest: &mut Latest)
    requires indexed { IsIndexed entries.old.items latest.old }
    requires some { 0 < length entries.old.items }
    ensures indexed { IsIndexed entries.new.items latest.new }
    ensures rest { entries.new.items ≡ take (length entries.old.items - 1) entries.old.items }
{
    if let Some(entry) = entries.pop() {
        latest.set(entry.binding.name.as_slice(), entry.hidden);
    }
}

/// Puts a name behind the others.
fn push_entry(
    entries: &mut Vec<Entry>,
    latest: &mut Latest,
    alloc: Global,
    binding: Binding,
) -> Result<(), NoMemory>
    requires { IsIndexed entries.old.items latest.old }
    ensures indexed { IsIndexed entries.new.items latest.new }
    ensures ok { OnOk result (bindings_of entries.new.items ≡
        bindings_of entries.old.items ++ binding ∷ []) }
    ensures err { OnErr result (bindings_of entries.new.items ≡ bindings_of entries.old.items) }
{
    let hidden = latest.at(binding.name.as_slice());
    latest.put(alloc, binding.name.as_slice(), hidden)?;
    entries.try_reserve(1)?;
    latest.set(binding.name.as_slice(), entries.len() + 1);
    entries.push(Entry { binding, hidden })?;
    Ok(())
}

impl Names {
    pub fn new(alloc: Global) -> Names
        ensures { result ≡ [] }
    {
        Names {
            alloc,
            entries: Vec::new(alloc),
            latest: Latest::new(alloc),
        }
    }

    /// How many names are visible.
    pub fn len(&self) -> usize
        ensures { result ≡ length self.now }
    {
        self.entries.len()
    }

    /// The visible name that is spelled so.
    pub fn look(&self, name: &[u8]) -> Option<Found>
        ensures { result ≡ names.look name.now self.now }
    {
        let number = self.latest.at(name);
        if number == 0 {
            None
        } else {
            found_at(&self.entries, number - 1)
        }
    }

    /// Whether no name of the innermost block, which begins behind so many names, is spelled so.
    pub fn is_new(&self, name: &[u8], block: usize) -> bool
        ensures { result ≡ names.is_new name.now block self.now }
    {
        self.latest.at(name) <= block
    }

    /// The cells of the solvers of the name with this number.
    pub fn solvers_at(&self, index: usize) -> &[Slot]
        ensures { result.now ≡ names.solvers_at self.now index }
    {
        solvers_at(&self.entries, index)
    }

    /// Declares a name. With `NoMemory` the names stay.
    pub fn push(&mut self, binding: Binding) -> Result<(), NoMemory>
        ensures ok { OnOk result (self.new ≡ self.old ++ binding ∷ []) }
        ensures err { OnErr result (self.new ≡ self.old) }
    {
        push_entry(&mut self.entries, &mut self.latest, self.alloc, binding)
    }

    /// Keeps only the first so many names.
    pub fn close(&mut self, count: usize)
        ensures { self.new ≡ take count self.old }
    {
        while self.entries.len() > count {
            hide_last(&mut self.entries, &mut self.latest);
        }
    }
}
