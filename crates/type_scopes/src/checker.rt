//! What checking knows.
ghost use Rattle.std.specs.Prelude.{◌≡◌, length, drop, slice_get, option_map, IfOk};
ghost use Rattle.type_scopes.specs.Names as names;
ghost use Rattle.type_scopes.specs.Did.{Did};
ghost use Rattle.type_scopes.specs.Effects as effects;
ghost use Rattle.type_scopes.specs.Functions as functions;

use crate::effects::{Doing, Effects, Signature};
use crate::lists::Slots;
use crate::names::{Binding, Found, Names};
use cbl_base::{NoMemory, Text};
use checked_tree::{Kind, Slot, Stop};
use std::alloc::Global;
use std::marker::Model;
use std::mem;

/// What checking knows, seen as a record of lists.
#[derive(Drop)]
pub struct Checker {
    alloc: Global,
    names: Names,
    signatures: Vec<Signature>,
    effects: Effects,
    terms: Vec<Slot>,
}

impl Model for Checker {
    ghost use Rattle.type_scopes.specs.State.{State};

    ghost Value = { State };

    ghost view = { λ a. record { names = a.names; signatures = a.signatures.items; effects = a.effects; terms = a.terms.items } };
}

impl Checker {
    /// Nothing is known yet.
    pub fn new(alloc: Global) -> Result<Checker, NoMemory>
        ensures { IfOk result (λ checker. checker ≡ functions.nothing_known) }
    {
        Ok(Checker {
            alloc,
            names: Names::new(alloc),
            signatures: Vec::new(alloc),
            effects: Effects::none(alloc, 0)?,
            terms: Vec::new(alloc),
        })
    }

    /// The visible name that is spelled so.
    pub fn look(&self, name: &[u8]) -> Option<Found>
        ensures { result ≡ names.look name.now self.now.names }
    {
        self.names.look(name)
    }

    /// Whether no name of the innermost block, which begins behind so many names, is spelled so.
    pub fn is_new(&self, name: &[u8], block: usize) -> bool
        ensures { result ≡ names.is_new name.now block self.now.names }
    {
        self.names.is_new(name, block)
    }

    /// The cells of the solvers that a solution may belong to, by the number of its name.
    pub fn solvers_at(&self, index: usize) -> &[Slot]
        ensures { result.now ≡ names.solvers_at self.now.names index }
    {
        self.names.solvers_at(index)
    }

    pub fn alloc(&self) -> Global {
        self.alloc
    }

    /// How many names are visible.
    pub fn count(&self) -> usize
        ensures { result ≡ length self.now.names }
    {
        self.names.len()
    }

    /// Declares a name; of a solution, with the cells of its solver.
    pub fn declare_with(
        &mut self,
        name: &[u8],
        kind: Kind,
        function: usize,
        solvers: Slots,
    ) -> Result<(), Stop>
        ensures { Did (λ _. tt) result self.new
            (names.declare_with name.now kind function solvers self.old) }
    {
        let name = Text::from_slice(self.alloc, name)?;
        self.names.push(Binding {
            name,
            kind,
            function,
            solvers,
        })?;
        Ok(())
    }

    /// Declares a name.
    pub fn declare(&mut self, name: &[u8], kind: Kind) -> Result<(), Stop>
        ensures { Did (λ _. tt) result self.new (names.declare name.now kind self.old) }
    {
        let solvers = Slots::none(self.alloc);
        self.declare_with(name, kind, 0, solvers)
    }

    /// Ends a block: only so many names stay.
    pub fn close(&mut self, count: usize)
        ensures { names.closed count result self.old ≡ names.went result self.new }
    {
        self.names.close(count);
    }

    /// Notes what a part does, for the function that it stands in.
    pub fn do_this(&mut self, doing: Doing, roots: &[Slot])
        ensures { self.new ≡ record self.old { effects = effects.with_doing doing roots.now self.old.effects } }
    {
        self.effects.add(doing, roots);
    }

    /// Notes an incremental variable that a term names.
    pub fn name_in_term(&mut self, slot: Slot) -> Result<(), Stop>
        ensures { Did (λ _. tt) result self.new (names.named_in_term slot self.old) }
    {
        self.terms.push(slot)?;
        Ok(())
    }

    /// How many incremental variables terms have named.
    pub fn term_count(&self) -> usize
        ensures { result ≡ length self.now.terms }
    {
        self.terms.len()
    }

    /// The incremental variables that terms have named behind the first so many.
    pub fn terms_behind(&self, count: usize) -> &[Slot]
        ensures { result.now ≡ drop count self.now.terms }
    {
        if count > self.terms.len() {
            &[]
        } else {
            &self.terms[count..]
        }
    }

    /// How many functions are known.
    pub fn function_count(&self) -> usize
        ensures { result ≡ length self.now.signatures }
    {
        self.signatures.len()
    }

    /// The signature of the function with this number.
    pub fn signature(&self, function: usize) -> Option<&Signature>
        ensures { option_map (λ s. s.now) result ≡ slice_get self.now.signatures function }
    {
        self.signatures.get(function)
    }

    /// Learns a function.
    pub fn learn(&mut self, signature: Signature) -> Result<(), Stop>
        ensures { Did (λ _. tt) result self.new (functions.learn signature self.old) }
    {
        self.signatures.push(signature)?;
        Ok(())
    }

    /// Begins the body of a function with so many parameters, which has done nothing yet.
    pub fn begin(&mut self, parameters: usize) -> Result<(), Stop>
        ensures { Did (λ _. tt) result self.new (functions.begin parameters self.old) }
    {
        self.effects = Effects::none(self.alloc, parameters)?;
        Ok(())
    }

    /// Whether the function with this number is known to do just what its body did.
    pub fn is_settled(&self, function: usize) -> bool
        ensures { result ≡ functions.is_settled function self.now }
    {
        match self.signatures.get(function) {
            None => true,
            Some(signature) => signature.effects.is_same(&self.effects),
        }
    }

    /// The function with this number does what its body did. With `NoMemory` nothing is said.
    pub fn settle(&mut self, function: usize) -> Result<(), Stop>
        ensures { Did (λ _. tt) result self.new (functions.settle function self.old) }
    {
        let none = Effects::none(self.alloc, 0)?;
        let effects = mem::replace(&mut self.effects, none);
        if let Some(signature) = self.signatures.get_mut(function) {
            signature.effects = effects;
        }
        Ok(())
    }
}
