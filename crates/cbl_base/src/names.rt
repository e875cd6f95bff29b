//! A list of names.
ghost use Rattle.std.specs.Prelude.{◌≡◌, ◌==◌, List, [], ◌∷◌, ◌++◌, length, is_ok, if◌then◌else◌, slice_get, option_copied};

use crate::faults::NoMemory;
use crate::text::Text;
use std::alloc::Global;
use std::marker::Model;

/// A list of names, and seen as the list of their bytes.
#[derive(Drop, Debug)]
pub struct Names {
    names: Vec<Text>,
}

impl Model for Names {
    ghost use Rattle.std.specs.Prelude.{ℕ, List};

    ghost Value = { List (List ℕ) };

    ghost view = { λ a. a.names.items };
}

impl Names {
    /// No names.
    pub fn new(alloc: Global) -> Names
        ensures { result ≡ [] }
    {
        Names {
            names: Vec::new(alloc),
        }
    }

    /// How many names there are.
    pub fn len(&self) -> usize
        ensures { result ≡ length self.now }
    {
        self.names.len()
    }

    /// Whether there is no name.
    pub fn is_empty(&self) -> bool
        ensures { result ≡ (length self.now == 0) }
    {
        self.names.is_empty()
    }

    /// The name at an index from 0. `None` exactly at an index that isn't below the length.
    pub fn get(&self, index: usize) -> Option<&Text>
        ensures { option_copied result ≡ slice_get self.now index }
    {
        self.names.get(index)
    }

    /// Adds a name at the end. With `NoMemory` the list stays as it was.
    pub fn push(&mut self, name: Text) -> Result<(), NoMemory>
        ensures { self.new ≡ (if is_ok result then self.old ++ name ∷ [] else self.old) }
    {
        self.names.push(name)?;
        Ok(())
    }

    /// The names.
    pub fn as_slice(&self) -> &[Text]
        ensures { result.now ≡ self.now }
    {
        self.names.as_slice()
    }
}
