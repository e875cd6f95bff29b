//! Where the last name of each spelling stands.
ghost use Rattle.std.specs.Prelude.{◌≡◌, ℕ, List, true, OnOk, OnErr, if◌then◌else◌};
ghost use Rattle.std.specs.Str.{bytes_eq};
ghost use Rattle.type_scopes.specs.Latest.{latest_at, is_held};

use cbl_base::NoMemory;
use std::alloc::Global;
use std::collections::BTreeMap;

/// A number for each spelling, 0 for one that it lacks.
#[derive(Drop)]
pub struct Latest {
    by_name: BTreeMap<Vec<u8>, usize>,
}

impl Latest {
    /// 0 for each spelling.
    pub fn new(alloc: Global) -> Latest
        ensures { (name : List ℕ) → latest_at result name ≡ 0 }
    {
        Latest {
            by_name: BTreeMap::new(alloc),
        }
    }

    /// The number of a spelling.
    pub fn at(&self, name: &[u8]) -> usize
        ensures { result ≡ latest_at self.now name.now }
    {
        self.by_name.get(name).copied().unwrap_or(0)
    }

    /// Keeps a number, so that the spelling is held. With `NoMemory` the numbers stay.
    pub fn put(&mut self, alloc: Global, name: &[u8], number: usize) -> Result<(), NoMemory>
        ensures held { OnOk result (is_held self.new name.now ≡ true) }
        ensures ok { OnOk result ((other : List ℕ) → latest_at self.new other ≡ (if bytes_eq name.now other then number else latest_at self.old other)) }
        ensures err { OnErr result ((other : List ℕ) →
            latest_at self.new other ≡ latest_at self.old other) }
    {
        let key = Vec::from_slice(alloc, name)?;
        self.by_name.insert(key, number)?;
        Ok(())
    }

    /// Changes the number of a spelling that is held.
    pub fn set(&mut self, name: &[u8], number: usize)
        requires { is_held self.old name.now ≡ true }
        ensures { (other : List ℕ) → latest_at self.new other ≡
            (if bytes_eq name.now other then number else latest_at self.old other) }
    {
        if let Some(kept) = self.by_name.get_mut(name) {
            *kept = number;
        }
    }
}
