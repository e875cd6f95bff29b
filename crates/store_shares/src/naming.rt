//! Which of some numbered lists name a variable.
ghost use Rattle.std.specs.Prelude.{◌≡◌, ◌+◌, ◌++◌, [], ◌∷◌, ℕ, List, IfOk, OnOk};
ghost use Rattle.store_shares.specs.Naming.{IsNaming, IsPut};

use crate::words::{Word, push_number};
use cbl_base::NoMemory;
use std::alloc::Global;

/// For each variable the numbers of the lists that name it, and how many lists there are.
#[derive(Drop)]
pub(crate) struct Naming {
    pub(crate) sets: Vec<Vec<Word>>,
    pub(crate) count: usize,
}

/// Puts a number into the set of a variable, where there is one.
fn put(sets: &mut Vec<Vec<Word>>, variable: u32, number: usize) -> Result<(), NoMemory>
    ensures { OnOk result (IsPut sets.old.items sets.new.items number (variable ∷ [])) }
{
    let place = variable as usize;
    if place >= sets.len() {
        return Ok(());
    }
    push_number(&mut sets[place], number)?;
    Ok(())
}

/// Puts a number into the sets of some variables.
fn put_all(sets: &mut Vec<Vec<Word>>, variables: &[u32], number: usize) -> Result<(), NoMemory>
    ensures { OnOk result (IsPut sets.old.items sets.new.items number variables.now) }
{
    for variable in variables {
        put(sets, *variable, number)?;
    }
    Ok(())
}

impl Naming {
    /// No list, of so many variables.
    pub(crate) fn new(alloc: Global, variables: usize) -> Result<Naming, NoMemory>
        ensures { IfOk result (λ naming. IsNaming variables naming []) }
    {
        let mut sets = Vec::with_capacity(alloc, variables)?;
        for _variable in 0..variables {
            sets.push(Vec::new(alloc))?;
        }
        Ok(Naming { sets, count: 0 })
    }

    /// A list more.
    pub(crate) fn push(&mut self, list: &[u32]) -> Result<(), NoMemory>
        ensures more { OnOk result ((variables : ℕ) (lists : List (List ℕ)) →
            IsNaming variables self.old lists → IsNaming variables self.new (lists ++ list.now ∷ [])) }
        ensures count { OnOk result (self.new.count ≡ self.old.count + 1) }
    {
        let Some(next) = self.count.checked_add(1) else {
            return Err(NoMemory);
        };
        put_all(&mut self.sets, list, self.count)?;
        self.count = next;
        Ok(())
    }
}
