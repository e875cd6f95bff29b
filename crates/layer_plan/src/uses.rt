//! For each item the items that depend on it, its users.
ghost use Rattle.std.specs.Prelude.{◌≡◌, ℕ, ◌<◌, ◌^◌, List, length, IfOk, OnOk};
ghost use Rattle.layer_plan.specs.Dependencies.{DependsOn, AreItems};
ghost use Rattle.layer_plan.specs.Uses.{Adds, AreUses};

use crate::search::{entry, list_of};
use cbl_base::NoMemory;
use std::alloc::Global;

/// So many empty lists.
fn empty_lists(alloc: Global, count: usize) -> Result<Vec<Vec<u32>>, NoMemory>
    ensures count { IfOk result (λ lists. length lists.items ≡ count) }
    ensures empty { IfOk result (λ lists. (w v : ℕ) → DependsOn lists.items w v → ⊥) }
{
    let mut lists = Vec::with_capacity(alloc, count)?;
    for _item in 0..count {
        lists.push(Vec::new(alloc))?;
    }
    Ok(lists)
}

/// Adds a user of an item.
fn add_user(uses: &mut Vec<Vec<u32>>, item: u32, user: u32) -> Result<(), NoMemory>
    requires { item < length uses.old.items }
    ensures { OnOk result (Adds uses.old.items uses.new.items (λ w v. (w ≡ item) × (v ≡ user))) }
{
    uses[item as usize].push(user)?;
    Ok(())
}

/// Adds an item as a user of each item that it depends on.
fn add_uses(uses: &mut Vec<Vec<u32>>, deps: &[Vec<u32>], item: u32) -> Result<(), NoMemory>
    requires items { AreItems deps.now }
    requires count { length uses.old.items ≡ length deps.now }
    requires item { item < length deps.now }
    ensures { OnOk result (Adds uses.old.items uses.new.items (λ w v. (v ≡ item) ×
        DependsOn deps.now item w)) }
{
    for place in 0..list_of(deps, item).len() {
        let next = entry(deps, item, place);
        add_user(uses, next, item)?;
    }
    Ok(())
}

/// The users of each item.
pub(crate) fn uses_of(alloc: Global, deps: &[Vec<u32>]) -> Result<Vec<Vec<u32>>, NoMemory>
    requires items { AreItems deps.now }
    requires few { length deps.now < 2 ^ 32 }
    ensures { IfOk result (λ uses. AreUses deps.now uses.items) }
{
    let mut uses = empty_lists(alloc, deps.len())?;
    for item in 0..deps.len() as u32 {
        add_uses(&mut uses, deps, item)?;
    }
    Ok(uses)
}
