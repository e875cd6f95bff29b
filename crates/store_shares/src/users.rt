//! For each variable those whose definitions name it, its users.
ghost use Rattle.std.specs.Prelude.{◌≡◌, ℕ, ◌<◌, ◌^◌, length, slice_index, IfOk, OnOk};
ghost use Rattle.layer_plan.specs.Dependencies.{DependsOn, AreItems, list_of};
ghost use Rattle.layer_plan.specs.Uses.{Adds, AreUses};

use cbl_base::NoMemory;
use std::alloc::Global;

/// So many empty lists.
fn empty_lists(alloc: Global, count: usize) -> Result<Vec<Vec<u32>>, NoMemory>
    ensures count { IfOk result (λ lists. length lists.items ≡ count) }
    ensures empty { IfOk result (λ lists. (w v : ℕ) → DependsOn lists.items w v → ⊥) }
{
    let mut lists = Vec::with_capacity(alloc, count)?;
    for _item in 0..count {
        lists.push(Vec::new(alloc))?;
    }
    Ok(lists)
}

/// The list of a variable.
pub(crate) fn list_of(named: &[Vec<u32>], variable: usize) -> &[u32]
    requires { variable < length named.now }
    ensures { result.now ≡ list_of named.now variable }
{
    named[variable].as_slice()
}

/// The entry of a variable's list at a place from 0.
fn entry(named: &[Vec<u32>], variable: u32, place: usize) -> u32
    requires items { AreItems named.now }
    requires variable { variable < length named.now }
    requires place { place < length (list_of named.now variable) }
    ensures value { slice_index (list_of named.now variable) place ≡ result }
    ensures within { result < length named.now }
{
    list_of(named, variable as usize)[place]
}

/// Adds a user of a variable.
fn add_user(users: &mut Vec<Vec<u32>>, variable: u32, user: u32) -> Result<(), NoMemory>
    requires { variable < length users.old.items }
    ensures { OnOk result (Adds users.old.items users.new.items (λ w v. (w ≡ variable) × (v ≡ user))) }
{
    users[variable as usize].push(user)?;
    Ok(())
}

/// Adds a variable as a user of each that its definition names.
fn add_users(users: &mut Vec<Vec<u32>>, named: &[Vec<u32>], user: u32) -> Result<(), NoMemory>
    requires items { AreItems named.now }
    requires count { length users.old.items ≡ length named.now }
    requires user { user < length named.now }
    ensures { OnOk result (Adds users.old.items users.new.items (λ w v. (v ≡ user) ×
        DependsOn named.now user w)) }
{
    for place in 0..list_of(named, user as usize).len() {
        let next = entry(named, user, place);
        add_user(users, next, user)?;
    }
    Ok(())
}

/// The users of each variable, from the variables that each one's definition names.
pub(crate) fn users_of(alloc: Global, named: &[Vec<u32>]) -> Result<Vec<Vec<u32>>, NoMemory>
    requires items { AreItems named.now }
    requires few { length named.now < 2 ^ 32 }
    ensures { IfOk result (λ users. AreUses named.now users.items) }
{
    let mut users = empty_lists(alloc, named.len())?;
    for user in 0..named.len() as u32 {
        add_users(&mut users, named, user)?;
    }
    Ok(users)
}
