//! How near items are to a root: a search back from it, in rounds of items that are as near.
ghost use Rattle.std.specs.Prelude.{◌≡◌, ℕ, ◌+◌, ◌<◌, ◌≤◌, ◌^◌, Vec, List, length, slice_index, IfOk, OnOk};
ghost use Rattle.std.specs.declared.alloc.Global.{Global as Heap};
ghost use Rattle.layer_plan.specs.Dependencies.{list_of, DependsOn, AreItems};
ghost use Rattle.layer_plan.specs.Nearness.{IsNear};
ghost use Rattle.layer_plan.specs.Uses.{AreUses};
ghost use Rattle.layer_plan.specs.Rounds.{AreRounds, KeepsReached, IsReachedFrom, near_of};

use crate::search::{entry, list_of};
use cbl_base::NoMemory;
use std::alloc::Global;

/// The state of the search.
#[derive(Drop)]
struct Rounds {
    /// The least number of steps from an item to the root, and the number of items where it wasn't
    /// reached.
    near: Vec<u32>,
    /// The items that were reached, the nearest first.
    queue: Vec<u32>,
}

impl Rounds {
    /// Only the root is reached.
    fn new(alloc: Global, uses: &[Vec<u32>], root: u32) -> Result<Rounds, NoMemory>
        requires few { length uses.now < 2 ^ 32 }
        requires root { root < length uses.now }
        ensures rounds { IfOk result (λ rounds. AreRounds uses.now rounds 0) }
        ensures root { IfOk result (λ rounds. slice_index rounds.queue.items 0 ≡ root) }
    {
        let far = uses.len() as u32;
        let mut near = vec![in alloc; far; uses.len()]?;
        near[root as usize] = 0;
        let queue = vec![in alloc; root]?;
        Ok(Rounds { near, queue })
    }

    /// Reaches a user of the item at the head, unless that was done.
    fn reach(&mut self, uses: &[Vec<u32>], head: usize, user: u32) -> Result<(), NoMemory>
        requires few { length uses.now < 2 ^ 32 }
        requires rounds { AreRounds uses.now self.old head }
        requires head { head < length self.old.queue.items }
        requires user { user < length uses.now }
        requires uses { DependsOn uses.now (slice_index self.old.queue.items head) user }
        ensures rounds { OnOk result (AreRounds uses.now self.new head) }
        ensures kept { OnOk result (KeepsReached uses.now self.old self.new) }
        ensures reached { OnOk result (IsReachedFrom (near_of self.new) (length uses.now)
            (slice_index self.old.queue.items head) user) }
    {
        if self.near[user as usize] < uses.len() as u32 {
            return Ok(());
        }
        let steps = self.near[self.queue[head] as usize] + 1;
        self.near[user as usize] = steps;
        self.queue.push(user)?;
        Ok(())
    }

    /// Reaches all users of the item at the head.
    fn spread(&mut self, uses: &[Vec<u32>], head: usize) -> Result<(), NoMemory>
        requires few { length uses.now < 2 ^ 32 }
        requires items { AreItems uses.now }
        requires rounds { AreRounds uses.now self.old head }
        requires head { head < length self.old.queue.items }
        ensures rounds { OnOk result (AreRounds uses.now self.new (head + 1)) }
        ensures kept { OnOk result (KeepsReached uses.now self.old self.new) }
    {
        let item = self.queue[head];
        for place in 0..list_of(uses, item).len() {
            let user = entry(uses, item, place);
            self.reach(uses, head, user)?;
        }
        Ok(())
    }
}

/// How many steps lead from each item to the root at least, and the number of items where none do.
pub(crate) fn near(alloc: Global, uses: &[Vec<u32>], root: u32) -> Result<Vec<u32>, NoMemory>
    requires few { length uses.now < 2 ^ 32 }
    requires items { AreItems uses.now }
    requires root { root < length uses.now }
    ensures count { IfOk result (λ near. length near.items ≡ length uses.now) }
    ensures near { IfOk result (λ near. (deps : List (Vec ℕ Heap)) → AreUses deps uses.now →
        IsNear deps (slice_index near.items) root) }
{
    let mut rounds = Rounds::new(alloc, uses, root)?;
    let mut head = 0;
    while head < rounds.queue.len() {
        rounds.spread(uses, head)?;
        head += 1;
    }
    Ok(rounds.near)
}
