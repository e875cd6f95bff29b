//! The plan.
ghost use Rattle.std.specs.Prelude.{◌≡◌, ℕ, ◌<◌, ◌^◌, List, length, slice_index, IfOk, IfErr, OnOk};
ghost use Rattle.layer_plan.specs.Dependencies.{AreItems};
ghost use Rattle.layer_plan.specs.Paths.{IsLongest};
ghost use Rattle.layer_plan.specs.Cycles.{IsCycle};
ghost use Rattle.layer_plan.specs.Nearness.{HasCycle};
ghost use Rattle.layer_plan.specs.NamedCycle.{IsNamedCycle, IsNamedStop};

use crate::components::least_on_cycle;
use crate::layers::Layers;
use crate::rounds::near;
use crate::search::{SearchStop, layers_of};
use crate::shortest::shortest_cycle;
use crate::stop::PlanStop;
use crate::uses::uses_of;
use cbl_base::NoMemory;
use std::alloc::Global;

/// The layer of each item, from the list of those that it depends on. Items are numbers from 0, so each
/// entry must be below the number of lists, which must be below 2^32.
///
/// `Cycle` comes exactly where items depend on one another in a circle. It holds the shortest cycle
/// through the least item that lies on one, the first in the order of lists among equally short ones,
/// and begins with that item. It yields only to `NoMemory`.
pub fn plan(alloc: Global, deps: &[Vec<u32>]) -> Result<Layers, PlanStop>
    requires items { AreItems deps.now }
    requires few { length deps.now < 2 ^ 32 }
    ensures count { IfOk result (λ layers. length layers ≡ length deps.now) }
    ensures longest { IfOk result (λ layers. (item : ℕ) → item < length deps.now →
        IsLongest deps.now item (slice_index layers item)) }
    ensures no_cycle { OnOk result ((list : List ℕ) → IsCycle deps.now list → ⊥) }
    ensures cycle { IfErr result (λ stop. IsNamedStop deps.now stop) }
{
    match layers_of(alloc, deps) {
        Ok(layers) => Ok(Layers::new(layers)),
        Err(SearchStop::Cycle) => Err(PlanStop::Cycle(named_cycle(alloc, deps)?)),
        Err(SearchStop::NoMemory) => Err(PlanStop::NoMemory),
    }
}

/// The cycle that is told, where there is one.
fn named_cycle(alloc: Global, deps: &[Vec<u32>]) -> Result<Vec<u32>, NoMemory>
    requires items { AreItems deps.now }
    requires few { length deps.now < 2 ^ 32 }
    requires some { HasCycle deps.now }
    ensures { IfOk result (λ list. IsNamedCycle deps.now list.items) }
{
    let root = least_on_cycle(alloc, deps)?;
    let uses = uses_of(alloc, deps)?;
    let near = near(alloc, &uses, root)?;
    shortest_cycle(alloc, deps, &near, root)
}
