//! The cycle in which variables depend on one another, where there is one.
ghost use Rattle.std.specs.Prelude.{◌≡◌, ℕ, ◌<◌, ◌^◌, List, length, map, IfOk, MatchOption};
ghost use Rattle.solver_models.specs.Dependencies.{AreDependencies};
ghost use Rattle.solver_models.specs.NamedCycle.{IsNamedCycle};
ghost use Rattle.term_model.specs.Definitions.{IsAcyclic};
ghost use Rattle.term_model.specs.Wellformed.{IsWellFormed};

use cbl_base::{NoMemory, VarId};
use layer_plan::{PlanStop, plan};
use std::alloc::Global;
use term_model::{Model, definitions_of, dependencies_of};

/// The ids of variables at these places.
fn ids_of(alloc: Global, solver: u32, places: &[u32]) -> Result<Vec<VarId>, NoMemory>
    ensures { IfOk result (λ ids. ids.items ≡
        map (λ i. record { solver = solver; index = i }) places.now) }
{
    let mut ids = Vec::new(alloc);
    for index in places {
        ids.push(VarId {
            solver,
            index: *index,
        })?;
    }
    Ok(ids)
}

/// For each variable those that its definition names.
fn dependencies(alloc: Global, model: &Model) -> Result<Vec<Vec<u32>>, NoMemory>
    requires { IsWellFormed model.now }
    ensures { IfOk result (λ deps. AreDependencies model.now deps.items) }
{
    let table = definitions_of(alloc, model)?;
    let deps = dependencies_of(alloc, &model.defs, &table)?;
    Ok(deps)
}

/// The named cycle of a model, where there is one.
pub fn cycle_of(alloc: Global, number: u32, model: &Model) -> Result<Option<Vec<VarId>>, NoMemory>
    requires formed { IsWellFormed model.now }
    requires few { length model.now.vars.items < 2 ^ 32 }
    ensures { IfOk result (λ found. MatchOption found (IsAcyclic model.now) (λ ids.
        (list : List ℕ) × (ids.items ≡ map (λ i. record { solver = number; index = i }) list) ×
        IsNamedCycle model.now list)) }
{
    let deps = dependencies(alloc, model)?;
    match plan(alloc, &deps) {
        Ok(_layers) => Ok(None),
        Err(PlanStop::Cycle(places)) => {
            let ids = ids_of(alloc, number, &places)?;
            Ok(Some(ids))
        }
        Err(PlanStop::NoMemory) => Err(NoMemory),
    }
}
