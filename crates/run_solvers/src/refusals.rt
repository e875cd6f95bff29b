//! How a run stops where a solver gives no answer.
ghost use Rattle.std.specs.Prelude.{◌≡◌, ◌⊎◌, [], IfOk, slice_index_or};
ghost use Rattle.run_solvers.specs.Refusals.{StopsAs, names_at};
ghost use Rattle.run_values.specs.declared.stop.Stop.TheVariants.{Cyclic, NoMemory as WithoutMemory};

use cbl_base::{Names, NoMemory, Place, Text, VarId};
use ls_solver::SolverFault;
use run_values::Stop;
use std::alloc::Global;

/// The stop at a place where a solver, whose variables have these names, gives no answer.
pub(crate) fn stop_of(alloc: Global, at: Place, names: &Names, fault: SolverFault) -> Stop
    ensures { StopsAs at names.now fault result }
{
    match fault {
        SolverFault::Run(fault) => Stop::Fault(at, fault),
        SolverFault::At(place, fault) => Stop::Fault(place, fault),
        SolverFault::Cyclic(cycle) => cyclic_stop(alloc, at, names, &cycle),
        SolverFault::NoMemory => Stop::NoMemory,
    }
}

/// The stop at a cycle of variables.
fn cyclic_stop(alloc: Global, at: Place, names: &Names, cycle: &[VarId]) -> Stop
    ensures { (result ≡ Cyclic at (names_at names.now cycle.now)) ⊎ (result ≡ WithoutMemory) }
{
    match names_of(alloc, names, cycle) {
        Ok(names) => Stop::Cyclic(at, names),
        Err(NoMemory) => Stop::NoMemory,
    }
}

/// The names of variables.
fn names_of(alloc: Global, names: &Names, variables: &[VarId]) -> Result<Names, NoMemory>
    ensures { IfOk result (λ found. found ≡ names_at names.now variables.now) }
{
    let mut found = Names::new(alloc);
    for variable in variables {
        let name = name_at(alloc, names, *variable)?;
        found.push(name)?;
    }
    Ok(found)
}

/// The name of a variable, and no byte where it has none.
fn name_at(alloc: Global, names: &Names, variable: VarId) -> Result<Text, NoMemory>
    ensures { IfOk result (λ name. name ≡ slice_index_or names.now variable.index []) }
{
    match names.get(variable.index as usize) {
        Some(name) => Text::from_slice(alloc, name.as_slice()),
        None => Text::from_slice(alloc, &[]),
    }
}
