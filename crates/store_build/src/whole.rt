//! All that was built, or the first fault.
ghost use Rattle.std.specs.Prelude.{◌≡◌, ◌++◌, ℕ, ◌<◌, length, IfOk, OnOk, MatchOption};
ghost use Rattle.store_build.specs.Building.{value_in, option_list, values_there, all_there, IsFirst, NoneFails};

use cbl_base::{Input, NoMemory, NodeValue, RunFault};
use std::alloc::Global;
use store_turns::Outcome;

/// The least id that fails, with its fault.
pub(crate) fn first_fault(outcomes: &[Option<Outcome>]) -> Option<(u32, RunFault)>
    requires { length outcomes.now < 4294967296 }
    ensures { MatchOption result (NoneFails outcomes.now) (λ r. IsFirst outcomes.now r.0 r.1) }
{
    for (id, outcome) in outcomes.iter().enumerate() {
        if let Some(Outcome::Fails(fault)) = outcome {
            return Some((id as u32, *fault));
        }
    }
    None
}

/// One value more, where there is one.
fn push_value(values: &mut Vec<NodeValue>, outcome: Option<Outcome>) -> Result<(), NoMemory>
    ensures { OnOk result (values.new.items ≡ values.old.items ++ option_list (value_in outcome)) }
{
    match outcome {
        None => Ok(()),
        Some(Outcome::Value(value)) => {
            values.push(value)?;
            Ok(())
        }
        Some(Outcome::Fails(_)) => Ok(()),
        Some(Outcome::Missing) => Ok(()),
    }
}

/// All values, in order.
pub(crate) fn values_there(
    alloc: Global,
    outcomes: Vec<Option<Outcome>>,
) -> Result<Vec<NodeValue>, NoMemory>
    ensures { IfOk result (λ values. values.items ≡ values_there outcomes.items) }
{
    let mut values = Vec::with_capacity(alloc, outcomes.len())?;
    for outcome in outcomes {
        push_value(&mut values, outcome)?;
    }
    Ok(values)
}

/// One more, where there is one.
fn push_one<T: Drop>(all: &mut Vec<T>, one: Option<T>) -> Result<(), NoMemory>
    ensures { OnOk result (all.new.items ≡ all.old.items ++ option_list one) }
{
    match one {
        None => Ok(()),
        Some(one) => {
            all.push(one)?;
            Ok(())
        }
    }
}

/// All that are there, in order.
pub(crate) fn all_there<T: Drop>(alloc: Global, places: Vec<Option<T>>) -> Result<Vec<T>, NoMemory>
    ensures { IfOk result (λ all. all.items ≡ all_there places.items) }
{
    let mut all = Vec::with_capacity(alloc, places.len())?;
    for one in places {
        push_one(&mut all, one)?;
    }
    Ok(all)
}
