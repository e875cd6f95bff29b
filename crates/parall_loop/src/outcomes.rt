//! The outcomes of a loop's iterations, put in order.
ghost use Rattle.std.specs.Prelude.{◌≡◌, ◌++◌, length, map, IfOk, OnOk};
ghost use Rattle.std.specs.Option.{option_to_list};
ghost use Rattle.iter_claim.specs.Numbers.{AllLess};
ghost use Rattle.parall_loop.specs.Runs.{put_into, filled};

use cbl_base::NoMemory;
use std::alloc::Global;

/// A place for the outcome of each of `n` iterations.
pub(crate) fn empty_places<T: Drop>(alloc: Global, n: u32) -> Result<Vec<Option<T>>, NoMemory>
    ensures { IfOk result (λ places. length places.items ≡ n) }
{
    let mut places = Vec::new(alloc);
    for _place in 0..n {
        let Ok(()) = places.push(None) else {
            return Err(NoMemory);
        };
    }
    Ok(places)
}

/// Puts each outcome into the place of its iteration.
pub(crate) fn put_all<T: Drop>(places: &mut Vec<Option<T>>, outcomes: Vec<(u32, T)>)
    requires { AllLess (length places.old.items) (map (λ x. x.0) outcomes.items) }
    ensures { places.new.items ≡ put_into places.old.items outcomes.items }
{
    for (iteration, outcome) in outcomes {
        places[iteration as usize] = Some(outcome);
    }
}

/// What stands in the places, in order.
pub(crate) fn in_order<T: Drop>(alloc: Global, places: Vec<Option<T>>) -> Result<Vec<T>, NoMemory>
    ensures { IfOk result (λ outcomes. outcomes.items ≡ filled places.items) }
{
    let mut outcomes = Vec::new(alloc);
    for place in places {
        push_some(&mut outcomes, place)?;
    }
    Ok(outcomes)
}

// Adds an outcome, if there is one.
fn push_some<T: Drop>(outcomes: &mut Vec<T>, place: Option<T>) -> Result<(), NoMemory>
    ensures { OnOk result (outcomes.new.items ≡ outcomes.old.items ++ option_to_list place) }
{
    let Some(outcome) = place else {
        return Ok(());
    };
    let Ok(()) = outcomes.push(outcome) else {
        return Err(NoMemory);
    };
    Ok(())
}
