//! Copies of what selectors keep.
ghost use Rattle.std.specs.Prelude.{◌≡◌, IfErr, IfOk, map, option_map};
ghost use Rattle.run_search.specs.Searches.{move_seen};
ghost use Rattle.run_solvers.specs.OfRunValues.declared.stop.Stop.TheVariants.{NoMemory};

use crate::search::KeptMove;
use run_solvers::values_of_runs::Stop;
use std::alloc::Global;

/// A copy of what selectors keep. `NoMemory` where there is none for it; there is no other stop.
pub fn copied_moves(
    alloc: Global,
    moves: &[Option<KeptMove>],
) -> Result<Vec<Option<KeptMove>>, Stop>
    ensures same { IfOk result (λ copies. map (option_map move_seen) copies.items ≡
        map (option_map move_seen) moves.now) }
    ensures memory { IfErr result (λ stop. stop ≡ NoMemory) }
{
    let mut copies = Vec::new(alloc);
    for kept in moves {
        copies.push(copied_move(alloc, kept)?)?;
    }
    Ok(copies)
}

/// A copy of what a selector keeps.
fn copied_move(alloc: Global, kept: &Option<KeptMove>) -> Result<Option<KeptMove>, Stop>
    ensures same { IfOk result (λ copy. option_map move_seen copy ≡ option_map move_seen kept.now) }
    ensures memory { IfErr result (λ stop. stop ≡ NoMemory) }
{
    match kept {
        None => Ok(None),
        Some(kept) => {
            let copy = kept.copied(alloc)?;
            Ok(Some(copy))
        }
    }
}
