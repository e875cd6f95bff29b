//! Why there are no layers.
use cbl_base::NoMemory;

/// Why there are no layers.
#[derive(Drop, Debug)]
pub enum PlanStop {
    /// Items that depend on one another in a circle: each on the next, and the last on the first. It
    /// begins with the least item that lies on a cycle, is a shortest of those that do, and of these the
    /// first in the order of lists.
    Cycle(Vec<u32>),
    NoMemory,
}

impl From<NoMemory> for PlanStop {
    ghost use Rattle.std.specs.Prelude.{◌≡◌};
    ghost use Rattle.layer_plan.specs.declared.stop.PlanStop.TheVariants.{NoMemory as WithoutMemory};

    ghost from_gives = { λ _ stop. stop ≡ WithoutMemory };

    fn from(_error: NoMemory) -> PlanStop {
        PlanStop::NoMemory
    }
}
