//! Why a question about a system or an objective has no answer.

use cbl_base::{NoMemory, Place, RunFault};

/// Why there is no answer: a fault of the call itself, a fault with its place in the model, or no memory.
#[derive(Clone, Copy, PartialEq, Eq, Debug)]
pub enum AskStop {
    Run(RunFault),
    Fault(Place, RunFault),
    NoMemory,
}

impl From<NoMemory> for AskStop {
    ghost use Rattle.std.specs.Prelude.{◌≡◌};
    ghost use Rattle.model_values.specs.declared.asked.AskStop.TheVariants.{NoMemory as WithoutMemory};

    ghost from_gives = { λ _ stop. stop ≡ WithoutMemory };

    fn from(_error: NoMemory) -> AskStop {
        AskStop::NoMemory
    }
}
