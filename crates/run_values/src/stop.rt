//! Why a part of a program stops the run.
ghost use Rattle.std.specs.Prelude.{◌≡◌};

use cbl_base::{Names, Place, RunFault, WantOfMemory};

/// Why an output didn't take bytes.
#[derive(Clone, Copy, PartialEq, Eq, Debug)]
pub enum OutStop {
    /// It has room for so many bytes, and these were more.
    Full,
    NoMemory,
    /// A fault outside.
    Failed,
}

/// Why a part of a program stops the run: a fault at a place, the fuel is spent at a place, there is a cycle of
/// definitions at a place, with the names of its variables, there was no memory, or the output stopped.
#[derive(Drop, Debug)]
pub enum Stop {
    Fault(Place, RunFault),
    Spent(Place),
    Cyclic(Place, Names),
    NoMemory,
    Output(OutStop),
}

impl<E: WantOfMemory> From<E> for Stop {
    ghost use Rattle.run_values.specs.declared.stop.Stop.TheVariants as stops;

    ghost from_gives = { λ _ stop. stop ≡ stops.NoMemory };

    fn from(_error: E) -> Stop {
        Stop::NoMemory
    }
}

impl From<OutStop> for Stop {
    ghost use Rattle.run_values.specs.declared.stop.Stop.TheVariants.{Output};

    ghost from_gives = { λ stop made. made ≡ Output stop };

    fn from(stop: OutStop) -> Stop {
        Stop::Output(stop)
    }
}
