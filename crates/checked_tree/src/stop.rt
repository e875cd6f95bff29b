//! Why checking stops.
ghost use Rattle.std.specs.Prelude.{◌≡◌};

use cbl_base::{Place, WantOfMemory};

/// Why a part is refused. A user sees its code, T1 to T12 in the order of the variants.
#[derive(Clone, Copy, PartialEq, Eq, Debug)]
pub enum Cause {
    UnknownName,
    DeclaredTwice,
    WrongType,
    WrongCount,
    NotPure,
    NotInTerm,
    WritesOuter,
    NotInParall,
    MisplacedReturn,
    NotAssignable,
    UnknownMethod,
    OnlyLs,
}

/// Why checking stops: at a part that is refused, or for want of memory.
#[derive(Clone, Copy, PartialEq, Eq, Debug)]
pub enum Stop {
    Fault(Place, Cause),
    NoMemory,
}

impl<E: WantOfMemory> From<E> for Stop {
    ghost use Rattle.checked_tree.specs.declared.stop.Stop.TheVariants as stops;

    ghost from_gives = { λ _ stop. stop ≡ stops.NoMemory };

    fn from(_error: E) -> Stop {
        Stop::NoMemory
    }
}
