//! Why a text isn't read.
ghost use Rattle.std.specs.Prelude.{◌≡◌};

use cbl_base::{Place, WantOfMemory};

/// Why a text is refused.
#[derive(Clone, Copy, PartialEq, Eq, Debug)]
pub enum FormCause {
    /// It isn't UTF-8.
    Encoding,
    /// It has more than 1 MiB.
    TooLong,
    /// No token can be read.
    BadToken,
    /// A number doesn't fit 64 bits signed.
    WideNumber,
    /// A token can't stand here.
    Unexpected,
    /// The text ends too early.
    UnexpectedEnd,
    /// A part is nested too deeply.
    TooDeep,
    /// The text holds a form that isn't built.
    NotBuilt,
}

/// Why a text has no list of tokens that can be given.
#[derive(Clone, Copy, PartialEq, Eq, Debug)]
pub enum LexStop {
    /// It has none: at this place, for this cause.
    Fault(Place, FormCause),
    /// There was no memory.
    NoMemory,
}

/// Why nothing is read at a place of a text.
#[derive(Clone, Copy, PartialEq, Eq, Debug)]
pub enum FrontStop {
    /// Nothing can be read there.
    NotRead,
    /// There was no memory.
    NoMemory,
}

impl<E: WantOfMemory> From<E> for LexStop {
    ghost use Rattle.comet_syntax.specs.declared.stop.LexStop.TheVariants as stops;

    ghost from_gives = { λ _ stop. stop ≡ stops.NoMemory };

    fn from(_error: E) -> LexStop {
        LexStop::NoMemory
    }
}

impl<E: WantOfMemory> From<E> for FrontStop {
    ghost use Rattle.comet_syntax.specs.declared.stop.FrontStop.TheVariants as stops;

    ghost from_gives = { λ _ stop. stop ≡ stops.NoMemory };

    fn from(_error: E) -> FrontStop {
        FrontStop::NoMemory
    }
}
