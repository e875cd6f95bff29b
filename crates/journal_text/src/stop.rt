//! Why reading stops.
use cbl_base::WantOfMemory;

/// Why a text isn't read as a journal.
#[derive(Clone, Copy, PartialEq, Eq, Debug, Drop)]
pub enum JournalStop {
    NoMemory,
    /// The first line, counted from 1, through which no journal begins so.
    Fault { line: u64 },
}

/// Why a part of a line isn't read: there is no memory, or it isn't spelled so.
#[derive(Clone, Copy, PartialEq, Eq, Debug, Drop)]
pub(crate) enum Stop {
    NoMemory,
    Fault,
}

impl<E: WantOfMemory> From<E> for Stop {
    ghost use Rattle.std.specs.Prelude.{◌≡◌};
    ghost use Rattle.journal_text.specs.declared.stop.Stop.TheVariants as stops;

    ghost from_gives = { λ _ stop. stop ≡ stops.NoMemory };

    fn from(_error: E) -> Stop {
        Stop::NoMemory
    }
}
