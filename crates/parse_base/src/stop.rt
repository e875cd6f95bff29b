//! Why reading stops.
ghost use Rattle.std.specs.Prelude.{◌≡◌, length};
ghost use Rattle.parse_base.specs.Reading.{cause_at};
ghost use Rattle.parse_base.specs.declared.stop.Stop.TheVariants as stops;

use cbl_base::WantOfMemory;
use comet_syntax::{FormCause, Token};

/// Why reading stops: at the token from which so many are left, or for want of memory.
#[derive(Clone, Copy, PartialEq, Eq, Debug)]
pub enum Stop {
    Fault { left: usize, cause: FormCause },
    NoMemory,
}

impl<E: WantOfMemory> From<E> for Stop {
    ghost use Rattle.parse_base.specs.declared.stop.Stop.TheVariants as stops;

    ghost from_gives = { λ _ stop. stop ≡ stops.NoMemory };

    fn from(_error: E) -> Stop {
        Stop::NoMemory
    }
}

/// The refusal of the next token, or of the end.
pub fn refuse(tokens: &[Token]) -> Stop
    ensures { result ≡ stops.Fault (length tokens.now) (cause_at tokens.now) }
{
    match tokens.first() {
        Some(_) => Stop::Fault {
            left: tokens.len(),
            cause: FormCause::Unexpected,
        },
        None => Stop::Fault {
            left: 0,
            cause: FormCause::UnexpectedEnd,
        },
    }
}
