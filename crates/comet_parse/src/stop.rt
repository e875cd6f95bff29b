//! Why a list of tokens is no program.
use comet_syntax::FormCause;

/// Why a list of tokens is no program.
#[derive(Clone, Copy, PartialEq, Eq, Debug)]
pub enum ParseStop {
    /// The token from 0 at which the list is refused, or how many tokens there are where it ends too
    /// early. The cause is `Unexpected`, `TooDeep` or `UnexpectedEnd`.
    Fault { token: u32, cause: FormCause },
    /// There was no memory.
    NoMemory,
}
