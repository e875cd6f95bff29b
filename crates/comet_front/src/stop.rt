//! Why a text gives no program.
use cbl_base::Place;
use comet_syntax::FormCause;

/// Why a text gives no program: its form is refused at a place, or a part of its tree is, with the code of the
/// typing rule, 1 to 12; or there was no memory.
#[derive(Clone, Copy, PartialEq, Eq, Debug)]
pub enum TextStop {
    Fault(Place, FormCause),
    IllTyped(Place, u8),
    NoMemory,
}
