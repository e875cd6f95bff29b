//! What is left of a form.
ghost use Rattle.std.specs.Prelude.{◌≤◌};
ghost use Rattle.cbl_base.specs.declared.limits.TheConstants.{MAX_NESTING};

use crate::grammar::Symbol;

/// What is left of a form at its depth: a symbol, and those behind it.
#[derive(Clone, Copy)]
pub struct Frame {
    pub first: Symbol,
    pub behind: &'static [Symbol],
    pub depth: usize,
    ghost low: { depth ≤ MAX_NESTING },
}
