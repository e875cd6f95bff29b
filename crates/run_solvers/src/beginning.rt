//! How a variable begins.

use crate::built::Built;

/// How a variable begins: with a number, or with a definition.
#[derive(Drop)]
pub enum Beginning {
    Free(i64),
    Defined(Built),
}
