//! The limits of texts.

use cbl_base::limits::MAX_PROGRAM_BYTES;

/// How many bytes a text has at most.
pub const MOST_BYTES: usize = MAX_PROGRAM_BYTES;
