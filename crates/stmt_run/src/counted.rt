//! Outputs that can tell how often they have failed.
ghost use Rattle.std.specs.Prelude.{◌≡◌};

use run_standing::state_of_runs::{Bytes, Out};

/// An output that counts its failures.
pub trait CountedOut: Out {
    /// How often it has failed.
    fn failures(&self) -> u64
        ensures { result ≡ Self.faults self.now };
}

impl CountedOut for Bytes {
    /// Memory never fails, it can only run out.
    fn failures(&self) -> u64 {
        0
    }
}
