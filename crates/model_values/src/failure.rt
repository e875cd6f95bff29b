//! Why a term, a system or an objective has no value.
ghost use Rattle.std.specs.Prelude.{◌≡◌};
ghost use Rattle.model_values.specs.Failures.{no_failure};

use cbl_base::{Place, RunFault};

/// The fault of a subterm whose arguments all have values and whose own operation fails, with its place.
#[derive(Clone, Copy)]
pub struct Failure {
    pub place: Place,
    pub fault: RunFault,
}

impl Failure {
    /// Stands for no failure at all.
    pub(crate) fn none() -> Failure
        ensures { result ≡ no_failure }
    {
        Failure {
            place: Place { line: 0, col: 0 },
            fault: RunFault::NotClosed,
        }
    }
}
