//! Why nothing is measured.

use cbl_base::NoMemory;
use layer_plan::PlanStop;
use std::alloc::{AllocError, AllocFailed};
use std::io;
use store_build::StoreFault;
use trial::TrialFault;

/// Why nothing is measured.
#[derive(Clone, Copy)]
pub(crate) enum Stop {
    NoMemory,
    /// The words name no benchmark, or are out of form.
    Words,
    /// The system gave no time, or took no text.
    System,
    /// A probe answered otherwise than before, though nothing was changed, or a journal wasn't read again.
    Answers,
    /// No store is built of such lists, or one has a fault.
    Store,
}

impl From<NoMemory> for Stop {
    fn from(_error: NoMemory) -> Stop {
        Stop::NoMemory
    }
}

impl From<AllocError> for Stop {
    fn from(_error: AllocError) -> Stop {
        Stop::NoMemory
    }
}

impl<T: Drop> From<AllocFailed<T>> for Stop {
    fn from(_error: AllocFailed<T>) -> Stop {
        Stop::NoMemory
    }
}

impl From<PlanStop> for Stop {
    fn from(_error: PlanStop) -> Stop {
        Stop::Store
    }
}

impl From<StoreFault> for Stop {
    fn from(_error: StoreFault) -> Stop {
        Stop::Store
    }
}

impl From<TrialFault> for Stop {
    fn from(_error: TrialFault) -> Stop {
        Stop::Store
    }
}

impl From<io::Error> for Stop {
    fn from(_error: io::Error) -> Stop {
        Stop::System
    }
}
