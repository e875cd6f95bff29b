//! Why a trial gives no difference.
ghost use Rattle.std.specs.Prelude.{◌≡◌};
ghost use Rattle.trial.specs.Differences.{fault_at};

use cbl_base::{NoMemory, NodeId, RunFault};

/// Why a trial gives no difference.
#[derive(Drop, Debug)]
pub enum TrialFault {
    /// The least node on which the target stands that fails after the moves, and its fault; or the target,
    /// where the difference doesn't fit 64 bits.
    Node(NodeId, RunFault),
    NoMemory,
}

impl From<NoMemory> for TrialFault {
    ghost use Rattle.std.specs.Prelude.{◌≡◌};
    ghost use Rattle.trial.specs.declared.fault.TrialFault.TheVariants.{NoMemory as WithoutMemory};

    ghost from_gives = { λ _ fault. fault ≡ WithoutMemory };

    fn from(_error: NoMemory) -> TrialFault {
        TrialFault::NoMemory
    }
}

/// The same with a difference that doesn't fit told apart.
#[derive(Drop)]
pub enum DifferenceFault {
    /// The least node on which the target stands that fails after the moves, and its fault.
    Node(NodeId, RunFault),
    /// The difference doesn't fit 64 bits.
    Difference(RunFault),
    NoMemory,
}

impl From<NoMemory> for DifferenceFault {
    ghost use Rattle.std.specs.Prelude.{◌≡◌};
    ghost use Rattle.trial.specs.declared.fault.DifferenceFault.TheVariants.{NoMemory as WithoutMemory};

    ghost from_gives = { λ _ fault. fault ≡ WithoutMemory };

    fn from(_error: NoMemory) -> DifferenceFault {
        DifferenceFault::NoMemory
    }
}

/// The same fault, that of the difference at the target.
pub(crate) fn fault_at(target: NodeId, fault: DifferenceFault) -> TrialFault
    ensures { result ≡ fault_at target fault }
{
    match fault {
        DifferenceFault::Node(node, fault) => TrialFault::Node(node, fault),
        DifferenceFault::Difference(fault) => TrialFault::Node(target, fault),
        DifferenceFault::NoMemory => TrialFault::NoMemory,
    }
}
