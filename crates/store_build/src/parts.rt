//! The parts of a store, and why it can't be built, or a commit ends it.

use cbl_base::{NoMemory, NodeId, NodeRule, NodeValue, RunFault};
use store_turns::Frame;

/// Why a store can't be built, or a commit ends it.
#[derive(Drop, Debug)]
pub enum StoreFault {
    /// The least node whose own operation fails though all its inputs have values, and its fault.
    Node(NodeId, RunFault),
    NoMemory,
}

impl From<NoMemory> for StoreFault {
    ghost use Rattle.std.specs.Prelude.{◌≡◌};
    ghost use Rattle.store_build.specs.declared.parts.StoreFault.TheVariants.{NoMemory as WithoutMemory};

    ghost from_gives = { λ _ fault. fault ≡ WithoutMemory };

    fn from(_error: NoMemory) -> StoreFault {
        StoreFault::NoMemory
    }
}

/// The parts of a store: its nodes, how they hang together, and the value of each id.
#[derive(Drop)]
pub struct Parts<N: NodeRule> {
    pub nodes: Vec<N>,
    pub frame: Frame,
    pub values: Vec<NodeValue>,
}
