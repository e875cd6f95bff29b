//! What a commit changed.

use cbl_base::{NodeId, NodeValue};

/// The value of a cell or a node is another.
#[derive(Drop, Debug)]
pub struct NodeChange {
    pub node: NodeId,
    pub old: NodeValue,
    pub new: NodeValue,
}

/// All values that are others, in order of id.
#[derive(Drop, Debug)]
pub struct Changed {
    pub list: Vec<NodeChange>,
}
