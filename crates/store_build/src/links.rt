//! How the nodes of a store hang together, as it is given.

use cbl_base::NodeId;

/// The ids whose values each id takes, in order. There is one list for each id, those of the cells first.
#[derive(Drop, Debug)]
pub struct Links {
    pub inputs: Vec<Vec<NodeId>>,
}
