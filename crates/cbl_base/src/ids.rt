//! The names of variables and nodes.

/// A variable: the number of its solver, and its index there, both from 0.
#[derive(Clone, Copy, PartialEq, Eq, PartialOrd, Ord, Debug)]
pub struct VarId {
    pub solver: u32,
    pub index: u32,
}

/// A node of a solver: its number from 0.
#[derive(Clone, Copy, PartialEq, Eq, PartialOrd, Ord, Debug)]
pub struct NodeId(pub u32);
