//! What stays as it is: how the nodes hang together.
ghost use Rattle.std.specs.Prelude.{◌≡◌, option_map};
ghost use Rattle.store_turns.specs.Cones.{cone_in};

use cbl_base::NodeId;

/// The ids on which a target stands: the entry of each id tells whether it is one, and all past the last entry are.
#[derive(Drop, Debug)]
pub struct Cone {
    pub target: u32,
    pub members: Vec<bool>,
}

/// The cells, with the ids below `first`, and the nodes behind them. Each list but that of cones has one
/// entry for each id: the ids whose values it takes, its layer, and the ids that use it, each with the
/// place. The cones are those of some targets, no two of one.
#[derive(Drop, Debug)]
pub struct Frame {
    pub first: u32,
    pub inputs: Vec<Vec<NodeId>>,
    pub layers: Vec<u32>,
    pub uses: Vec<Vec<(NodeId, u32)>>,
    pub cones: Vec<Cone>,
}

impl Frame {
    /// The ids on which a target stands, where they are kept.
    pub fn cone(&self, target: NodeId) -> Option<&Cone>
        ensures { option_map (λ cone. cone.now) result ≡ cone_in self.now.cones.items target.0 }
    {
        self.cones.iter().find(|cone| cone.target == target.0)
    }
}
