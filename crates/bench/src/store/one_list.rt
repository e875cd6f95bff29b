//! Moves of one cell or of two.
ghost use Rattle.std.specs.Prelude.{◌≡◌, ◌≤◌, [], ◌∷◌, take};

use cbl_base::VarId;

/// One move or two, side by side in memory: the first so many of the pair.
#[derive(Drop)]
pub struct Moves {
    pair: [(VarId, i64); 2],
    count: usize,
    ghost few: { count ≤ 2 },
}

/// One move.
pub(crate) fn one_move(only: (VarId, i64)) -> Moves
    ensures { take result.count result.pair ≡ only ∷ [] }
{
    Moves {
        pair: [only, only],
        count: 1,
    }
}

/// Two moves.
pub(crate) fn two_moves(first: (VarId, i64), second: (VarId, i64)) -> Moves
    ensures { take result.count result.pair ≡ first ∷ second ∷ [] }
{
    Moves {
        pair: [first, second],
        count: 2,
    }
}

impl Moves {
    /// The moves.
    pub(crate) fn as_slice(&self) -> &[(VarId, i64)]
        ensures { result.now ≡ take self.now.count self.now.pair }
    {
        &self.pair[..self.count]
    }
}
