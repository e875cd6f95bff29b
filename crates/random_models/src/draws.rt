//! Numbers that look drawn, and are the same in each run.

/// The number before the next one.
#[derive(Clone, Copy, Drop)]
pub struct Draws {
    state: u64,
}

impl Draws {
    /// The numbers that this one begins.
    pub fn new(seed: u64) -> Draws {
        Draws { state: seed }
    }

    /// A number below this one, and 0 below 0.
    pub fn below(&mut self, bound: u32) -> u32 {
        self.state = self
            .state
            .wrapping_mul(6_364_136_223_846_793_005)
            .wrapping_add(1_442_695_040_888_963_407);
        if bound == 0 {
            return 0;
        }
        u32::try_from((self.state >> 33) % bound as u64).unwrap_or(0)
    }

    /// A number that a small term may have, and now and then one that hardly fits 64 bits.
    pub fn number(&mut self) -> i64 {
        match self.below(40) {
            0 => i64::MAX,
            1 => i64::MIN,
            2 => 4_611_686_018_427_387_904,
            _ => (self.below(10) as i64).wrapping_sub(4),
        }
    }
}
