//! Numbers that look drawn, and are the same in each run.

/// The number before the next one.
#[derive(Clone, Copy, Drop)]
pub(crate) struct Draws {
    state: u64,
}

impl Draws {
    /// The numbers that this one begins.
    pub(crate) fn new(seed: u64) -> Draws {
        Draws { state: seed }
    }

    /// A number below this one, and 0 below 0.
    pub(crate) fn below(&mut self, bound: u32) -> u32 {
        self.state = self
            .state
            .wrapping_mul(6_364_136_223_846_793_005)
            .wrapping_add(1_442_695_040_888_963_407);
        if bound == 0 {
            return 0;
        }
        u32::try_from((self.state >> 33) % bound as u64).unwrap_or(0)
    }

    /// A small number, and now and then one of which two don't fit 64 bits.
    pub(crate) fn number(&mut self) -> i64 {
        let small = (self.below(19) as i64).wrapping_sub(9);
        match self.below(12) {
            0 => small.wrapping_add(6_000_000_000_000_000_000),
            1 => small.wrapping_sub(6_000_000_000_000_000_000),
            _ => small,
        }
    }
}
