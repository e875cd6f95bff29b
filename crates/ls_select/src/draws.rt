//! Random words, and numbers drawn from them.
ghost use Rattle.std.specs.Prelude.{◌≡◌, ◌<◌, ◌≤◌, ◌^◌};
ghost use Rattle.ls_select.specs.Words.{after_word, draws_of, share_of};

use rand_pcg::Lcg128Xsl64;
use rand_pcg::rand_core::utils::NextWord;
use std::marker::Model;

/// The words of a seed and a stream that are still to come. It is seen as the state of their generator.
#[derive(Drop)]
pub struct Draws {
    generator: Lcg128Xsl64,
}

impl Model for Draws {
    ghost use Rattle.rand_pcg.specs.Lcg.{Lcg};

    ghost Value = { Lcg };

    ghost view = { λ d. d.generator };
}

impl Draws {
    /// All words of a seed and a stream.
    pub fn new(seed: u64, stream: u128) -> Draws
        ensures { result ≡ draws_of seed stream }
    {
        Draws {
            generator: Lcg128Xsl64::new(u128::from(seed), stream),
        }
    }

    /// A number below `n`, of the next word: `floor(word * n / 2^64)`. It takes one word, also where `n` is 1 and the
    /// number 0, and no memory. There must be a number below `n`, and `n` at most `2^64`.
    pub fn below(&mut self, n: u128) -> u64
        requires some { 1 ≤ n }
        requires most { n ≤ 2 ^ 64 }
        ensures share { result ≡ share_of n self.old }
        ensures taken { self.new ≡ after_word self.old }
        ensures below { result < n }
    {
        let word = u128::from(self.generator.next_word());
        (word * n >> 64) as u64
    }
}
