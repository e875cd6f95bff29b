//! Bytes that are known in proofs alone.
ghost use Rattle.std.specs.Prelude.{◌≡◌, ◌++◌, ℕ, List, []};
ghost use base.Fml.{ftrue};

use logbook::{Opening, Rule, Seen, Start};
use std::marker::Model;

/// All bytes so far. They take no room: a running program has none of them, and only its proof knows them.
#[derive(Drop)]
pub(crate) struct Told {
    seen: Seen<u8, bool, Anything>,
}

impl Model for Told {
    ghost Value = { List ℕ };

    ghost view = { λ told. told.seen.log };
}

impl Told {
    /// No bytes.
    pub(crate) fn new() -> Told
        ensures { result ≡ [] }
    {
        let (seen, _) = Seen::open_row::<bool, Nothing>(&false, Start::alone(), 0);
        Told { seen }
    }

    /// The bytes so far and this piece.
    #[inline]
    pub(crate) fn then(&self, piece: &[u8]) -> Told
        ensures { result ≡ self.now ++ piece.now }
    {
        let both = Longer {
            before: self,
            piece,
        };
        let (seen, _) = Seen::open_row::<Longer, Joined>(&both, Start::alone(), 0);
        Told { seen }
    }
}

// A log may hold any bytes.
#[derive(Drop)]
struct Anything;

impl Rule<u8, bool> for Anything {
    ghost holds = { λ cells log. Unit {0} };

    ghost first = { [] };

    ghost hinted = { λ n log. Unit {0} };

    ghost shows = { λ log. [] };

    ghost keeps = { λ names log. ftrue };

    ghost moves = { λ ask before after answer. Unit {0} };
}

// The log of a new book, which begins empty.
#[derive(Drop)]
struct Nothing;

impl Opening<bool, u8> for Nothing {
    ghost log = { λ count about. [] };
}

// The bytes of an earlier log, and a piece behind them.
#[derive(Drop)]
struct Longer<'a> {
    before: &'a Told,
    piece: &'a [u8],
}

// The log of a new book, which begins with all of these.
#[derive(Drop)]
struct Joined;

impl<'a> Opening<Longer<'a>, u8> for Joined {
    ghost log = { λ count both. both.before.now ++ both.piece.now };
}
