//! What the words gave so far.
ghost use Rattle.std.specs.Prelude.{◌≡◌, option_map};
ghost use Rattle.comet_words.specs.Given.{has, with, nothing, all_given};
ghost use Rattle.comet_words.specs.View.{asked_for, said, known_by};

use crate::item::Item;
use crate::limits::{DEFAULT_FUEL, DEFAULT_SEED, DEFAULT_WORKERS};
use crate::words::{Source, Words};

/// What the words gave so far, each thing where it was given.
#[derive(Clone, Copy)]
pub(crate) struct Given<'a> {
    source: Option<Source<'a>>,
    data: Option<&'a str>,
    replay: Option<&'a str>,
    seed: Option<u64>,
    workers: Option<u32>,
    fuel: Option<u64>,
    journal: bool,
}

impl<'a> Given<'a> {
    pub(crate) fn nothing() -> Given<'a>
        ensures { known_by result ≡ nothing }
    {
        Given {
            source: None,
            data: None,
            replay: None,
            seed: None,
            workers: None,
            fuel: None,
            journal: false,
        }
    }

    /// Whether what this item gives was given before.
    pub(crate) fn has(self, item: Item<'a>) -> bool
        ensures { result ≡ has (known_by self.entry) (said item.entry) }
    {
        match item {
            Item::Source(_) => self.source.is_some(),
            Item::Data(_) => self.data.is_some(),
            Item::Replay(_) => self.replay.is_some(),
            Item::Seed(_) => self.seed.is_some(),
            Item::Workers(_) => self.workers.is_some(),
            Item::Fuel(_) => self.fuel.is_some(),
            Item::Journal => self.journal,
        }
    }

    /// What was given with this item.
    pub(crate) fn with(self, item: Item<'a>) -> Given<'a>
        ensures { known_by result ≡ with (known_by self.entry) (said item.entry) }
    {
        match item {
            Item::Source(source) => Given {
                source: Some(source),
                ..self
            },
            Item::Data(name) => Given {
                data: Some(name),
                ..self
            },
            Item::Replay(name) => Given {
                replay: Some(name),
                ..self
            },
            Item::Seed(seed) => Given {
                seed: Some(seed),
                ..self
            },
            Item::Workers(workers) => Given {
                workers: Some(workers),
                ..self
            },
            Item::Fuel(fuel) => Given {
                fuel: Some(fuel),
                ..self
            },
            Item::Journal => Given {
                journal: true,
                ..self
            },
        }
    }

    /// What is asked for where no more is given. `None` exactly where no program was given.
    pub(crate) fn words(self) -> Option<Words<'a>>
        ensures { option_map asked_for result ≡ all_given (known_by self.entry) }
    {
        Some(Words {
            source: self.source?,
            data: self.data,
            replay: self.replay,
            seed: self.seed.unwrap_or(DEFAULT_SEED),
            workers: self.workers.unwrap_or(DEFAULT_WORKERS),
            fuel: self.fuel.unwrap_or(DEFAULT_FUEL),
            journal: self.journal,
        })
    }
}
