//! What the words ask for.
ghost use Rattle.std.specs.Prelude.{◌≡◌, ◌↔◌, IfSome, IsTrue, IsSome, option_and_then, option_map};
ghost use Rattle.comet_words.specs.Asked.{asked};
ghost use Rattle.comet_words.specs.Given.{asked_with};
ghost use Rattle.comet_words.specs.InRange.{InRange};
ghost use Rattle.comet_words.specs.Items.{items};
ghost use Rattle.comet_words.specs.View.{asked_for, known_by, texts};

use crate::given::Given;
use crate::item::first_item;

/// Where the program comes from: a file of this name, or the text that is generated for this size.
#[derive(Clone, Copy, PartialEq, Eq)]
pub enum Source<'a> {
    Program(&'a str),
    Generate(u32),
}

/// What the words ask for. Where an option isn't given: no data, no replay, seed 0, one worker, a fuel of
/// 2^40 and no journal.
#[derive(Clone, Copy, PartialEq, Eq)]
pub struct Words<'a> {
    pub source: Source<'a>,
    /// The file that the program's input is read from.
    pub data: Option<&'a str>,
    /// The file with the journal that is replayed.
    pub replay: Option<&'a str>,
    pub seed: u64,
    /// From 1 to 64.
    pub workers: u32,
    /// From 1 to 2^62.
    pub fuel: u64,
    /// Whether the journal is printed.
    pub journal: bool,
}

/// What the words ask for behind those that gave this. Each call gives something new, so the calls go eight
/// deep at most.
fn ask<'a>(given: Given<'a>, words: &'a [String]) -> Option<Words<'a>>
    ensures { option_map asked_for result ≡
        option_and_then (asked_with (known_by given.entry)) (items (texts words.now)) }
{
    if words.is_empty() {
        return given.words();
    }
    let (item, behind) = first_item(words)?;
    if given.has(item) {
        None
    } else {
        ask(given.with(item), behind)
    }
}

/// What the words, those behind the program's own name, ask for. `None` exactly where they aren't in form.
pub fn read_words(words: &[String]) -> Option<Words<'_>>
    ensures exact { option_map asked_for result ≡ asked (texts words.now) }
    ensures in_range { IfSome result (λ asked. InRange (asked_for asked)) }
{
    ask(Given::nothing(), words)
}

/// Whether the words, those behind the program's own name, are in form.
pub fn words_form(words: &[String]) -> bool
    ensures { IsTrue result ↔ IsSome (asked (texts words.now)) }
{
    read_words(words).is_some()
}
