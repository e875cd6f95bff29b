//! What a word, or a pair of words, says.
ghost use Rattle.std.specs.Prelude.{ℕ, ◌≡◌, ◌<◌, List, ◌∷◌, length, MatchOption, None, option_map, IfSome};
ghost use Rattle.comet_words.specs.Items.{alone, apart, items, followed};
ghost use Rattle.comet_words.specs.View.{said, texts};

use crate::setting::{Setting, item_of, setting_named};
use crate::value::is_name;
use crate::words::Source;

/// What a word, or a pair of words, says.
#[derive(Clone, Copy)]
pub(crate) enum Item<'a> {
    Source(Source<'a>),
    Data(&'a str),
    Replay(&'a str),
    Seed(u64),
    Workers(u32),
    Fuel(u64),
    Journal,
}

/// What a word says alone: PROGRAM, the flag, or an option joined to its value by `=`.
fn alone(word: &str) -> Option<Item<'_>>
    ensures { option_map said result ≡ alone word.now }
{
    if is_name(word) {
        return Some(Item::Source(Source::Program(word)));
    }
    if word == "--journal" {
        return Some(Item::Journal);
    }
    let (name, value) = word.split_once('=')?;
    item_of(setting_named(name)?, value)
}

/// What an option says with the next word, which mustn't look like an option.
fn apart(setting: Setting, value: &str) -> Option<Item<'_>>
    ensures { option_map said result ≡ apart setting value.now }
{
    if is_name(value) {
        item_of(setting, value)
    } else {
        None
    }
}

/// What the first word says, with the next one where it is an option that stands apart from its value,
/// and the words behind. `None` only where the words aren't items one after another.
pub(crate) fn first_item(words: &[String]) -> Option<(Item<'_>, &[String])>
    requires { 0 < length words.now }
    ensures cut { MatchOption result (items (texts words.now) ≡ None)
        (λ cut. items (texts words.now) ≡ followed (said cut.0) (items (texts cut.1.now))) }
    ensures shorter { IfSome result (λ cut. length cut.1.now < length words.now) }
{
    let word = words[0].as_str();
    let behind = &words[1..];
    match setting_named(word) {
        None => Some((alone(word)?, behind)),
        Some(setting) => {
            let value = behind.first()?;
            Some((apart(setting, value.as_str())?, &behind[1..]))
        }
    }
}
