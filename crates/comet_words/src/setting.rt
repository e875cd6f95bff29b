//! The options that have a value.
ghost use Rattle.std.specs.Prelude.{◌≡◌, option_map};
ghost use Rattle.comet_words.specs.Options.{item_of, setting_named};
ghost use Rattle.comet_words.specs.View.{said};

use crate::item::Item;
use crate::limits::{LEAST_SIZE, MOST_FUEL, MOST_SIZE, MOST_WORKERS};
use crate::value::{file, number};
use crate::words::Source;

/// An option that has a value.
#[derive(Clone, Copy)]
pub(crate) enum Setting {
    Data,
    Replay,
    Seed,
    Workers,
    Fuel,
    Generate,
}

/// The option that is spelled like this. `None` exactly where there is none.
pub(crate) fn setting_named(name: &str) -> Option<Setting>
    ensures { result ≡ setting_named name.now }
{
    match name {
        "--data" => Some(Setting::Data),
        "--replay" => Some(Setting::Replay),
        "--seed" => Some(Setting::Seed),
        "--workers" => Some(Setting::Workers),
        "--fuel" => Some(Setting::Fuel),
        "--gen" => Some(Setting::Generate),
        _ => None,
    }
}

/// What an option says with its value. `None` exactly where the value isn't one of this option's.
pub(crate) fn item_of(setting: Setting, value: &str) -> Option<Item<'_>>
    ensures { option_map said result ≡ item_of setting value.now }
{
    match setting {
        Setting::Data => Some(Item::Data(file(value)?)),
        Setting::Replay => Some(Item::Replay(file(value)?)),
        Setting::Seed => Some(Item::Seed(number(value, 0, u64::MAX)?)),
        Setting::Workers => Some(Item::Workers(number(value, 1, MOST_WORKERS)? as u32)),
        Setting::Fuel => Some(Item::Fuel(number(value, 1, MOST_FUEL)?)),
        Setting::Generate => {
            let size = number(value, LEAST_SIZE, MOST_SIZE)? as u32;
            Some(Item::Source(Source::Generate(size)))
        }
    }
}
