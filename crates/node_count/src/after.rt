//! What changes make of the number at one place.
ghost use Rattle.std.specs.Prelude.{◌≡◌};
ghost use Rattle.node_count.specs.After.{number_after};

use node_base::NumberChange;

/// The number at a place after changes, where it was this one before them.
pub fn number_after(number: i64, place: usize, changes: &[NumberChange]) -> i64
    ensures { result ≡ number_after place number changes.now }
{
    let mut number = number;
    for change in changes {
        if change.place == place {
            number = change.new;
        }
    }
    number
}
