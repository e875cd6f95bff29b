//! How often values stand in a slice, and their bounds.
ghost use Rattle.std.specs.Prelude.{◌≡◌, slice_get};
ghost use Rattle.cbl_base.specs.Counts.{count_of};
ghost use Rattle.cbl_violations.specs.Bounds.{bound_of};

/// At how many places the value stands.
pub(crate) fn places_with(inputs: &[i64], value: i128) -> usize
    ensures { result ≡ count_of value inputs.now }
{
    inputs.iter().filter(|x| i128::from(**x) == value).count()
}

/// The bound of the value, where `low` is the value of the first bound. `None` exactly where it has none.
pub(crate) fn bound_of(low: i64, bounds: &[i64], value: i64) -> Option<i64>
    ensures { result ≡ bound_of low bounds.now value }
{
    let index = i128::from(value) - i128::from(low);
    if index < 0 {
        return None;
    }
    entry(bounds, index as usize)
}

/// The entry at an index. `None` exactly past the end.
fn entry(bounds: &[i64], index: usize) -> Option<i64>
    ensures { result ≡ slice_get bounds.now index }
{
    bounds.get(index).copied()
}
