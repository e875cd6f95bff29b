//! What stands at a place.
ghost use Rattle.std.specs.Prelude.{◌≡◌, ◌<◌, Some, length, slice_get};

/// The number at a place.
pub fn number_at(numbers: &[i64], index: u32) -> i64
    requires { index < length numbers.now }
    ensures { slice_get numbers.now index ≡ Some result }
{
    numbers[index as usize]
}
