//! The places that indices mean.
ghost use Rattle.std.specs.Prelude.{◌≡◌, ◌<◌, ◌*◌, IfSome};
ghost use Rattle.std.specs.Option.{ForSome};
ghost use Rattle.cbl_operations.specs.Cells.{place_of_index, place_in_rows};

/// The place from 0 that an index from `low` means. `None` exactly where it isn't one of `len`.
pub(crate) fn place_of_index(index: i64, low: i64, len: u32) -> Option<usize>
    ensures place { result ≡ place_of_index index low len }
    ensures within { IfSome result (λ k. k < len) }
{
    let place = u32::try_from(index.checked_sub(low)?).ok()?;
    if place < len {
        Some(place as usize)
    } else {
        None
    }
}

/// The place of a row and a column, each from 0, where cells stand row by row. `None` exactly where there
/// is no row or no column.
#[tactic(auto, using(std::proofs::lemmas::Nat::rows))]
pub(crate) fn place_in_rows(
    row: Option<usize>,
    col: Option<usize>,
    height: u32,
    width: u32,
) -> Option<usize>
    requires row { ForSome row (λ r. r < height) }
    requires col { ForSome col (λ c. c < width) }
    ensures place { result ≡ place_in_rows row col width }
    ensures within { IfSome result (λ k. k < height * width) }
{
    let row = row?;
    let col = col?;
    Some(row * width as usize + col)
}
