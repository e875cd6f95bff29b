//! The cells of arrays.
ghost use Rattle.std.specs.Prelude.{◌≡◌, ◌<◌, ◌*◌, IsTrue, IfSome, length};
ghost use Rattle.std.specs.Option.{ForSome};
ghost use Rattle.cbl_operations.specs.Cells.{place_of_index, place_in_rows, cell_at};
ghost use Rattle.cbl_operations.specs.Operations.Element.{element};
ghost use Rattle.cbl_operations.specs.Operations.Element2.{element2};

use cbl_base::RunFault;

/// The value of `Element`, of an index and then `len` cells, of which the first has the index `low`: the
/// cell at the index. `OutOfRange` exactly where there is none.
pub fn element_value(low: i64, len: u32, inputs: &[i64]) -> Result<i64, RunFault>
    requires { IsTrue ((element low len).takes (length inputs.now)) }
    ensures { result ≡ (element low len).value inputs.now }
{
    cell_at(&inputs[1..], place_of_index(inputs[0], low, len))
}

/// The value of `Element2`, of a row, a column, and then the cells, row by row: `len1` rows from `low1`
/// with `len2` columns from `low2`. It is the cell there. `OutOfRange` exactly where there is none.
pub fn element2_value(
    low1: i64,
    len1: u32,
    low2: i64,
    len2: u32,
    inputs: &[i64],
) -> Result<i64, RunFault>
    requires { IsTrue ((element2 low1 len1 low2 len2).takes (length inputs.now)) }
    ensures { result ≡ (element2 low1 len1 low2 len2).value inputs.now }
{
    let row = place_of_index(inputs[0], low1, len1);
    let col = place_of_index(inputs[1], low2, len2);
    cell_at(&inputs[2..], place_in_rows(row, col, len1, len2))
}

/// The cell at a place. `OutOfRange` exactly where there is no place.
fn cell_at(cells: &[i64], place: Option<usize>) -> Result<i64, RunFault>
    requires { ForSome place (λ k. k < length cells.now) }
    ensures { result ≡ cell_at cells.now place }
{
    match place {
        Some(place) => Ok(cells[place]),
        None => Err(RunFault::OutOfRange),
    }
}

/// The place of a row and a column, each from 0, where cells stand row by row. `None` exactly where there
/// is no row or no column.
#[tactic(auto, using(std::proofs::lemmas::Nat::rows))]
fn place_in_rows(row: Option<usize>, col: Option<usize>, height: u32, width: u32) -> Option<usize>
    requires row { ForSome row (λ r. r < height) }
    requires col { ForSome col (λ c. c < width) }
    ensures place { result ≡ place_in_rows row col width }
    ensures within { IfSome result (λ k. k < height * width) }
{
    let row = row?;
    let col = col?;
    Some(row * width as usize + col)
}

/// The place from 0 that an index from `low` means. `None` exactly where it isn't one of `len`.
fn place_of_index(index: i64, low: i64, len: u32) -> Option<usize>
    ensures place { result ≡ place_of_index index low len }
    ensures within { IfSome result (λ k. k < len) }
{
    let place = u32::try_from(index.checked_sub(low)?).ok()?;
    if place < len {
        Some(place as usize)
    } else {
        None
    }
}
