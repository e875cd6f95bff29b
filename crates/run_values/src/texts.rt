//! The bytes that are printed of values.
ghost use Rattle.std.specs.Prelude.{◌≡◌, ℕ, ◌++◌, ◌==◌, List, [], ◌∷◌, IfErr, OnOk, codes, drop, map, option_map, take, if◌then◌else◌};
ghost use Rattle.std.specs.Fmt.{signed_decimal};
ghost use Rattle.comet_meaning.specs.Printing.{separated, in_brackets, rows_of, grid_text, cells_text, truth_text, bounds_text, set_text};
ghost use Rattle.run_values.specs.Texts.{plain_text, behind_commas};
ghost use Rattle.run_values.specs.Views.{bounds_seen, cells_seen, value_seen};
ghost use Rattle.run_values.specs.declared.stop.Stop.TheVariants.{NoMemory};

use crate::stop::Stop;
use crate::values::{Bounds, Cells, Extent, Value};
use itoa::Buffer;

/// Writes a value that is no array; what can't be printed is nothing. `NoMemory` where there is none for the text, of
/// which a front may then be written; there is no other stop.
pub fn push_value(text: &mut Vec<u8>, value: &Value) -> Result<(), Stop>
    ensures ok { OnOk result (text.new.items ≡
        text.old.items ++ plain_text (value_seen value.now)) }
    ensures memory { IfErr result (λ stop. stop ≡ NoMemory) }
{
    match value {
        Value::Number(number) => push_number(text, *number),
        Value::Truth(truth) => push_truth(text, *truth),
        Value::Range(bounds) => push_bounds(text, *bounds),
        Value::Set(set) => push_set(text, set.as_slice()),
        _ => Ok(()),
    }
}

/// What may stand in a cell of an array that is written.
pub trait Shown {
    /// The text of it.
    ghost shown: { Self → List ℕ };

    /// Writes it. `NoMemory` where there is none for the text; there is no other stop.
    fn push_shown(&self, text: &mut Vec<u8>) -> Result<(), Stop>
        ensures ok { OnOk result (text.new.items ≡ text.old.items ++ shown self.now) }
        ensures memory { IfErr result (λ stop. stop ≡ NoMemory) };
}

impl Shown for i64 {
    ghost use Rattle.std.specs.Fmt.{signed_decimal};

    ghost shown = { signed_decimal };

    fn push_shown(&self, text: &mut Vec<u8>) -> Result<(), Stop> {
        push_number(text, *self)
    }
}

impl Shown for Value {
    ghost use Rattle.comet_meaning.specs.Printing as printing;
    ghost use Rattle.run_values.specs.Views.{value_seen};

    ghost shown = { λ value. printing.plain_text (value_seen value) };

    fn push_shown(&self, text: &mut Vec<u8>) -> Result<(), Stop> {
        match self {
            Value::Set(set) => push_set(text, set.as_slice()),
            _ => push_number(text, self.number()),
        }
    }
}

/// Writes an array's cells. `NoMemory` where there is none for the text, of which a front may then be written; there is
/// no other stop.
pub fn push_cells(text: &mut Vec<u8>, cells: &Cells) -> Result<(), Stop>
    ensures ok { OnOk result (text.new.items ≡
        text.old.items ++ cells_text (cells_seen cells.now)) }
    ensures memory { IfErr result (λ stop. stop ≡ NoMemory) }
{
    push_array(text, cells.extent(), &cells.numbers)
}

/// Writes the cells of an array with these bounds. `NoMemory` where there is none for the text, of which a front may then
/// be written; there is no other stop.
pub fn push_array<T: Shown>(text: &mut Vec<u8>, extent: Extent, cells: &[T]) -> Result<(), Stop>
    ensures ok { OnOk result (text.new.items ≡
        text.old.items ++ grid_text (bounds_seen extent.rows) (map T.shown cells.now)
        (option_map bounds_seen extent.columns)) }
    ensures memory { IfErr result (λ stop. stop ≡ NoMemory) }
{
    match extent.columns {
        None => push_row(text, cells),
        Some(columns) => push_grid(text, extent.rows.size(), columns.size(), cells),
    }
}

/// Writes what stands in a row, in brackets. `NoMemory` where there is none for the text, of which a front may then be
/// written; there is no other stop.
pub fn push_row<T: Shown>(text: &mut Vec<u8>, cells: &[T]) -> Result<(), Stop>
    ensures ok { OnOk result (text.new.items ≡
        text.old.items ++ in_brackets (map T.shown cells.now)) }
    ensures memory { IfErr result (λ stop. stop ≡ NoMemory) }
{
    text.push(b'[')?;
    push_separated(text, cells)?;
    text.push(b']')?;
    Ok(())
}

/// Writes a number in decimal.
fn push_number(text: &mut Vec<u8>, number: i64) -> Result<(), Stop>
    ensures ok { OnOk result (text.new.items ≡ text.old.items ++ signed_decimal number) }
    ensures memory { IfErr result (λ stop. stop ≡ NoMemory) }
{
    let mut buffer = Buffer::new();
    text.extend_from_slice(buffer.format(number).as_bytes())?;
    Ok(())
}

/// Writes `true` or `false`.
fn push_truth(text: &mut Vec<u8>, truth: bool) -> Result<(), Stop>
    ensures ok { OnOk result (text.new.items ≡ text.old.items ++ truth_text truth) }
    ensures memory { IfErr result (λ stop. stop ≡ NoMemory) }
{
    let word = if truth { "true" } else { "false" };
    text.extend_from_slice(word.as_bytes())?;
    Ok(())
}

/// Writes `low..up`.
fn push_bounds(text: &mut Vec<u8>, bounds: Bounds) -> Result<(), Stop>
    ensures ok { OnOk result (text.new.items ≡ text.old.items ++ bounds_text (bounds_seen bounds)) }
    ensures memory { IfErr result (λ stop. stop ≡ NoMemory) }
{
    push_number(text, bounds.low)?;
    text.extend_from_slice(b"..")?;
    push_number(text, bounds.up)
}

/// Writes the members of a set, in braces.
fn push_set(text: &mut Vec<u8>, members: &[i64]) -> Result<(), Stop>
    ensures ok { OnOk result (text.new.items ≡ text.old.items ++ set_text members.now) }
    ensures memory { IfErr result (λ stop. stop ≡ NoMemory) }
{
    text.push(b'{')?;
    push_separated(text, members)?;
    text.push(b'}')?;
    Ok(())
}

/// Writes parts with commas between them.
fn push_separated<T: Shown>(text: &mut Vec<u8>, parts: &[T]) -> Result<(), Stop>
    ensures ok { OnOk result (text.new.items ≡
        text.old.items ++ separated (map T.shown parts.now)) }
    ensures memory { IfErr result (λ stop. stop ≡ NoMemory) }
{
    match parts.split_first() {
        None => Ok(()),
        Some((first, others)) => push_with_first(text, first, others),
    }
}

/// Writes a part, and then the others, each behind a comma.
fn push_with_first<T: Shown>(text: &mut Vec<u8>, first: &T, others: &[T]) -> Result<(), Stop>
    ensures ok { OnOk result (text.new.items ≡
        text.old.items ++ separated (map T.shown (first.now ∷ others.now))) }
    ensures memory { IfErr result (λ stop. stop ≡ NoMemory) }
{
    first.push_shown(text)?;
    push_behind_commas(text, others)?;
    Ok(())
}

/// Writes parts, each behind a comma.
fn push_behind_commas<T: Shown>(text: &mut Vec<u8>, parts: &[T]) -> Result<(), Stop>
    ensures ok { OnOk result (text.new.items ≡
        text.old.items ++ behind_commas (map T.shown parts.now)) }
    ensures memory { IfErr result (λ stop. stop ≡ NoMemory) }
{
    for part in parts {
        text.push(b',')?;
        part.push_shown(text)?;
    }
    Ok(())
}

/// Writes so many rows of this length, in brackets.
fn push_grid<T: Shown>(
    text: &mut Vec<u8>,
    rows: u128,
    columns: u128,
    cells: &[T],
) -> Result<(), Stop>
    ensures ok { OnOk result (text.new.items ≡
        text.old.items ++ in_brackets (map in_brackets
        (rows_of rows columns (map T.shown cells.now)))) }
    ensures memory { IfErr result (λ stop. stop ≡ NoMemory) }
{
    text.push(b'[')?;
    push_rows(text, rows, columns, cells)?;
    text.push(b']')?;
    Ok(())
}

/// Writes so many rows of this length, with commas between them.
fn push_rows<T: Shown>(
    text: &mut Vec<u8>,
    rows: u128,
    columns: u128,
    cells: &[T],
) -> Result<(), Stop>
    ensures ok { OnOk result (text.new.items ≡
        text.old.items ++ separated (map in_brackets
        (rows_of rows columns (map T.shown cells.now)))) }
    ensures memory { IfErr result (λ stop. stop ≡ NoMemory) }
{
    let mut remaining = cells;
    for row in 0..rows {
        push_comma(text, row)?;
        let (front, behind) = split(remaining, columns);
        push_row(text, front)?;
        remaining = behind;
    }
    Ok(())
}

/// Writes a comma, if this isn't the first row.
fn push_comma(text: &mut Vec<u8>, row: u128) -> Result<(), Stop>
    ensures ok { OnOk result (text.new.items ≡
        text.old.items ++ (if row == 0 then [] else codes ",")) }
    ensures memory { IfErr result (λ stop. stop ≡ NoMemory) }
{
    if row == 0 {
        return Ok(());
    }
    text.push(b',')?;
    Ok(())
}

/// The first of the cells, so many at most, and those behind them.
fn split<T>(cells: &[T], most: u128) -> (&[T], &[T])
    ensures front { result.0.now ≡ take most cells.now }
    ensures behind { result.1.now ≡ drop most cells.now }
{
    if most < cells.len() as u128 {
        cells.split_at(most as usize)
    } else {
        (cells, &[])
    }
}
