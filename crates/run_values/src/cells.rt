//! Cells of an array.
ghost use Rattle.std.specs.Prelude.{◌≡◌, ◌<◌, ◌^◌, pos, IfErr, IfOk, None, Some, length, map, slice_get, slice_index_or};
ghost use Rattle.comet_meaning.specs.Cells.{no_cells, row_of, cells_extent, variables_extent, at_index, at_column, at_indices, number_at, with_number};
ghost use Rattle.comet_meaning.specs.Values.{Number, from_zero};
ghost use Rattle.run_values.specs.Views.{bounds_seen, cells_seen, extent_seen, variable_cells_seen};
ghost use Rattle.run_values.specs.declared.stop.Stop.TheVariants.{NoMemory};

use crate::stop::Stop;
use crate::values::{Bounds, Cells, Extent, VariableCells};
use cbl_base::VarId;
use std::alloc::Global;

impl Cells {
    /// No cells at all.
    pub fn none(alloc: Global) -> Cells
        ensures { cells_seen result ≡ no_cells }
    {
        Cells {
            rows: Bounds::from_zero(0),
            columns: None,
            numbers: Vec::new(alloc),
        }
    }

    /// Numbers in a row, as an array from 0.
    pub fn row(numbers: Vec<i64>) -> Cells
        ensures { cells_seen result ≡ row_of numbers.items }
    {
        Cells {
            rows: Bounds::from_zero(numbers.len()),
            columns: None,
            numbers,
        }
    }

    /// A copy. `NoMemory` where there is none for it; there is no other stop.
    pub fn copied(&self, alloc: Global) -> Result<Cells, Stop>
        ensures same { IfOk result (λ cells. cells_seen cells ≡ cells_seen self.now) }
        ensures memory { IfErr result (λ stop. stop ≡ NoMemory) }
    {
        let numbers = Vec::from_slice(alloc, &self.numbers)?;
        Ok(Cells {
            rows: self.rows,
            columns: self.columns,
            numbers,
        })
    }

    /// The bounds of its indices.
    pub fn extent(&self) -> Extent
        ensures { extent_seen result ≡ cells_extent (cells_seen self.now) }
    {
        Extent {
            rows: self.rows,
            columns: self.columns,
        }
    }

    /// How many cells there are.
    pub fn len(&self) -> usize
        ensures { result ≡ length self.now.numbers.items }
    {
        self.numbers.len()
    }

    /// The number in a cell, and 0 where there is none.
    pub fn number_at(&self, cell: u128) -> i64
        ensures { Number result ≡ number_at (cells_seen self.now) cell }
    {
        match usize::try_from(cell) {
            Ok(index) => number_in(&self.numbers, index),
            Err(_) => 0,
        }
    }

    /// Writes a number into a cell. Where there is none, nothing is written.
    pub fn set_number(&mut self, cell: u128, number: i64)
        ensures { cells_seen self.new ≡ with_number cell number (Some (cells_seen self.old)) }
    {
        if cell < self.numbers.len() as u128 {
            self.numbers[cell as usize] = number;
        }
    }
}

impl VariableCells {
    /// A copy. `NoMemory` where there is none for it; there is no other stop.
    pub fn copied(&self, alloc: Global) -> Result<VariableCells, Stop>
        ensures same { IfOk result (λ cells.
            variable_cells_seen cells ≡ variable_cells_seen self.now) }
        ensures memory { IfErr result (λ stop. stop ≡ NoMemory) }
    {
        let variables = Vec::from_slice(alloc, &self.variables)?;
        Ok(VariableCells {
            rows: self.rows,
            columns: self.columns,
            variables,
        })
    }

    /// The bounds of its indices.
    pub fn extent(&self) -> Extent
        ensures { extent_seen result ≡ variables_extent (variable_cells_seen self.now) }
    {
        Extent {
            rows: self.rows,
            columns: self.columns,
        }
    }

    /// How many cells there are.
    pub fn len(&self) -> usize
        ensures { result ≡ length self.now.variables.items }
    {
        self.variables.len()
    }

    /// The variable in a cell; `None` exactly where there is no such cell.
    pub fn variable_at(&self, cell: u128) -> Option<VarId>
        ensures { result ≡ slice_get self.now.variables.items cell }
    {
        match usize::try_from(cell) {
            Ok(index) => self.variables.get(index).copied(),
            Err(_) => None,
        }
    }
}

impl Extent {
    /// The bounds of an array of so many cells in a row, from 0.
    pub fn row(len: usize) -> Extent
        requires { len < 2 ^ 63 }
        ensures rows { bounds_seen result.rows ≡ from_zero len }
        ensures columns { result.columns ≡ None }
    {
        Extent {
            rows: Bounds::from_zero(len),
            columns: None,
        }
    }

    /// Where the cell of an index stands; `None` exactly for an index outside the bounds.
    pub fn at_index(self, index: i64) -> Option<u128>
        ensures { result ≡ at_index (extent_seen self) index }
    {
        if self.rows.is_within(index) {
            Some(self.rows.offset(index) as u128)
        } else {
            None
        }
    }

    /// Where the cell of a row's index and a column's stands; `None` exactly where one of them is outside its bounds,
    /// and for an array of one dimension.
    pub fn at_indices(self, row: i64, column: i64) -> Option<u128>
        ensures { result ≡ at_indices (extent_seen self) row column }
    {
        match self.columns {
            None => None,
            Some(columns) => at_column(self.rows, columns, row, column),
        }
    }
}

/// A copy of each array's variables. `NoMemory` where there is none for them; there is no other stop.
pub fn copied_variables(alloc: Global, arrays: &[VariableCells]) -> Result<Vec<VariableCells>, Stop>
    ensures same { IfOk result (λ copies.
        map variable_cells_seen copies.items ≡ map variable_cells_seen arrays.now) }
    ensures memory { IfErr result (λ stop. stop ≡ NoMemory) }
{
    let mut copies = Vec::new(alloc);
    for cells in arrays {
        copies.push(cells.copied(alloc)?)?;
    }
    Ok(copies)
}

/// A copy of each array's cells. `NoMemory` where there is none for them; there is no other stop.
pub fn copied_arrays(alloc: Global, arrays: &[Cells]) -> Result<Vec<Cells>, Stop>
    ensures same { IfOk result (λ copies. map cells_seen copies.items ≡ map cells_seen arrays.now) }
    ensures memory { IfErr result (λ stop. stop ≡ NoMemory) }
{
    let mut copies = Vec::new(alloc);
    for cells in arrays {
        copies.push(cells.copied(alloc)?)?;
    }
    Ok(copies)
}

/// Where the cell of a row's index and a column's stands; `None` exactly where one of them is outside its bounds.
fn at_column(rows: Bounds, columns: Bounds, row: i64, column: i64) -> Option<u128>
    ensures { result ≡ at_column (bounds_seen rows) row column (Some (bounds_seen columns)) }
{
    if rows.is_within(row) && columns.is_within(column) {
        Some(rows.offset(row) as u128 * columns.size() + columns.offset(column) as u128)
    } else {
        None
    }
}

/// The number at an index, and 0 where there is none.
fn number_in(numbers: &[i64], index: usize) -> i64
    ensures { result ≡ slice_index_or numbers.now index (pos 0) }
{
    match numbers.get(index) {
        Some(number) => *number,
        None => 0,
    }
}
