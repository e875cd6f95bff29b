//! The cells of arrays: where they stand, their numbers and variables, and new arrays.
ghost use Rattle.std.specs.Prelude.{◌≡◌, ◌<◌, ◌^◌, ℕ, List, IfErr, pos, slice_get, slice_index_or};
ghost use Rattle.comet_meaning.specs.Cells as meaning;
ghost use Rattle.comet_meaning.specs.Cells.{cells_of, variables_of, cells_extent, variables_extent, extent_of, size_in, cell_in, put_number, number_at};
ghost use Rattle.comet_meaning.specs.Outcome.{Went};
ghost use Rattle.comet_meaning.specs.Values as values;
ghost use Rattle.comet_meaning.specs.Values.{Number};
ghost use Rattle.run_values.specs.Did.{Did, IsFault};
ghost use Rattle.run_values.specs.Views.{value_seen, cells_seen, extent_seen, variable_cells_seen};
ghost use Rattle.run_values.specs.declared.stop.Stop.TheVariants.{NoMemory};
ghost use Rattle.run_state.specs.Acts.{indexed, indexed_twice, array_size};
ghost use Rattle.run_outside.specs.Told.{Told};
ghost use Rattle.run_state.specs.Views.{state_seen};

use crate::state::State;
use cbl_base::{Place, RunFault, VarId};
use run_values::{Cells, Extent, Stop, Value, VariableCells};

impl State {
    /// What the cell of an index holds, a variable unread. `OutOfRange` at this place exactly where there is no such cell;
    /// there is no other stop.
    #[tactic(auto, unfolding(comet_meaning::specs::Cells::extent, comet_meaning::specs::Cells::cell))]
    pub fn index(&self, at: Place, array: &Value, index: i64) -> Result<Value, Stop>
        ensures did { (told : Told) → Did value_seen result (state_seen self.now told)
            (indexed at (value_seen array.now) index (state_seen self.now told)) }
        ensures stop { IfErr result IsFault }
    {
        match self.extent(array).at_index(index) {
            Some(cell) => Ok(self.held_in(array, cell)),
            None => Err(Stop::Fault(at, RunFault::OutOfRange)),
        }
    }

    /// What the cell of a row's index and a column's holds, a variable unread. `OutOfRange` at this place exactly where
    /// there is no such cell; there is no other stop.
    #[tactic(auto, unfolding(comet_meaning::specs::Cells::extent, comet_meaning::specs::Cells::cell))]
    pub fn cell(&self, at: Place, array: &Value, row: i64, column: i64) -> Result<Value, Stop>
        ensures did { (told : Told) → Did value_seen result (state_seen self.now told)
            (indexed_twice at (value_seen array.now) row column (state_seen self.now told)) }
        ensures stop { IfErr result IsFault }
    {
        match self.extent(array).at_indices(row, column) {
            Some(cell) => Ok(self.held_in(array, cell)),
            None => Err(Stop::Fault(at, RunFault::OutOfRange)),
        }
    }

    /// How many cells an array has.
    #[tactic(auto, unfolding(comet_meaning::specs::Cells::count_cells))]
    pub fn array_size(&self, array: &Value) -> Value
        ensures { (told : Told) → array_size (value_seen array.now) (state_seen self.now told) ≡
            Went (value_seen result) (state_seen self.now told) }
    {
        Value::Number(self.size(array) as i64)
    }

    /// Writes a number into a cell. Where there is none, nothing is written.
    #[tactic(auto, using(crate::proofs::ArrayLaws::written_there), unfolding(comet_meaning::specs::Cells::put_number))]
    pub fn put_number(&mut self, array: usize, cell: u128, number: i64)
        ensures did { (told : Told) → put_number array cell number (state_seen self.old told) ≡
            Went tt (state_seen self.new told) }
        ensures fuel { self.new.fuel ≡ self.old.fuel }
    {
        if array < self.arrays.len() {
            self.arrays[array].set_number(cell, number);
        }
    }

    /// A new array with these cells. `NoMemory` where there is none for it; there is no other stop.
    #[tactic(auto, unfolding(comet_meaning::specs::Cells::new_array))]
    pub fn new_array(&mut self, cells: Cells) -> Result<Value, Stop>
        ensures did { (told : Told) → Did value_seen result (state_seen self.new told)
            (meaning.new_array (cells_seen cells) (state_seen self.old told)) }
        ensures memory { IfErr result (λ stop. stop ≡ NoMemory) }
        ensures fuel { self.new.fuel ≡ self.old.fuel }
    {
        let number = self.arrays.len();
        self.arrays.push(cells)?;
        Ok(Value::Array(number))
    }

    /// A new array with these variables. `NoMemory` where there is none for it; there is no other stop.
    #[tactic(auto, unfolding(comet_meaning::specs::Cells::new_variables))]
    pub fn new_variables(&mut self, cells: VariableCells) -> Result<Value, Stop>
        ensures did { (told : Told) → Did value_seen result (state_seen self.new told)
            (meaning.new_variables (variable_cells_seen cells) (state_seen self.old told)) }
        ensures memory { IfErr result (λ stop. stop ≡ NoMemory) }
        ensures fuel { self.new.fuel ≡ self.old.fuel }
    {
        let number = self.variable_arrays.len();
        self.variable_arrays.push(cells)?;
        Ok(Value::Variables(number))
    }

    /// A copy of the cells of an array of numbers, and none of what is no such array. `NoMemory` where there is none for
    /// it; there is no other stop.
    #[tactic(auto, unfolding(comet_meaning::specs::Cells::cells))]
    pub fn copied_cells(&self, array: &Value) -> Result<Cells, Stop>
        ensures did { (told : Told) → Did cells_seen result (state_seen self.now told)
            (meaning.cells (value_seen array.now) (state_seen self.now told)) }
        ensures memory { IfErr result (λ stop. stop ≡ NoMemory) }
    {
        let extent = self.numbers_extent(array);
        let numbers = Vec::from_slice(self.alloc, self.numbers(array))?;
        Ok(Cells {
            rows: extent.rows,
            columns: extent.columns,
            numbers,
        })
    }

    /// The bounds of an array's indices; what is no array has no cell.
    pub(crate) fn extent(&self, array: &Value) -> Extent
        ensures { (told : Told) → extent_seen result ≡
            extent_of (state_seen self.now told) (value_seen array.now) }
    {
        match array {
            Value::Variables(number) => self.variables_extent(*number),
            _ => self.numbers_extent(array),
        }
    }

    /// The bounds of the indices of an array of numbers; what is none has no cell.
    pub(crate) fn numbers_extent(&self, array: &Value) -> Extent
        ensures { (told : Told) → extent_seen result ≡
            cells_extent (cells_of (state_seen self.now told) (value_seen array.now)) }
    {
        match array {
            Value::Array(number) => match self.arrays.get(*number) {
                Some(cells) => cells.extent(),
                None => Extent::row(0),
            },
            Value::Row(numbers) => Extent::row(numbers.len()),
            _ => Extent::row(0),
        }
    }

    /// The bounds of the indices of the array of variables with this number; where there is none it has no cell.
    pub(crate) fn variables_extent(&self, array: usize) -> Extent
        ensures { (told : Told) → extent_seen result ≡
            variables_extent (variables_of (state_seen self.now told) (values.Variables array)) }
    {
        match self.variable_arrays.get(array) {
            Some(cells) => cells.extent(),
            None => Extent::row(0),
        }
    }

    /// How many cells an array has.
    pub(crate) fn size(&self, array: &Value) -> usize
        ensures size { (told : Told) → result ≡
            size_in (state_seen self.now told) (value_seen array.now) }
        ensures small { result < 2 ^ 63 }
    {
        match array {
            Value::Variables(number) => self.variables(*number).len(),
            _ => self.numbers(array).len(),
        }
    }

    /// What a cell holds, a variable unread.
    fn held_in(&self, array: &Value, cell: u128) -> Value
        ensures { (told : Told) → value_seen result ≡
            cell_in (state_seen self.now told) (value_seen array.now) cell }
    {
        match array {
            Value::Variables(number) => self.variable_in(*number, cell),
            _ => Value::Number(self.number_at(array, cell)),
        }
    }

    /// The variable in a cell of the array of variables with this number, and nothing where there is none.
    pub(crate) fn variable_in(&self, array: usize, cell: u128) -> Value
        ensures { (told : Told) → value_seen result ≡
            cell_in (state_seen self.now told) (values.Variables array) cell }
    {
        match variable_at(self.variables(array), cell) {
            Some(variable) => Value::Variable(variable),
            None => Value::Nothing,
        }
    }

    /// The variables of the array of variables with this number, row by row, and none where there is no such array.
    pub(crate) fn variables(&self, array: usize) -> &[VarId]
        ensures { (told : Told) → result.now ≡
            (variables_of (state_seen self.now told) (values.Variables array)).variables }
    {
        match self.variable_arrays.get(array) {
            Some(cells) => &cells.variables,
            None => &[],
        }
    }

    /// The number in a cell, and 0 where there is none.
    pub(crate) fn number_at(&self, array: &Value, cell: u128) -> i64
        ensures { (told : Told) → Number result ≡
            number_at (cells_of (state_seen self.now told) (value_seen array.now)) cell }
    {
        number_in(self.numbers(array), cell)
    }

    /// The number in a cell of the array with this number, and 0 where there is none.
    pub(crate) fn element(&self, array: usize, cell: u128) -> Value
        ensures { (told : Told) → value_seen result ≡
            number_at (cells_of (state_seen self.now told) (values.Array array)) cell }
    {
        match self.arrays.get(array) {
            Some(cells) => Value::Number(cells.number_at(cell)),
            None => Value::Number(0),
        }
    }

    /// The numbers of an array, row by row, and none of what is no array.
    pub(crate) fn numbers<'a>(&'a self, array: &'a Value) -> &'a [i64]
        ensures { (told : Told) → result.now ≡
            (cells_of (state_seen self.now told) (value_seen array.now)).numbers }
    {
        match array {
            Value::Array(number) => match self.arrays.get(*number) {
                Some(cells) => &cells.numbers,
                None => &[],
            },
            Value::Row(numbers) => numbers,
            _ => &[],
        }
    }
}

/// The variable at a place, where there is one.
fn variable_at(variables: &[VarId], place: u128) -> Option<VarId>
    ensures { result ≡ slice_get variables.now place }
{
    if place < variables.len() as u128 {
        Some(variables[place as usize])
    } else {
        None
    }
}

/// The number at a place, and 0 where there is none.
fn number_in(numbers: &[i64], place: u128) -> i64
    ensures { result ≡ slice_index_or numbers.now place (pos 0) }
{
    if place < numbers.len() as u128 {
        numbers[place as usize]
    } else {
        0
    }
}
