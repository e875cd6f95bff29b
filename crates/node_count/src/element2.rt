//! The cell of an array at two indices.
ghost use Rattle.std.specs.Prelude.{◌≡◌};
ghost use Rattle.cbl_operations.specs.Operations.Element2.{element2};

use crate::after::number_after;
use crate::place::{place_in_rows, place_of_index};
use cbl_base::{NoMemory, NodeFault, RunFault};
use cbl_operations::element2_value;
use node_base::{NumberChange, NumberNode};
use std::alloc::Global;

/// The node of `Element2`: it takes a row, a column, and then the cells, row by row: `len1` rows from
/// `low1` with `len2` columns from `low2`.
#[derive(Drop)]
pub struct Element2 {
    low1: i64,
    len1: u32,
    low2: i64,
    len2: u32,
    numbers: Vec<i64>,
}

impl Element2 {
    /// The node of `Element2` with these bounds: the cell at both indices, `OutOfRange` outside.
    pub fn new(alloc: Global, low1: i64, len1: u32, low2: i64, len2: u32) -> Element2
        ensures { ⟦<Element2 as NumberNode>⟧.number_rule result ≡ element2 low1 len1 low2 len2 }
    {
        Element2 {
            low1,
            len1,
            low2,
            len2,
            numbers: Vec::new(alloc),
        }
    }
}

impl NumberNode for Element2 {
    ghost use Rattle.std.specs.Prelude.{◌≡◌, ◌+◌, ◌*◌, length};
    ghost use Rattle.cbl_operations.specs.Operations.Element2.{element2};

    ghost number_rule = { λ s. element2 s.low1 s.len1 s.low2 s.len2 };

    ghost settled = { λ s. length s.numbers.items ≡ s.len1 * s.len2 + 2 };

    ghost held_numbers = { λ s. s.numbers.items };

    fn reset(&mut self, numbers: &[i64]) -> Result<(), NoMemory> {
        self.numbers.clear();
        self.numbers.extend_from_slice(numbers)?;
        Ok(())
    }

    fn set(&mut self, change: NumberChange) -> Result<(), NoMemory> {
        self.numbers[change.place] = change.new;
        Ok(())
    }

    fn probe(&self, changes: &[NumberChange]) -> Result<i64, NodeFault> {
        let row = place_of_index(
            number_after(self.numbers[0], 0, changes),
            self.low1,
            self.len1,
        );
        let col = place_of_index(
            number_after(self.numbers[1], 1, changes),
            self.low2,
            self.len2,
        );
        match place_in_rows(row, col, self.len1, self.len2) {
            Some(place) => Ok(number_after(self.numbers[place + 2], place + 2, changes)),
            None => Err(NodeFault::Run(RunFault::OutOfRange)),
        }
    }

    fn value(&self) -> Result<i64, RunFault> {
        element2_value(self.low1, self.len1, self.low2, self.len2, &self.numbers)
    }

    fn place_violation(&self, _place: usize) -> i64 {
        0
    }
}
