//! The cell of an array at an index.
ghost use Rattle.std.specs.Prelude.{◌≡◌};
ghost use Rattle.cbl_operations.specs.Operations.Element.{element};

use crate::after::number_after;
use crate::place::place_of_index;
use cbl_base::{NoMemory, NodeFault, RunFault};
use cbl_operations::element_value;
use node_base::{NumberChange, NumberNode};
use std::alloc::Global;

/// The node of `Element`: it takes an index, and then `len` cells, of which the first has the index `low`.
#[derive(Drop)]
pub struct Element {
    low: i64,
    len: u32,
    numbers: Vec<i64>,
}

impl Element {
    /// The node of `Element` with these bounds: the cell at the index, `OutOfRange` outside.
    pub fn new(alloc: Global, low: i64, len: u32) -> Element
        ensures { ⟦<Element as NumberNode>⟧.number_rule result ≡ element low len }
    {
        Element {
            low,
            len,
            numbers: Vec::new(alloc),
        }
    }
}

impl NumberNode for Element {
    ghost use Rattle.std.specs.Prelude.{◌≡◌, ◌+◌, length};
    ghost use Rattle.cbl_operations.specs.Operations.Element.{element};

    ghost number_rule = { λ s. element s.low s.len };

    ghost settled = { λ s. length s.numbers.items ≡ s.len + 1 };

    ghost held_numbers = { λ s. s.numbers.items };

    fn reset(&mut self, numbers: &[i64]) -> Result<(), NoMemory> {
        self.numbers.clear();
        self.numbers.extend_from_slice(numbers)?;
        Ok(())
    }

    fn set(&mut self, change: NumberChange) -> Result<(), NoMemory> {
        self.numbers[change.place] = change.new;
        Ok(())
    }

    fn probe(&self, changes: &[NumberChange]) -> Result<i64, NodeFault> {
        let index = number_after(self.numbers[0], 0, changes);
        match place_of_index(index, self.low, self.len) {
            Some(place) => Ok(number_after(self.numbers[place + 1], place + 1, changes)),
            None => Err(NodeFault::Run(RunFault::OutOfRange)),
        }
    }

    fn value(&self) -> Result<i64, RunFault> {
        element_value(self.low, self.len, &self.numbers)
    }

    fn place_violation(&self, _place: usize) -> i64 {
        0
    }
}
