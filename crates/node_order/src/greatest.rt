//! The greatest of two or many numbers.
ghost use Rattle.std.specs.Prelude.{◌≡◌, ℤ, map, IfOk};
ghost use Rattle.cbl_operations.specs.Operations.Greatest.{greatest};
ghost use Rattle.node_order.specs.Mirror.{mirrored, mirrored_change};

use crate::lowest::Lowest;
use cbl_base::{NoMemory, NodeFault, RunFault};
use node_base::{NumberChange, NumberNode};
use std::alloc::Global;

/// The node of `Greatest`: it takes one number at least. It keeps the least of the mirrored numbers.
#[derive(Drop)]
pub struct Greatest {
    lowest: Lowest,
    alloc: Global,
}

impl Greatest {
    /// The node of `Greatest`: the greatest of the numbers.
    pub fn new(alloc: Global) -> Greatest
        ensures { ⟦<Greatest as NumberNode>⟧.number_rule result ≡ greatest }
    {
        Greatest {
            lowest: Lowest::new(alloc),
            alloc,
        }
    }
}

impl NumberNode for Greatest {
    ghost use Rattle.std.specs.Prelude.{◌<◌, length, map};
    ghost use Rattle.cbl_operations.specs.Operations.Greatest.{greatest};
    ghost use Rattle.node_order.specs.Mirror.{mirrored};

    ghost number_rule = { λ _. greatest };

    ghost settled = { λ s. ⟦<Lowest as NumberNode>⟧.settled s.lowest ×
        (0 < length (⟦<Lowest as NumberNode>⟧.held_numbers s.lowest)) };

    ghost held_numbers = { λ s. map mirrored (⟦<Lowest as NumberNode>⟧.held_numbers s.lowest) };

    fn reset(&mut self, numbers: &[i64]) -> Result<(), NoMemory> {
        let numbers = mirrored_numbers(self.alloc, numbers)?;
        self.lowest.reset(&numbers)?;
        Ok(())
    }

    fn set(&mut self, change: NumberChange) -> Result<(), NoMemory> {
        self.lowest.set(mirrored_change(change))?;
        Ok(())
    }

    fn probe(&self, changes: &[NumberChange]) -> Result<i64, NodeFault> {
        let changes = mirrored_changes(self.alloc, changes)?;
        match self.lowest.probe(&changes) {
            Ok(least) => Ok(mirrored(least)),
            Err(fault) => Err(fault),
        }
    }

    fn value(&self) -> Result<i64, RunFault> {
        match self.lowest.value() {
            Ok(least) => Ok(mirrored(least)),
            Err(fault) => Err(fault),
        }
    }

    fn place_violation(&self, _place: usize) -> i64 {
        0
    }
}

/// The mirrored number.
pub(crate) fn mirrored(number: i64) -> i64
    ensures { result ≡ mirrored number }
{
    -1 - number
}

/// The change of the mirrored number.
fn mirrored_change(change: NumberChange) -> NumberChange
    ensures { result ≡ mirrored_change change }
{
    NumberChange {
        place: change.place,
        old: mirrored(change.old),
        new: mirrored(change.new),
    }
}

/// The mirrored numbers.
fn mirrored_numbers(alloc: Global, numbers: &[i64]) -> Result<Vec<i64>, NoMemory>
    ensures { IfOk result (λ made. made.items ≡ map mirrored numbers.now) }
{
    let mut made = Vec::with_capacity(alloc, numbers.len())?;
    for number in numbers {
        made.push(mirrored(*number))?;
    }
    Ok(made)
}

/// The changes of the mirrored numbers.
fn mirrored_changes(alloc: Global, changes: &[NumberChange]) -> Result<Vec<NumberChange>, NoMemory>
    ensures { IfOk result (λ made. made.items ≡ map mirrored_change changes.now) }
{
    let mut made = Vec::with_capacity(alloc, changes.len())?;
    for change in changes {
        made.push(mirrored_change(*change))?;
    }
    Ok(made)
}
