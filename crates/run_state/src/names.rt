//! The cells of names.
ghost use Rattle.std.specs.Prelude.{◌≡◌, ℕ, List, IfOk, IfErr, OnOk, ◌≤◌, length, slice_index_or, map};
ghost use Rattle.comet_meaning.specs.Cells.{with_cell, held, look, put};
ghost use Rattle.comet_meaning.specs.Values.{Nothing};
ghost use Rattle.run_values.specs.Did.{Did};
ghost use Rattle.run_values.specs.Views.{value_seen};
ghost use Rattle.run_values.specs.declared.stop.Stop.TheVariants.{NoMemory};
ghost use Rattle.run_state.specs.Plain.{IsHeld, IsHeldNumber};
ghost use Rattle.run_outside.specs.Told.{Told};
ghost use Rattle.run_state.specs.Views.{state_seen};

use crate::state::State;
use checked_tree::Slot;
use run_values::values::copied_values;
use run_values::{Stop, Value};
use std::alloc::Global;

impl State {
    /// A copy of what a name's cell holds, and nothing where there is no such cell. `NoMemory` where there is none for
    /// it; there is no other stop.
    #[tactic(auto, unfolding(comet_meaning::specs::Cells::look))]
    pub fn look(&self, slot: Slot) -> Result<Value, Stop>
        ensures did { (told : Told) → Did value_seen result (state_seen self.now told)
            (look slot (state_seen self.now told)) }
        ensures memory { IfErr result (λ stop. stop ≡ NoMemory) }
    {
        match slot {
            Slot::Global(index) => copied_cell(self.alloc, &self.globals, index),
            Slot::Local(index) => copied_cell(self.alloc, &self.frame, index),
        }
    }

    /// What a name's cell holds, where it is a number, a truth value, a range or an array.
    pub fn plain_value(&self, slot: Slot) -> Option<Value>
        ensures { (told : Told) → IsHeld result (held (state_seen self.now told) slot) }
    {
        match slot {
            Slot::Global(index) => plain_cell(&self.globals, index),
            Slot::Local(index) => plain_cell(&self.frame, index),
        }
    }

    /// The number that a name's cell holds, where it holds one.
    #[inline]
    pub fn plain_number(&self, slot: Slot) -> Option<i64>
        ensures { (told : Told) → IsHeldNumber result (held (state_seen self.now told) slot) }
    {
        match slot {
            Slot::Global(index) => number_in_cell(&self.globals, index),
            Slot::Local(index) => number_in_cell(&self.frame, index),
        }
    }

    /// Writes a value into a name's cell. The cells before it that weren't there yet hold nothing. `NoMemory` where there
    /// is none for them; there is no other stop.
    #[tactic(auto, unfolding(comet_meaning::specs::Cells::put))]
    #[inline]
    pub fn put(&mut self, slot: Slot, value: Value) -> Result<(), Stop>
        ensures did { (told : Told) → Did (λ _.
            tt) result (state_seen self.new told)
            (put slot (value_seen value) (state_seen self.old told)) }
        ensures memory { IfErr result (λ stop. stop ≡ NoMemory) }
        ensures fuel { self.new.fuel ≡ self.old.fuel }
    {
        match slot {
            Slot::Global(index) => put_cell(&mut self.globals, index, value),
            Slot::Local(index) => put_cell(&mut self.frame, index, value),
        }
    }

    /// A copy of what the names of the running call hold. `NoMemory` where there is none for it; there is no other stop.
    pub fn copied_frame(&self) -> Result<Vec<Value>, Stop>
        ensures same { IfOk result (λ copies.
            map value_seen copies.items ≡ map value_seen self.now.frame.items) }
        ensures memory { IfErr result (λ stop. stop ≡ NoMemory) }
    {
        copied_values(self.alloc, &self.frame)
    }
}

/// A copy of what a cell holds, and nothing where there is no such cell.
fn copied_cell(alloc: Global, cells: &[Value], index: usize) -> Result<Value, Stop>
    ensures same { IfOk result (λ value.
        value_seen value ≡ slice_index_or (map value_seen cells.now) index Nothing) }
    ensures memory { IfErr result (λ stop. stop ≡ NoMemory) }
{
    match cells.get(index) {
        Some(value) => value.copied(alloc),
        None => Ok(Value::Nothing),
    }
}

/// What a cell holds, where it is a number, a truth value, a range or an array.
fn plain_cell(cells: &[Value], index: usize) -> Option<Value>
    ensures { IsHeld result (slice_index_or (map value_seen cells.now) index Nothing) }
{
    match cells.get(index) {
        Some(Value::Number(number)) => Some(Value::Number(*number)),
        Some(Value::Truth(truth)) => Some(Value::Truth(*truth)),
        Some(Value::Range(bounds)) => Some(Value::Range(*bounds)),
        Some(Value::Array(array)) => Some(Value::Array(*array)),
        _ => None,
    }
}

/// The number that a cell holds, where it holds one.
#[inline]
fn number_in_cell(cells: &[Value], index: usize) -> Option<i64>
    ensures { IsHeldNumber result (slice_index_or (map value_seen cells.now) index Nothing) }
{
    match cells.get(index) {
        Some(Value::Number(number)) => Some(*number),
        _ => None,
    }
}

/// Writes a cell. Those before it that weren't there yet hold nothing.
#[tactic(auto, using(crate::proofs::WrittenCells::seen_there))]
#[inline]
fn put_cell(cells: &mut Vec<Value>, index: usize, value: Value) -> Result<(), Stop>
    ensures written { OnOk result (map value_seen cells.new.items ≡
        with_cell index (value_seen value) (map value_seen cells.old.items)) }
    ensures memory { IfErr result (λ stop. stop ≡ NoMemory) }
{
    if index < cells.len() {
        cells[index] = value;
        Ok(())
    } else {
        add_cell(cells, index, value)
    }
}

/// Writes a cell that isn't there yet. Those between hold nothing.
#[tactic(auto, using(crate::proofs::WrittenCells::seen_further, crate::proofs::WrittenCells::seen_next))]
fn add_cell(cells: &mut Vec<Value>, index: usize, value: Value) -> Result<(), Stop>
    requires { length (cells.old.items) ≤ index }
    ensures written { OnOk result (map value_seen cells.new.items ≡
        with_cell index (value_seen value) (map value_seen cells.old.items)) }
    ensures memory { IfErr result (λ stop. stop ≡ NoMemory) }
{
    while cells.len() < index {
        cells.push(Value::Nothing)?;
    }
    cells.push(value)?;
    Ok(())
}
