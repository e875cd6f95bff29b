//! The dimensions of an array, and the cells that they have.
ghost use Rattle.std.specs.Prelude.{◌≡◌, ◌≤◌, ◌*◌, suc, ℕ, List, [], ◌∷◌, ◌++◌, IfErr, IfOk, map, nat_le, option_map, slice_get};
ghost use Rattle.cbl_base.specs.declared.faults.Limit.TheVariants as limits;
ghost use Rattle.cbl_base.specs.declared.faults.RunFault.TheVariants.{TooMany};
ghost use Rattle.comet_meaning.specs.Declarations.{put_named};
ghost use Rattle.comet_meaning.specs.Declarations as meaning;
ghost use Rattle.comet_meaning.specs.Limits.{most_cells};
ghost use Rattle.comet_meaning.specs.Outcome.{unless};
ghost use Rattle.comet_meaning.specs.State as states;
ghost use Rattle.comet_meaning.specs.Values.{size_of};
ghost use Rattle.comet_meaning.specs.Variables.{cell_name, variables_with};
ghost use Rattle.run_objects.specs.OfRunState.Views.{state_seen};
ghost use Rattle.run_effects.specs.Extents.{capped, extent_seen};
ghost use Rattle.run_objects.specs.OfRunOutside.Told.{Told};
ghost use Rattle.run_values.specs.Did.{Did};
ghost use Rattle.run_values.specs.Views.{bounds_seen, cells_seen, variable_cells_seen};
ghost use Rattle.run_values.specs.declared.stop.Stop.TheVariants.{NoMemory};

use cbl_base::limits::MAX_CELLS;
use cbl_base::{Limit, Place, RunFault, Text, VarId};
use checked_tree::Slot;
use run_objects::state_of_runs::State;
use run_values::texts::push_row;
use run_values::{Bounds, Cells, Stop, Value, VariableCells};
use std::alloc::Global;

/// How many cells an array may have.
const MOST_CELLS: u128 = MAX_CELLS as u128;

/// A dimension: its bounds, and the cell of its name where it has one.
#[derive(Clone, Copy)]
pub struct Extent {
    pub slot: Option<Slot>,
    pub bounds: Bounds,
}

/// How many cells an array has. `TooMany` cells at this place exactly where they are more than 16,777,216; there is no
/// other stop.
pub fn cell_count(at: Place, extents: &[Extent]) -> Result<u128, Stop>
    ensures did { (s : states.State) →
        Did (λ _. tt) result s (unless (nat_le
        (meaning.cell_count (map extent_seen extents.now)) most_cells) at
        (TooMany limits.Cells) s) }
    ensures count { IfOk result (λ count.
        count ≡ meaning.cell_count (map extent_seen extents.now)) }
{
    let mut count: u128 = 1;
    for extent in extents {
        count = counted_along(count, extent);
    }
    let few = count <= MOST_CELLS;
    if few {
        Ok(count)
    } else {
        Err(Stop::Fault(at, RunFault::TooMany(Limit::Cells)))
    }
}

/// The count along one more dimension, and one more than 16,777,216 for any that is greater.
fn counted_along(count: u128, extent: &Extent) -> u128
    requires { count ≤ suc most_cells }
    ensures { result ≡ capped most_cells (count * size_of (bounds_seen extent.now.bounds)) }
{
    capped(count * extent.bounds.size())
}

/// The count, and one more than 16,777,216 for any that is greater.
fn capped(count: u128) -> u128
    ensures { result ≡ capped most_cells count }
{
    if count <= MOST_CELLS {
        count
    } else {
        MOST_CELLS + 1
    }
}

/// The name of a dimension, where it has one, gets the index.
pub fn put_named(s: &mut State, slot: Option<Slot>, index: i64) -> Result<(), Stop>
    ensures { (told : Told) → Did (λ _.
        tt) result (state_seen s.new told) (put_named slot index (state_seen s.old told)) }
{
    match slot {
        None => Ok(()),
        Some(slot) => s.put(slot, Value::Number(index)),
    }
}

/// An array of one dimension or two with these numbers.
pub fn array_of(extents: &[Extent], numbers: Vec<i64>) -> Cells
    ensures { cells_seen result ≡ meaning.array_of (map extent_seen extents.now) numbers.items }
{
    match extents.first() {
        None => Cells::row(numbers),
        Some(rows) => Cells {
            rows: rows.bounds,
            columns: columns_of(extents),
            numbers,
        },
    }
}

/// An array of one dimension or two of these variables.
pub fn variables_of(extents: &[Extent], variables: Vec<VarId>) -> VariableCells
    ensures { variable_cells_seen result ≡
        variables_with (map extent_seen extents.now) variables.items }
{
    match extents.first() {
        None => VariableCells {
            rows: Bounds { low: 0, up: 0 },
            columns: None,
            variables,
        },
        Some(rows) => VariableCells {
            rows: rows.bounds,
            columns: columns_of(extents),
            variables,
        },
    }
}

/// The indices with one more. `NoMemory` where there is none for them; there is no other stop.
pub fn with_index(alloc: Global, indices: &[i64], index: i64) -> Result<Vec<i64>, Stop>
    ensures more { IfOk result (λ more. more.items ≡ indices.now ++ index ∷ []) }
    ensures memory { IfErr result (λ stop. stop ≡ NoMemory) }
{
    let mut more = Vec::from_slice(alloc, indices)?;
    more.push(index)?;
    Ok(more)
}

/// The name of a cell: `a[i]` or `a[i,j]`, and the array's own without an index. `NoMemory` where there is none for it;
/// there is no other stop.
pub fn cell_name(alloc: Global, name: &Text, indices: &[i64]) -> Result<Text, Stop>
    ensures name { IfOk result (λ text. text ≡ cell_name name.now indices.now) }
    ensures memory { IfErr result (λ stop. stop ≡ NoMemory) }
{
    if indices.is_empty() {
        return copied_name(alloc, name);
    }
    let mut bytes = Vec::from_slice(alloc, name.as_slice())?;
    push_row(&mut bytes, indices)?;
    let text = Text::from_slice(alloc, &bytes)?;
    Ok(text)
}

/// A copy of a name. `NoMemory` where there is none for it; there is no other stop.
pub fn copied_name(alloc: Global, name: &Text) -> Result<Text, Stop>
    ensures name { IfOk result (λ text. text ≡ name.now) }
    ensures memory { IfErr result (λ stop. stop ≡ NoMemory) }
{
    let text = Text::from_slice(alloc, name.as_slice())?;
    Ok(text)
}

/// The bounds of the second dimension, where there is one.
fn columns_of(extents: &[Extent]) -> Option<Bounds>
    ensures { option_map bounds_seen result ≡
        option_map (λ e. bounds_seen e.bounds) (slice_get extents.now 1) }
{
    match extents.get(1) {
        Some(extent) => Some(extent.bounds),
        None => None,
    }
}
