//! Declarations of arrays with dimensions.
ghost use Rattle.std.specs.Prelude.{◌≡◌, ◌≤◌, ◌*◌, suc, ℕ, ℤ, List, [], IfOk, map, nat_le, option_map, slice_get};
ghost use Rattle.std.specs.Option.{option_copied};
ghost use Rattle.checked_tree.specs.Actions.{dimension_of, start_of};
ghost use Rattle.checked_tree.specs.Shape.{seen};
ghost use Rattle.comet_meaning.specs.Declarations.{array_form, dimensions_form, listed_form, next_cell, numbers_form, put_named, start_number, each_cell, every_cell};
ghost use Rattle.comet_meaning.specs.Declarations as meaning;
ghost use Rattle.comet_meaning.specs.Program.{level};
ghost use Rattle.run_steps.specs.Does.{Does};
ghost use Rattle.run_effects.specs.Extents.{along, at_index, extent_seen};
ghost use Rattle.run_steps.specs.OfRunState.Views.{state_seen};

use cbl_base::Place;
use checked_tree::{Dimension, Slot, Start, Typed, Way};
use form_parts::values::{bounds_of, number_of, value_of};
use run_effects::cells::{Extent, cell_count, put_named};
use run_effects::effects::{make_array, push_number, take_list};
use run_steps::inside::Within;
use run_steps::state_of_runs::{Outside, State};
use run_values::Stop;

/// An array with dimensions: these are evaluated first, and then each cell gets its number.
#[tactic(auto, unfolding(comet_meaning::specs::Declarations::array_form))]
pub fn declare_array<O: Outside, W: Within<O>>(
    s: &mut State,
    out: &mut O,
    inside: &W,
    at: Place,
    slot: Slot,
    dimensions: &[Dimension],
    start: &Option<Box<Start>>,
) -> Result<(), Stop>
    requires ready { W.is_ready inside.now }
    ensures did { Does (λ _. tt) result (state_seen s.new (O.told out.new))
        (array_form (level (W.code inside.now) (W.depth inside.now)) at slot
        (map dimension_of dimensions.now) (option_map (λ x. start_of x.value) start.now)
        (state_seen s.old (O.told out.old))) }
{
    let extents = extents_of(s, out, inside, dimensions)?;
    let sides = extents.as_slice();
    let count = cell_count(at, sides)?;
    let numbers = first_numbers(s, out, inside, at, count, sides, start);
    make_array(s, slot, sides, numbers)
}

/// The bounds of dimensions, evaluated in order.
pub(crate) fn extents_of<O: Outside, W: Within<O>>(
    s: &mut State,
    out: &mut O,
    inside: &W,
    dimensions: &[Dimension],
) -> Result<Vec<Extent>, Stop>
    requires ready { W.is_ready inside.now }
    ensures did { Does (λ extents. map extent_seen extents.items) result
        (state_seen s.new (O.told out.new))
        (dimensions_form (level (W.code inside.now) (W.depth inside.now))
        (map dimension_of dimensions.now) [] (state_seen s.old (O.told out.old))) }
{
    let mut extents = Vec::new(s.alloc);
    for dimension in dimensions {
        let bounds = bounds_of(s, out, inside, &dimension.range)?;
        extents.push(Extent {
            slot: dimension.slot,
            bounds,
        })?;
    }
    Ok(extents)
}

/// The numbers of all cells.
#[tactic(auto, unfolding(comet_meaning::specs::Declarations::numbers_form, comet_meaning::specs::Declarations::started_cells))]
fn first_numbers<O: Outside, W: Within<O>>(
    s: &mut State,
    out: &mut O,
    inside: &W,
    at: Place,
    count: u128,
    extents: &[Extent],
    start: &Option<Box<Start>>,
) -> Result<Vec<i64>, Stop>
    requires ready { W.is_ready inside.now }
    requires known { count ≡ meaning.cell_count (map extent_seen extents.now) }
    ensures did { Does (λ numbers. numbers.items) result (state_seen s.new (O.told out.new))
        (numbers_form (level (W.code inside.now) (W.depth inside.now)) at
        (map extent_seen extents.now) (option_map (λ x. start_of x.value) start.now)
        (state_seen s.old (O.told out.old))) }
{
    match start {
        None => fill_all(s, out, inside, at, count, None, extents),
        Some(start) => {
            let start: &Start = start;
            match start.way {
                Way::List => listed_numbers(s, out, inside, at, count, &start.value),
                Way::Each => fill_all(s, out, inside, at, count, Some(&start.value), extents),
                Way::Define => fill_all(s, out, inside, at, count, Some(&start.value), extents),
            }
        }
    }
}

/// The numbers of all cells, each evaluated; where there is no cell nothing is done, however many rows there are.
#[tactic(auto, unfolding(comet_meaning::specs::Declarations::every_cell))]
fn fill_all<O: Outside, W: Within<O>>(
    s: &mut State,
    out: &mut O,
    inside: &W,
    at: Place,
    count: u128,
    value: Option<&Typed>,
    extents: &[Extent],
) -> Result<Vec<i64>, Stop>
    requires ready { W.is_ready inside.now }
    requires known { count ≡ meaning.cell_count (map extent_seen extents.now) }
    ensures did { Does (λ numbers. numbers.items) result (state_seen s.new (O.told out.new))
        (every_cell (next_cell (level (W.code inside.now) (W.depth inside.now)) at
        (option_map seen (option_copied value.entry))) (map extent_seen extents.now)
        (state_seen s.old (O.told out.old))) }
{
    let none = Vec::new(s.alloc);
    if count == 0 {
        return Ok(none);
    }
    fill(s, out, inside, at, value, extents, none)
}

/// The numbers of a list of exactly as many.
#[tactic(auto, unfolding(comet_meaning::specs::Declarations::listed_form))]
fn listed_numbers<O: Outside, W: Within<O>>(
    s: &mut State,
    out: &mut O,
    inside: &W,
    at: Place,
    count: u128,
    list: &Typed,
) -> Result<Vec<i64>, Stop>
    requires ready { W.is_ready inside.now }
    ensures did { Does (λ numbers. numbers.items) result (state_seen s.new (O.told out.new))
        (listed_form (level (W.code inside.now) (W.depth inside.now)) at count (seen list.now)
        (state_seen s.old (O.told out.old))) }
{
    let place = list.place;
    let list = value_of(s, out, inside, list);
    take_list(s, out, at, place, count, list)
}

/// Puts the numbers of the cells that these dimensions have behind those so far.
#[cycle(fill)]
fn fill<O: Outside, W: Within<O>>(
    s: &mut State,
    out: &mut O,
    inside: &W,
    at: Place,
    value: Option<&Typed>,
    extents: &[Extent],
    numbers: Vec<i64>,
) -> Result<Vec<i64>, Stop>
    requires ready { W.is_ready inside.now }
    ensures did { (is : List ℤ) → Does (λ numbers.
        numbers.items) result (state_seen s.new (O.told out.new))
        (each_cell (next_cell (level (W.code inside.now) (W.depth inside.now)) at
        (option_map seen (option_copied value.entry)))
        (map extent_seen extents.now) is numbers.items (state_seen s.old (O.told out.old))) }
{
    match extents.first() {
        None => push_cell(s, out, inside, at, value, numbers),
        Some(extent) => fill_along(s, out, inside, at, value, *extent, &extents[1..], numbers),
    }
}

/// The same along a dimension, with those behind it for each of its indices.
#[cycle(fill)]
fn fill_along<O: Outside, W: Within<O>>(
    s: &mut State,
    out: &mut O,
    inside: &W,
    at: Place,
    value: Option<&Typed>,
    extent: Extent,
    later: &[Extent],
    numbers: Vec<i64>,
) -> Result<Vec<i64>, Stop>
    requires ready { W.is_ready inside.now }
    ensures did { (is : List ℤ) → Does (λ numbers.
        numbers.items) result (state_seen s.new (O.told out.new))
        (along (next_cell (level (W.code inside.now) (W.depth inside.now)) at
        (option_map seen (option_copied value.entry))) (extent_seen extent)
        (map extent_seen later.now) is numbers.items (state_seen s.old (O.told out.old))) }
{
    let is_empty = extent.bounds.up < extent.bounds.low;
    if is_empty {
        return Ok(numbers);
    }
    let mut filled = numbers;
    let mut index = extent.bounds.low;
    'indices: loop {
        filled = fill_at(s, out, inside, at, value, extent.slot, index, later, filled)?;
        let goes_on = index < extent.bounds.up;
        if goes_on {
            index += 1;
        } else {
            return Ok(filled);
        }
    }
}

/// The same at one index.
#[cycle(fill)]
fn fill_at<O: Outside, W: Within<O>>(
    s: &mut State,
    out: &mut O,
    inside: &W,
    at: Place,
    value: Option<&Typed>,
    slot: Option<Slot>,
    index: i64,
    later: &[Extent],
    numbers: Vec<i64>,
) -> Result<Vec<i64>, Stop>
    requires ready { W.is_ready inside.now }
    ensures did { (is : List ℤ) → Does (λ numbers.
        numbers.items) result (state_seen s.new (O.told out.new))
        (at_index (next_cell (level (W.code inside.now) (W.depth inside.now)) at
        (option_map seen (option_copied value.entry))) slot
        (map extent_seen later.now) is index numbers.items (state_seen s.old (O.told out.old))) }
{
    put_named(s, slot, index)?;
    fill(s, out, inside, at, value, later, numbers)
}

/// One more cell: its unit, and then its number.
#[tactic(auto, unfolding(comet_meaning::specs::Declarations::next_cell))]
fn push_cell<O: Outside, W: Within<O>>(
    s: &mut State,
    out: &mut O,
    inside: &W,
    at: Place,
    value: Option<&Typed>,
    numbers: Vec<i64>,
) -> Result<Vec<i64>, Stop>
    requires ready { W.is_ready inside.now }
    ensures did { (is : List ℤ) → Does (λ numbers.
        numbers.items) result (state_seen s.new (O.told out.new))
        (next_cell (level (W.code inside.now) (W.depth inside.now)) at
        (option_map seen (option_copied value.entry)) is numbers.items
        (state_seen s.old (O.told out.old))) }
{
    s.charge(1, at)?;
    push_number(numbers, start_number(s, out, inside, value))
}

/// The number of a cell; without a start it is 0.
#[tactic(auto, unfolding(comet_meaning::specs::Declarations::start_number))]
fn start_number<O: Outside, W: Within<O>>(
    s: &mut State,
    out: &mut O,
    inside: &W,
    value: Option<&Typed>,
) -> Result<i64, Stop>
    requires ready { W.is_ready inside.now }
    ensures did { Does (λ z. z) result (state_seen s.new (O.told out.new))
        (start_number (level (W.code inside.now) (W.depth inside.now))
        (option_map seen (option_copied value.entry)) (state_seen s.old (O.told out.old))) }
{
    match value {
        None => Ok(0),
        Some(value) => number_of(s, out, inside, value),
    }
}
