//! Constraint functions that have their arguments: a unit for the call, then the cells of each array, and then what must
//! hold of the arguments.
ghost use Rattle.std.specs.Prelude.{◌≡◌, ℕ, List, IfErr, IfOk};
ghost use Rattle.cbl_violations.specs.declared.constraint.Constraint.TheVariants as constraints;
ghost use Rattle.comet_meaning.specs.ConstraintForms.{bounded_op};
ghost use Rattle.comet_meaning.specs.State as states;
ghost use Rattle.constraint_forms.specs.Steps.{all_different_node, bounded_node, even_node, knapsack_node, multi_knapsack_node, places_of, sequence_node, window_node};
ghost use Rattle.run_steps.specs.OfRunState.InTerms.{in_term_seen, term_cells_seen};
ghost use Rattle.run_steps.specs.OfRunOutside.Told.{Told};
ghost use Rattle.run_steps.specs.OfRunState.Views.{state_seen};
ghost use Rattle.run_steps.specs.Does.{Does};
ghost use Rattle.run_steps.specs.Following.{Follows};
ghost use Rattle.run_values.specs.Views.{cells_seen};
ghost use Rattle.run_values.specs.declared.stop.Stop.TheVariants.{NoMemory};

use cbl_base::{IntSet, Numbers, Place, RunFault};
use cbl_operations::Op;
use cbl_violations::Constraint;
use checked_tree::Builtin;
use run_steps::solvers_of_runs::Built;
use run_steps::state_of_runs::{InTerm, State, TermCells};
use run_values::{Cells, Stop};
use std::alloc::Global;
use term_nodes::nodes::node_of;

/// `alldifferent`, of the cells, which are charged at the second place.
fn all_different_of(s: &mut State, at: Place, place: Place, cells: TermCells) -> Result<Built, Stop>
    ensures did { (told : Told) → Does (λ t.
        t) result (state_seen s.new told)
        (all_different_node at place (term_cells_seen cells) (state_seen s.old told)) }
{
    s.charge(1, at)?;
    let count = cells.terms.len();
    s.charge(count as u64, place)?;
    node_of(at, Op::Constraint(Constraint::AllDifferent), cells.terms)
}

/// The same with the array's answer.
pub(crate) fn all_different_with(
    s: &mut State,
    at: Place,
    place: Place,
    cells: Result<TermCells, Stop>,
) -> Result<Built, Stop>
    ensures did { (told : Told) → Follows term_cells_seen (λ t.
        t) cells result (state_seen s.old told) (state_seen s.new told)
        (all_different_node at place) }
{
    match cells {
        Err(stop) => Err(stop),
        Ok(cells) => all_different_of(s, at, place, cells),
    }
}

/// The places of a user's constraint, of the cells, which are charged at the second place.
fn places_of(s: &mut State, at: Place, place: Place, cells: TermCells) -> Result<InTerm, Stop>
    ensures did { (told : Told) → Does in_term_seen result (state_seen s.new told)
        (places_of at place (term_cells_seen cells) (state_seen s.old told)) }
{
    s.charge(1, at)?;
    let count = cells.terms.len();
    s.charge(count as u64, place)?;
    Ok(InTerm::Several(cells))
}

/// The same with the array's answer.
pub(crate) fn places_with(
    s: &mut State,
    at: Place,
    place: Place,
    cells: Result<TermCells, Stop>,
) -> Result<InTerm, Stop>
    ensures did { (told : Told) → Follows term_cells_seen in_term_seen cells result
        (state_seen s.old told) (state_seen s.new told) (places_of at place) }
{
    match cells {
        Err(stop) => Err(stop),
        Ok(cells) => places_of(s, at, place, cells),
    }
}

/// The numbers of an array. `NoMemory` where there is none for them; there is no other stop.
fn numbers_of(alloc: Global, cells: &Cells) -> Result<Numbers, Stop>
    ensures numbers { IfOk result (λ numbers. numbers ≡ (cells_seen cells.now).numbers) }
    ensures memory { IfErr result (λ stop. stop ≡ NoMemory) }
{
    let numbers = Numbers::from_slice(alloc, &cells.numbers)?;
    Ok(numbers)
}

/// The constraint of `atmost`, of `atleast` and of `exactly`. `NoMemory` where there is none for it; there is no other
/// stop.
fn bounded(alloc: Global, function: Builtin, cells: &Cells) -> Result<Constraint, Stop>
    ensures constraint { IfOk result (λ constraint.
        constraint ≡ bounded_op function (cells_seen cells.now).rows.low
        (cells_seen cells.now).numbers) }
    ensures memory { IfErr result (λ stop. stop ≡ NoMemory) }
{
    let bounds = numbers_of(alloc, cells)?;
    let low = cells.rows.low;
    match function {
        Builtin::AtMost => Ok(Constraint::AtMost { low, bounds }),
        Builtin::AtLeast => Ok(Constraint::AtLeast { low, bounds }),
        _ => Ok(Constraint::Exactly { low, bounds }),
    }
}

/// `atmost`, `atleast` and `exactly`, of the bounds, which are charged at the second place, and the cells, which are
/// charged at the third.
fn bounded_of(
    s: &mut State,
    at: Place,
    function: Builtin,
    place: Place,
    bounds: &Cells,
    other: Place,
    cells: TermCells,
) -> Result<Built, Stop>
    ensures did { (told : Told) → Does (λ t.
        t) result (state_seen s.new told)
        (bounded_node at function place (cells_seen bounds.now) other (term_cells_seen cells)
        (state_seen s.old told)) }
{
    s.charge(1, at)?;
    let bound_count = bounds.len();
    s.charge(bound_count as u64, place)?;
    let count = cells.terms.len();
    s.charge(count as u64, other)?;
    let constraint = bounded(s.alloc, function, bounds)?;
    node_of(at, Op::Constraint(constraint), cells.terms)
}

/// The same with the cells' answer.
pub(crate) fn bounded_with(
    s: &mut State,
    at: Place,
    function: Builtin,
    place: Place,
    bounds: &Cells,
    other: Place,
    cells: Result<TermCells, Stop>,
) -> Result<Built, Stop>
    ensures did { (told : Told) → Follows term_cells_seen (λ t.
        t) cells result (state_seen s.old told) (state_seen s.new told)
        (bounded_node at function place (cells_seen bounds.now) other) }
{
    match cells {
        Err(stop) => Err(stop),
        Ok(cells) => bounded_of(s, at, function, place, bounds, other, cells),
    }
}

/// A constraint over as many terms as an array has cells. `OutOfRange` at the place exactly where there are more or fewer.
fn even_of(
    at: Place,
    count: usize,
    constraint: Constraint,
    terms: Vec<Built>,
) -> Result<Built, Stop>
    ensures did { (s : states.State) →
        Does (λ t. t) result s (even_node at count constraint terms.items s) }
{
    let others = terms.len();
    if count != others {
        return Err(Stop::Fault(at, RunFault::OutOfRange));
    }
    node_of(at, Op::Constraint(constraint), terms)
}

/// The constraint of `knapsack`. `NoMemory` where there is none for it; there is no other stop.
fn knapsack(alloc: Global, weights: &Cells, capacity: i64) -> Result<Constraint, Stop>
    ensures constraint { IfOk result (λ constraint.
        constraint ≡ constraints.Knapsack (cells_seen weights.now).numbers capacity) }
    ensures memory { IfErr result (λ stop. stop ≡ NoMemory) }
{
    let weights = numbers_of(alloc, weights)?;
    Ok(Constraint::Knapsack { weights, capacity })
}

/// `knapsack`, of the weights, which are charged at the second place, the cells, which are charged at the third, and the
/// capacity.
fn knapsack_of(
    s: &mut State,
    at: Place,
    place: Place,
    weights: &Cells,
    other: Place,
    cells: TermCells,
    capacity: i64,
) -> Result<Built, Stop>
    ensures did { (told : Told) → Does (λ t.
        t) result (state_seen s.new told)
        (knapsack_node at place (cells_seen weights.now) other (term_cells_seen cells) capacity
        (state_seen s.old told)) }
{
    s.charge(1, at)?;
    let weight_count = weights.len();
    s.charge(weight_count as u64, place)?;
    let count = cells.terms.len();
    s.charge(count as u64, other)?;
    let constraint = knapsack(s.alloc, weights, capacity)?;
    even_of(at, weight_count, constraint, cells.terms)
}

/// The same with the capacity's answer.
pub(crate) fn knapsack_with(
    s: &mut State,
    at: Place,
    place: Place,
    weights: &Cells,
    other: Place,
    cells: TermCells,
    capacity: Result<i64, Stop>,
) -> Result<Built, Stop>
    ensures did { (told : Told) → Follows (λ z. z) (λ t. t) capacity result (state_seen s.old told)
        (state_seen s.new told) (knapsack_node at place (cells_seen weights.now) other
        (term_cells_seen cells)) }
{
    match capacity {
        Err(stop) => Err(stop),
        Ok(capacity) => knapsack_of(s, at, place, weights, other, cells, capacity),
    }
}

/// The constraint of `multiknapsack`. `NoMemory` where there is none for it; there is no other stop.
fn multi_knapsack(alloc: Global, sizes: &Cells, capacities: &Cells) -> Result<Constraint, Stop>
    ensures constraint { IfOk result (λ constraint.
        constraint ≡ constraints.MultiKnapsack (cells_seen sizes.now).numbers
        (cells_seen capacities.now).rows.low (cells_seen capacities.now).numbers) }
    ensures memory { IfErr result (λ stop. stop ≡ NoMemory) }
{
    let low = capacities.rows.low;
    let sizes = numbers_of(alloc, sizes)?;
    let capacities = numbers_of(alloc, capacities)?;
    Ok(Constraint::MultiKnapsack {
        sizes,
        low,
        capacities,
    })
}

/// `multiknapsack`, of the cells, which are charged at the second place, the sizes, which are charged at the third, and
/// the capacities, which are charged at the last.
fn multi_knapsack_of(
    s: &mut State,
    at: Place,
    place: Place,
    cells: TermCells,
    other: Place,
    sizes: &Cells,
    last: Place,
    capacities: &Cells,
) -> Result<Built, Stop>
    ensures did { (told : Told) → Does (λ t.
        t) result (state_seen s.new told)
        (multi_knapsack_node at place (term_cells_seen cells) other (cells_seen sizes.now) last
        (cells_seen capacities.now) (state_seen s.old told)) }
{
    s.charge(1, at)?;
    let count = cells.terms.len();
    s.charge(count as u64, place)?;
    let size_count = sizes.len();
    s.charge(size_count as u64, other)?;
    let capacity_count = capacities.len();
    s.charge(capacity_count as u64, last)?;
    let constraint = multi_knapsack(s.alloc, sizes, capacities)?;
    even_of(at, size_count, constraint, cells.terms)
}

/// The same with the capacities' answer.
pub(crate) fn multi_knapsack_with(
    s: &mut State,
    at: Place,
    place: Place,
    cells: TermCells,
    other: Place,
    sizes: &Cells,
    last: Place,
    capacities: Result<Cells, Stop>,
) -> Result<Built, Stop>
    ensures did { (told : Told) → Follows cells_seen (λ t.
        t) capacities result (state_seen s.old told) (state_seen s.new told)
        (multi_knapsack_node at place (term_cells_seen cells) other (cells_seen sizes.now) last) }
{
    match capacities {
        Err(stop) => Err(stop),
        Ok(capacities) => {
            multi_knapsack_of(s, at, place, cells, other, sizes, last, &capacities)
        }
    }
}

/// How many of a set there may be, and in how many places in a row. `OutOfRange` at the place exactly where the first
/// number is below 0 or the second below 1.
fn window_of(
    at: Place,
    members: IntSet,
    most: i64,
    window: i64,
    terms: Vec<Built>,
) -> Result<Built, Stop>
    ensures did { (s : states.State) →
        Does (λ t. t) result s (window_node at members most window terms.items s) }
{
    let constraint = Constraint::Sequence {
        values: members,
        most,
        window,
    };
    if !constraint.is_proper() {
        return Err(Stop::Fault(at, RunFault::OutOfRange));
    }
    node_of(at, Op::Constraint(constraint), terms)
}

/// `sequence`, of the cells, which are charged at the second place, the set and both numbers.
fn sequence_of(
    s: &mut State,
    at: Place,
    place: Place,
    cells: TermCells,
    members: IntSet,
    most: i64,
    window: i64,
) -> Result<Built, Stop>
    ensures did { (told : Told) → Does (λ t.
        t) result (state_seen s.new told)
        (sequence_node at place (term_cells_seen cells) members most window
        (state_seen s.old told)) }
{
    s.charge(1, at)?;
    let count = cells.terms.len();
    s.charge(count as u64, place)?;
    window_of(at, members, most, window, cells.terms)
}

/// The same with the last number's answer.
pub(crate) fn sequence_with(
    s: &mut State,
    at: Place,
    place: Place,
    cells: TermCells,
    members: IntSet,
    most: i64,
    window: Result<i64, Stop>,
) -> Result<Built, Stop>
    ensures did { (told : Told) → Follows (λ z. z) (λ t. t) window result (state_seen s.old told)
        (state_seen s.new told) (sequence_node at place (term_cells_seen cells) members most) }
{
    match window {
        Err(stop) => Err(stop),
        Ok(window) => sequence_of(s, at, place, cells, members, most, window),
    }
}
