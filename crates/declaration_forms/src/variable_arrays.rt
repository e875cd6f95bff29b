//! Declarations of arrays of variables.
ghost use Rattle.std.specs.Prelude.{◌≡◌, ℕ, ℤ, List, [], map, option_map, pos, slice_index_or};
ghost use Rattle.checked_tree.specs.Actions.{start_of, variable_of};
ghost use Rattle.checked_tree.specs.Shape.{seen};
ghost use Rattle.comet_meaning.specs.Declarations as meaning;
ghost use Rattle.comet_meaning.specs.Declarations.{each_cell, every_cell};
ghost use Rattle.comet_meaning.specs.Program.{level};
ghost use Rattle.comet_meaning.specs.Variables.{cells_form, listed_cell, listed_cells, next_cell, several_form};
ghost use Rattle.run_steps.specs.OfRunState.Views.{state_seen};
ghost use Rattle.run_steps.specs.Does.{Does};
ghost use Rattle.run_effects.specs.Extents.{along, at_index, extent_seen};
ghost use Rattle.run_steps.specs.Operands.{exact_list, variable_cell};

use crate::array_declarations::extents_of;
use crate::declarations::{beginning_of, domain_of};
use cbl_base::{Place, VarId};
use checked_tree::{Slot, Typed, Variable, Way};
use form_parts::values::value_of;
use run_effects::cells::{Extent, cell_count, put_named, with_index};
use run_effects::declaring::{
    begins_with, declared, make_variables, push_variable, take_numbers, variable_kind,
};
use run_steps::inside::Defining;
use run_steps::state_of_runs::{Outside, State};
use run_values::Stop;
use term_model::VarDecl;

/// How the variables of an array are made: the place of the declaration, what each is declared as, and their numbers
/// where a list has them.
#[derive(Drop)]
struct Making {
    at: Place,
    decl: VarDecl,
    list: Option<Vec<i64>>,
}

/// An array of variables: its dimensions, the domain once, and then each cell.
#[tactic(auto, unfolding(comet_meaning::specs::Variables::several_form))]
pub(crate) fn declare_variables<O: Outside, W: Defining<O>>(
    s: &mut State,
    out: &mut O,
    inside: &W,
    at: Place,
    variable: &Variable,
) -> Result<(), Stop>
    requires ready { W.is_ready inside.now }
    requires defines { W.can_define inside.now }
    ensures did { Does (λ _. tt) result (state_seen s.new (O.told out.new))
        (several_form (level (W.code inside.now) (W.depth inside.now)) at (variable_of variable.now)
        (state_seen s.old (O.told out.old))) }
{
    let extents = extents_of(s, out, inside, &variable.dimensions)?;
    let sides = extents.as_slice();
    let count = cell_count(at, sides)?;
    let domain = domain_of(s, out, inside, &variable.domain)?;
    let decl = declared(variable.kind, domain);
    let variables = cells_of(s, out, inside, at, variable, decl, count, sides);
    make_variables(s, variable.slot, sides, variables)
}

/// The variables of all cells.
#[tactic(auto, unfolding(comet_meaning::specs::Variables::cells_form))]
fn cells_of<O: Outside, W: Defining<O>>(
    s: &mut State,
    out: &mut O,
    inside: &W,
    at: Place,
    variable: &Variable,
    decl: VarDecl,
    count: u128,
    extents: &[Extent],
) -> Result<Vec<VarId>, Stop>
    requires ready { W.is_ready inside.now }
    requires defines { W.can_define inside.now }
    requires known { count ≡ meaning.cell_count (map extent_seen extents.now) }
    ensures did { Does (λ cells. cells.items) result (state_seen s.new (O.told out.new))
        (cells_form (level (W.code inside.now) (W.depth inside.now)) at
        (variable_of variable.now) decl (map extent_seen extents.now)
        (option_map start_of variable.now.start) (state_seen s.old (O.told out.old))) }
{
    match &variable.start {
        None => started_cells(s, out, inside, at, variable, decl, count, extents),
        Some(start) => match start.way {
            Way::List => {
                listed_cells(
                    s,
                    out,
                    inside,
                    at,
                    variable,
                    decl,
                    count,
                    &start.value,
                    extents,
                )
            }
            Way::Each => started_cells(s, out, inside, at, variable, decl, count, extents),
            Way::Define => started_cells(s, out, inside, at, variable, decl, count, extents),
        },
    }
}

/// The variables of all cells, each begun by its start.
fn started_cells<O: Outside, W: Defining<O>>(
    s: &mut State,
    out: &mut O,
    inside: &W,
    at: Place,
    variable: &Variable,
    decl: VarDecl,
    count: u128,
    extents: &[Extent],
) -> Result<Vec<VarId>, Stop>
    requires ready { W.is_ready inside.now }
    requires defines { W.can_define inside.now }
    requires known { count ≡ meaning.cell_count (map extent_seen extents.now) }
    ensures did { Does (λ cells. cells.items) result (state_seen s.new (O.told out.new))
        (every_cell (next_cell (level (W.code inside.now) (W.depth inside.now)) at
        (variable_of variable.now) decl) (map extent_seen extents.now)
        (state_seen s.old (O.told out.old))) }
{
    let making = Making {
        at,
        decl,
        list: None,
    };
    make_all(s, out, inside, variable, &making, count, extents)
}

/// The variables of all cells, which begin with the numbers of a list of exactly as many.
#[tactic(auto, unfolding(comet_meaning::specs::Variables::listed_cells))]
fn listed_cells<O: Outside, W: Defining<O>>(
    s: &mut State,
    out: &mut O,
    inside: &W,
    at: Place,
    variable: &Variable,
    decl: VarDecl,
    count: u128,
    list: &Typed,
    extents: &[Extent],
) -> Result<Vec<VarId>, Stop>
    requires ready { W.is_ready inside.now }
    requires defines { W.can_define inside.now }
    requires known { count ≡ meaning.cell_count (map extent_seen extents.now) }
    ensures did { Does (λ cells. cells.items) result (state_seen s.new (O.told out.new))
        (listed_cells (level (W.code inside.now) (W.depth inside.now)) at
        (variable_of variable.now) decl (map extent_seen extents.now) (seen list.now)
        (state_seen s.old (O.told out.old))) }
{
    let numbers = numbers_of_list(s, out, inside, at, count, list)?;
    let making = Making {
        at,
        decl,
        list: Some(numbers),
    };
    make_all(s, out, inside, variable, &making, count, extents)
}

/// The numbers of a list of exactly as many.
fn numbers_of_list<O: Outside, W: Defining<O>>(
    s: &mut State,
    out: &mut O,
    inside: &W,
    at: Place,
    count: u128,
    list: &Typed,
) -> Result<Vec<i64>, Stop>
    requires ready { W.is_ready inside.now }
    ensures did { Does (λ numbers. numbers.items) result (state_seen s.new (O.told out.new))
        (exact_list (level (W.code inside.now) (W.depth inside.now)) at count (seen list.now)
        (state_seen s.old (O.told out.old))) }
{
    let place = list.place;
    let value = value_of(s, out, inside, list);
    take_numbers(s, out, at, place, count, value)
}

/// The variables of all cells; where there is no cell nothing is done, however many rows there are.
#[tactic(auto, unfolding(comet_meaning::specs::Declarations::every_cell))]
fn make_all<O: Outside, W: Defining<O>>(
    s: &mut State,
    out: &mut O,
    inside: &W,
    variable: &Variable,
    making: &Making,
    count: u128,
    extents: &[Extent],
) -> Result<Vec<VarId>, Stop>
    requires ready { W.is_ready inside.now }
    requires defines { W.can_define inside.now }
    requires known { count ≡ meaning.cell_count (map extent_seen extents.now) }
    ensures did { Does (λ cells. cells.items) result (state_seen s.new (O.told out.new))
        (every_cell (variable_cell (level (W.code inside.now) (W.depth inside.now)) making.now.at
        (variable_of variable.now) making.now.decl
        (option_map (λ numbers. numbers.items) making.now.list)) (map extent_seen extents.now)
        (state_seen s.old (O.told out.old))) }
{
    let none = Vec::new(s.alloc);
    if count == 0 {
        return Ok(none);
    }
    make(s, out, inside, variable, making, extents, &[], none)
}

/// Puts the variables of the cells that these dimensions have, behind these indices, behind those so far.
#[cycle(make)]
fn make<O: Outside, W: Defining<O>>(
    s: &mut State,
    out: &mut O,
    inside: &W,
    variable: &Variable,
    making: &Making,
    extents: &[Extent],
    indices: &[i64],
    cells: Vec<VarId>,
) -> Result<Vec<VarId>, Stop>
    requires ready { W.is_ready inside.now }
    requires defines { W.can_define inside.now }
    ensures did { Does (λ cells. cells.items) result (state_seen s.new (O.told out.new))
        (each_cell (variable_cell (level (W.code inside.now) (W.depth inside.now)) making.now.at
        (variable_of variable.now) making.now.decl
        (option_map (λ numbers. numbers.items) making.now.list))
        (map extent_seen extents.now) indices.now cells.items (state_seen s.old (O.told out.old))) }
{
    match extents.first() {
        None => push_cell(s, out, inside, variable, making, indices, cells),
        Some(extent) => {
            make_along(
                s,
                out,
                inside,
                variable,
                making,
                *extent,
                &extents[1..],
                indices,
                cells,
            )
        }
    }
}

/// The same along a dimension, with those behind it for each of its indices.
#[cycle(make)]
fn make_along<O: Outside, W: Defining<O>>(
    s: &mut State,
    out: &mut O,
    inside: &W,
    variable: &Variable,
    making: &Making,
    extent: Extent,
    later: &[Extent],
    indices: &[i64],
    cells: Vec<VarId>,
) -> Result<Vec<VarId>, Stop>
    requires ready { W.is_ready inside.now }
    requires defines { W.can_define inside.now }
    ensures did { Does (λ cells. cells.items) result (state_seen s.new (O.told out.new))
        (along (variable_cell (level (W.code inside.now) (W.depth inside.now)) making.now.at
        (variable_of variable.now) making.now.decl
        (option_map (λ numbers. numbers.items) making.now.list)) (extent_seen extent)
        (map extent_seen later.now) indices.now cells.items (state_seen s.old (O.told out.old))) }
{
    let is_empty = extent.bounds.up < extent.bounds.low;
    if is_empty {
        return Ok(cells);
    }
    let mut made = cells;
    let mut index = extent.bounds.low;
    'sides: loop {
        made = make_at(
            s,
            out,
            inside,
            variable,
            making,
            extent.slot,
            index,
            later,
            indices,
            made,
        )?;
        let goes_on = index < extent.bounds.up;
        if goes_on {
            index += 1;
        } else {
            return Ok(made);
        }
    }
}

/// The same at one index.
#[cycle(make)]
fn make_at<O: Outside, W: Defining<O>>(
    s: &mut State,
    out: &mut O,
    inside: &W,
    variable: &Variable,
    making: &Making,
    slot: Option<Slot>,
    index: i64,
    later: &[Extent],
    indices: &[i64],
    cells: Vec<VarId>,
) -> Result<Vec<VarId>, Stop>
    requires ready { W.is_ready inside.now }
    requires defines { W.can_define inside.now }
    ensures did { Does (λ cells. cells.items) result (state_seen s.new (O.told out.new))
        (at_index (variable_cell (level (W.code inside.now) (W.depth inside.now)) making.now.at
        (variable_of variable.now) making.now.decl
        (option_map (λ numbers. numbers.items) making.now.list)) slot
        (map extent_seen later.now) indices.now index cells.items
        (state_seen s.old (O.told out.old))) }
{
    put_named(s, slot, index)?;
    let inner = with_index(s.alloc, indices, index)?;
    make(s, out, inside, variable, making, later, &inner, cells)
}

/// One more cell: its unit, its number or term, and then its variable.
fn push_cell<O: Outside, W: Defining<O>>(
    s: &mut State,
    out: &mut O,
    inside: &W,
    variable: &Variable,
    making: &Making,
    indices: &[i64],
    cells: Vec<VarId>,
) -> Result<Vec<VarId>, Stop>
    requires ready { W.is_ready inside.now }
    requires defines { W.can_define inside.now }
    ensures did { Does (λ cells. cells.items) result (state_seen s.new (O.told out.new))
        (variable_cell (level (W.code inside.now) (W.depth inside.now)) making.now.at
        (variable_of variable.now) making.now.decl
        (option_map (λ numbers. numbers.items) making.now.list) indices.now cells.items
        (state_seen s.old (O.told out.old))) }
{
    match &making.list {
        None => push_started(
            s,
            out,
            inside,
            making.at,
            variable,
            making.decl,
            indices,
            cells,
        ),
        Some(numbers) => {
            push_listed(
                s,
                out,
                making.at,
                variable,
                making.decl,
                numbers,
                indices,
                cells,
            )
        }
    }
}

/// One more cell, begun by its start.
#[tactic(auto, unfolding(comet_meaning::specs::Variables::next_cell))]
fn push_started<O: Outside, W: Defining<O>>(
    s: &mut State,
    out: &mut O,
    inside: &W,
    at: Place,
    variable: &Variable,
    decl: VarDecl,
    indices: &[i64],
    cells: Vec<VarId>,
) -> Result<Vec<VarId>, Stop>
    requires ready { W.is_ready inside.now }
    requires defines { W.can_define inside.now }
    ensures did { Does (λ cells. cells.items) result (state_seen s.new (O.told out.new))
        (next_cell (level (W.code inside.now) (W.depth inside.now)) at
        (variable_of variable.now) decl indices.now cells.items
        (state_seen s.old (O.told out.old))) }
{
    s.charge(1, at)?;
    let kind = variable_kind(variable.kind);
    let beginning = beginning_of(s, out, inside, kind, &variable.start);
    push_variable(s, out, at, variable, decl, indices, cells, beginning)
}

/// One more cell, begun by its number in a list.
#[tactic(auto, unfolding(comet_meaning::specs::Variables::listed_cell))]
fn push_listed<O: Outside>(
    s: &mut State,
    out: &mut O,
    at: Place,
    variable: &Variable,
    decl: VarDecl,
    numbers: &[i64],
    indices: &[i64],
    cells: Vec<VarId>,
) -> Result<Vec<VarId>, Stop>
    ensures did { Does (λ cells. cells.items) result (state_seen s.new (O.told out.new))
        (listed_cell at (variable_of variable.now) decl numbers.now indices.now cells.items
        (state_seen s.old (O.told out.old))) }
{
    s.charge(1, at)?;
    let number = number_at(numbers, cells.len());
    let beginning = begins_with(s.alloc, variable_kind(variable.kind), number);
    push_variable(s, out, at, variable, decl, indices, cells, Ok(beginning))
}

/// The number at an index, and 0 where there is none.
fn number_at(numbers: &[i64], index: usize) -> i64
    ensures { result ≡ slice_index_or numbers.now index (pos 0) }
{
    match numbers.get(index) {
        Some(number) => *number,
        None => 0,
    }
}
