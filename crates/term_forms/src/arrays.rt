//! The cells of arrays, and lists, in terms.
ghost use Rattle.std.specs.Prelude.{◌≡◌, ◌||◌, ℕ, List, []};
ghost use Rattle.comet_meaning.specs.Program.{level};
ghost use Rattle.comet_meaning.specs.TermForms as forms;
ghost use Rattle.run_steps.specs.OfRunState.InTerms.{in_term_seen};
ghost use Rattle.run_steps.specs.OfRunState.Views.{state_seen};
ghost use Rattle.run_steps.specs.Does.{Does};
ghost use Rattle.run_steps.specs.Views.{part, row};

use crate::parts::terms_of;
use cbl_base::Place;
use checked_tree::Typed;
use form_parts::terms::{single_term, term_cells};
use form_parts::values::number_of;
use run_steps::inside::Defining;
use run_steps::solvers_of_runs::Built;
use run_steps::state_of_runs::{InTerm, Outside, State};
use run_values::Stop;
use term_nodes::nodes::{as_row, element_with, grid_with, pick, pick_twice};

/// `a[i]`: where the index holds incremental variables an operation of it and all cells, and else the cell itself.
#[tactic(auto, unfolding(comet_meaning::specs::TermForms::index_term))]
pub fn index_term<O: Outside, W: Defining<O>>(
    s: &mut State,
    out: &mut O,
    inside: &W,
    at: Place,
    array: &Typed,
    index: &Typed,
) -> Result<Built, Stop>
    requires ready { W.is_ready inside.now }
    requires defines { W.can_define inside.now }
    ensures did { Does (λ t. t) result (state_seen s.new (O.told out.new))
        (forms.index_term (level (W.code inside.now) (W.depth inside.now)) at (part array.now)
        (part index.now) (state_seen s.old (O.told out.old))) }
{
    if index.moving {
        element_term(s, out, inside, at, array, index)
    } else {
        picked_term(s, out, inside, at, array, index)
    }
}

/// `a[i]`, whose index holds incremental variables. The cells are charged at the array.
#[tactic(auto, unfolding(comet_meaning::specs::TermForms::element_term))]
fn element_term<O: Outside, W: Defining<O>>(
    s: &mut State,
    out: &mut O,
    inside: &W,
    at: Place,
    array: &Typed,
    index: &Typed,
) -> Result<Built, Stop>
    requires defines { W.can_define inside.now }
    ensures did { Does (λ t. t) result (state_seen s.new (O.told out.new))
        (forms.element_term (level (W.code inside.now) (W.depth inside.now)) at (part array.now)
        (part index.now) (state_seen s.old (O.told out.old))) }
{
    let place = array.place;
    let cells = term_cells(s, out, inside, array)?;
    let index = single_term(s, out, inside, index);
    element_with(s, at, place, cells, index)
}

/// `a[i]`, whose index is a number: the cell, and `OutOfRange` outside the array.
#[tactic(auto, unfolding(comet_meaning::specs::TermForms::picked_term))]
fn picked_term<O: Outside, W: Defining<O>>(
    s: &mut State,
    out: &mut O,
    inside: &W,
    at: Place,
    array: &Typed,
    index: &Typed,
) -> Result<Built, Stop>
    requires ready { W.is_ready inside.now }
    requires defines { W.can_define inside.now }
    ensures did { Does (λ t. t) result (state_seen s.new (O.told out.new))
        (forms.picked_term (level (W.code inside.now) (W.depth inside.now)) at (part array.now)
        (part index.now) (state_seen s.old (O.told out.old))) }
{
    let cells = term_cells(s, out, inside, array)?;
    let index = number_of(s, out, inside, index);
    pick(at, cells, index)
}

/// The same of `a[i,j]`.
#[tactic(auto, unfolding(comet_meaning::specs::TermForms::cell_term))]
pub fn cell_term<O: Outside, W: Defining<O>>(
    s: &mut State,
    out: &mut O,
    inside: &W,
    at: Place,
    grid: &Typed,
    row: &Typed,
    column: &Typed,
) -> Result<Built, Stop>
    requires ready { W.is_ready inside.now }
    requires defines { W.can_define inside.now }
    ensures did { Does (λ t. t) result (state_seen s.new (O.told out.new))
        (forms.cell_term (level (W.code inside.now) (W.depth inside.now)) at (part grid.now)
        (part row.now) (part column.now) (state_seen s.old (O.told out.old))) }
{
    if is_one_moving(row, column) {
        grid_term(s, out, inside, at, grid, row, column)
    } else {
        picked_cell(s, out, inside, at, grid, row, column)
    }
}

/// Whether one of two parts holds incremental variables.
fn is_one_moving(row: &Typed, column: &Typed) -> bool
    ensures { result ≡ (row.now.moving || column.now.moving) }
{
    row.moving || column.moving
}

/// `a[i,j]`, one of whose indices holds incremental variables. The cells are charged at the array.
#[tactic(auto, unfolding(comet_meaning::specs::TermForms::grid_term))]
fn grid_term<O: Outside, W: Defining<O>>(
    s: &mut State,
    out: &mut O,
    inside: &W,
    at: Place,
    grid: &Typed,
    row: &Typed,
    column: &Typed,
) -> Result<Built, Stop>
    requires defines { W.can_define inside.now }
    ensures did { Does (λ t. t) result (state_seen s.new (O.told out.new))
        (forms.grid_term (level (W.code inside.now) (W.depth inside.now)) at (part grid.now)
        (part row.now) (part column.now) (state_seen s.old (O.told out.old))) }
{
    let place = grid.place;
    let cells = term_cells(s, out, inside, grid)?;
    let row = single_term(s, out, inside, row)?;
    let column = single_term(s, out, inside, column);
    grid_with(s, at, place, cells, row, column)
}

/// `a[i,j]`, whose indices are numbers: the cell, and `OutOfRange` outside the array.
#[tactic(auto, unfolding(comet_meaning::specs::TermForms::picked_cell))]
fn picked_cell<O: Outside, W: Defining<O>>(
    s: &mut State,
    out: &mut O,
    inside: &W,
    at: Place,
    grid: &Typed,
    row: &Typed,
    column: &Typed,
) -> Result<Built, Stop>
    requires ready { W.is_ready inside.now }
    requires defines { W.can_define inside.now }
    ensures did { Does (λ t. t) result (state_seen s.new (O.told out.new))
        (forms.picked_cell (level (W.code inside.now) (W.depth inside.now)) at (part grid.now)
        (part row.now) (part column.now) (state_seen s.old (O.told out.old))) }
{
    let cells = term_cells(s, out, inside, grid)?;
    let row = number_of(s, out, inside, row)?;
    let column = number_of(s, out, inside, column);
    pick_twice(at, cells, row, column)
}

/// `[..]`: the terms in a row.
#[tactic(auto, unfolding(comet_meaning::specs::TermForms::list_term))]
pub fn list_term<O: Outside, W: Defining<O>>(
    s: &mut State,
    out: &mut O,
    inside: &W,
    cells: &[Typed],
) -> Result<InTerm, Stop>
    requires defines { W.can_define inside.now }
    ensures did { Does in_term_seen result (state_seen s.new (O.told out.new))
        (forms.list_term (level (W.code inside.now) (W.depth inside.now)) (row cells.now)
        (state_seen s.old (O.told out.old))) }
{
    as_row(terms_of(s, out, inside, cells))
}
