//! What expressions stand for where they are written.
ghost use Rattle.std.specs.Prelude.{◌≡◌, ℕ, List, []};
ghost use Rattle.checked_tree.specs.Shape.{shape_of};
ghost use Rattle.comet_meaning.specs.Program.{level};
ghost use Rattle.comet_meaning.specs.Writes as writes;
ghost use Rattle.run_steps.specs.Does.{Does};
ghost use Rattle.run_steps.specs.Inside.{Locates};
ghost use Rattle.run_steps.specs.Views.{part};
ghost use Rattle.run_steps.specs.OfRunState.Targets.{target_seen};
ghost use Rattle.run_steps.specs.OfRunState.Views.{state_seen};

use cbl_base::Place;
use checked_tree::{Form, Kind, Typed};
use form_parts::values::{number_of, value_of};
use run_steps::inside::{Around, Within};
use run_steps::operands::{target_in_array, target_in_grid};
use run_steps::plain::plain_target;
use run_steps::state_of_runs::{Outside, State, Target};
use run_values::Stop;

/// What an expression of this kind at this place stands for, by its form.
#[tactic(auto, unfolding(checked_tree::specs::Shape::shape_of, comet_meaning::specs::Writes::target_of_form))]
pub fn target_of_form<
    O: Outside,
    W: Within<O>,
    L: Fn(&mut State, &mut O, &Typed) -> Result<Target, Stop>,
>(
    s: &mut State,
    out: &mut O,
    inside: &W,
    locate: &L,
    at: Place,
    kind: Kind,
    form: &Form,
) -> Result<Target, Stop>
    requires ready { W.is_ready inside.now }
    requires located { L.IsAlwaysCallable locate.now }
    requires locates { Locates O.told (L.post locate.now) (W.code inside.now) (W.depth inside.now) }
    ensures did { Does target_seen result (state_seen s.new (O.told out.new))
        (writes.target_of_form (level (W.code inside.now) (W.depth inside.now)) at kind
        (shape_of form.now) (state_seen s.old (O.told out.old))) }
{
    match form {
        Form::Name(slot) => s.name_target(kind, *slot),
        Form::Parentheses(inner) => locate(s, out, inner),
        Form::Index { array, index } => target_of_index(s, out, inside, at, array, index),
        Form::Cell { grid, row, column } => {
            target_of_cell(s, out, inside, at, grid, row, column)
        }
        _ => Ok(Target::Nowhere),
    }
}

/// `a[i]`, and `OutOfRange` outside the array.
#[tactic(auto, unfolding(comet_meaning::specs::Writes::index_target))]
fn target_of_index<O: Outside, W: Within<O>>(
    s: &mut State,
    out: &mut O,
    inside: &W,
    at: Place,
    array: &Typed,
    index: &Typed,
) -> Result<Target, Stop>
    requires ready { W.is_ready inside.now }
    ensures did { Does target_seen result (state_seen s.new (O.told out.new))
        (writes.index_target (level (W.code inside.now) (W.depth inside.now)) at (part array.now)
        (part index.now) (state_seen s.old (O.told out.old))) }
{
    let array = value_of(s, out, inside, array)?;
    let index = number_of(s, out, inside, index);
    target_in_array(s, at, &array, index)
}

/// `a[i,j]`, and `OutOfRange` outside the array.
#[tactic(auto, unfolding(comet_meaning::specs::Writes::cell_target))]
fn target_of_cell<O: Outside, W: Within<O>>(
    s: &mut State,
    out: &mut O,
    inside: &W,
    at: Place,
    grid: &Typed,
    row: &Typed,
    column: &Typed,
) -> Result<Target, Stop>
    requires ready { W.is_ready inside.now }
    ensures did { Does target_seen result (state_seen s.new (O.told out.new))
        (writes.cell_target (level (W.code inside.now) (W.depth inside.now)) at (part grid.now)
        (part row.now) (part column.now) (state_seen s.old (O.told out.old))) }
{
    let grid = value_of(s, out, inside, grid)?;
    let row = number_of(s, out, inside, row)?;
    let column = number_of(s, out, inside, column);
    target_in_grid(s, at, &grid, row, column)
}

/// What an expression stands for where it is written: a name that holds a number or a truth value for its own cell.
pub fn target_of<O: Outside, W: Around<O>>(
    s: &mut State,
    out: &mut O,
    inside: &W,
    e: &Typed,
) -> Result<Target, Stop>
    requires locates { W.can_locate inside.now }
    ensures did { Does target_seen result (state_seen s.new (O.told out.new))
        ((level (W.code inside.now) (W.depth inside.now)).target (part e.now)
        (state_seen s.old (O.told out.old))) }
{
    match plain_target(inside.room(), e) {
        Some(target) => Ok(target),
        None => inside.locate(s, out, e),
    }
}
