//! Lists, sets, the cells of arrays, and the functions of the language.
ghost use Rattle.std.specs.Prelude.{◌≡◌, ℕ, List, []};
ghost use Rattle.checked_tree.specs.declared.expressions.Builtin.TheVariants.{Count};
ghost use Rattle.comet_meaning.specs.Arrays as arrays;
ghost use Rattle.comet_meaning.specs.Builtins as builtins;
ghost use Rattle.comet_meaning.specs.Expressions as expressions;
ghost use Rattle.comet_meaning.specs.Program.{level};
ghost use Rattle.run_steps.specs.Does.{Does};
ghost use Rattle.run_steps.specs.Parts.{plain_builtin};
ghost use Rattle.run_steps.specs.Views.{part, row};
ghost use Rattle.run_steps.specs.OfRunState.Views.{state_seen};
ghost use Rattle.run_values.specs.Views.{value_seen};

use crate::expressions::values_of;
use cbl_base::Place;
use checked_tree::{Builtin, Typed};
use form_parts::values::{number_of, value_of};
use run_steps::inside::Within;
use run_steps::operands::{call_builtin, count_in_array, index_array, index_grid};
use run_steps::state_of_runs::{Outside, State};
use run_values::operators::{row_of_values, set_of_values};
use run_values::{Stop, Value};

/// A list: its numbers in a row.
#[tactic(auto, unfolding(comet_meaning::specs::Arrays::list_form))]
pub fn evaluate_list<O: Outside, W: Within<O>>(
    s: &mut State,
    out: &mut O,
    inside: &W,
    cells: &[Typed],
) -> Result<Value, Stop>
    requires ready { W.is_ready inside.now }
    ensures did { Does value_seen result (state_seen s.new (O.told out.new))
        (arrays.list_form (level (W.code inside.now) (W.depth inside.now)) (row cells.now)
        (state_seen s.old (O.told out.old))) }
{
    let values = values_of(s, out, inside, cells)?;
    row_of_values(s.alloc, &values)
}

/// `{..}`: the set of the numbers.
#[tactic(auto, unfolding(comet_meaning::specs::Expressions::set_form))]
pub fn evaluate_set<O: Outside, W: Within<O>>(
    s: &mut State,
    out: &mut O,
    inside: &W,
    members: &[Typed],
) -> Result<Value, Stop>
    requires ready { W.is_ready inside.now }
    ensures did { Does value_seen result (state_seen s.new (O.told out.new))
        (expressions.set_form (level (W.code inside.now) (W.depth inside.now)) (row members.now)
        (state_seen s.old (O.told out.old))) }
{
    let values = values_of(s, out, inside, members)?;
    set_of_values(s.alloc, &values)
}

/// `a[i]`: the cell, and `OutOfRange` outside the array.
#[tactic(auto, unfolding(comet_meaning::specs::Arrays::index_form))]
pub fn evaluate_index<O: Outside, W: Within<O>>(
    s: &mut State,
    out: &mut O,
    inside: &W,
    at: Place,
    array: &Typed,
    index: &Typed,
) -> Result<Value, Stop>
    requires ready { W.is_ready inside.now }
    ensures did { Does value_seen result (state_seen s.new (O.told out.new))
        (arrays.index_form (level (W.code inside.now) (W.depth inside.now)) at (part array.now)
        (part index.now) (state_seen s.old (O.told out.old))) }
{
    let array = value_of(s, out, inside, array)?;
    let index = number_of(s, out, inside, index);
    index_array(s, at, &array, index)
}

/// `a[i,j]`: the cell, and `OutOfRange` outside the array.
#[tactic(auto, unfolding(comet_meaning::specs::Arrays::cell_form))]
pub fn evaluate_cell<O: Outside, W: Within<O>>(
    s: &mut State,
    out: &mut O,
    inside: &W,
    at: Place,
    grid: &Typed,
    row: &Typed,
    column: &Typed,
) -> Result<Value, Stop>
    requires ready { W.is_ready inside.now }
    ensures did { Does value_seen result (state_seen s.new (O.told out.new))
        (arrays.cell_form (level (W.code inside.now) (W.depth inside.now)) at (part grid.now)
        (part row.now) (part column.now) (state_seen s.old (O.told out.old))) }
{
    let grid = value_of(s, out, inside, grid)?;
    let row = number_of(s, out, inside, row)?;
    let column = number_of(s, out, inside, column);
    index_grid(s, at, &grid, row, column)
}

/// `count(a, e)`: how often a number stands in an array.
#[tactic(auto, unfolding(comet_meaning::specs::Arrays::count_form))]
fn evaluate_count<O: Outside, W: Within<O>>(
    s: &mut State,
    out: &mut O,
    inside: &W,
    at: Place,
    array: &Typed,
    number: &Typed,
) -> Result<Value, Stop>
    requires ready { W.is_ready inside.now }
    ensures did { Does value_seen result (state_seen s.new (O.told out.new))
        (arrays.count_form (level (W.code inside.now) (W.depth inside.now)) at (part array.now)
        (part number.now) (state_seen s.old (O.told out.old))) }
{
    let place = array.place;
    let array = value_of(s, out, inside, array)?;
    let number = number_of(s, out, inside, number);
    count_in_array(s, out, at, place, &array, number)
}

/// A call of a function of the language.
pub fn evaluate_builtin<O: Outside, W: Within<O>>(
    s: &mut State,
    out: &mut O,
    inside: &W,
    at: Place,
    function: Builtin,
    arguments: &[Typed],
) -> Result<Value, Stop>
    requires ready { W.is_ready inside.now }
    ensures did { Does value_seen result (state_seen s.new (O.told out.new))
        (builtins.builtin_form (level (W.code inside.now) (W.depth inside.now)) at function
        (row arguments.now) (state_seen s.old (O.told out.old))) }
{
    match function {
        Builtin::Count => evaluate_count_call(s, out, inside, at, arguments),
        _ => evaluate_plain(s, out, inside, at, function, arguments),
    }
}

/// A call of `count`, with any number of arguments.
fn evaluate_count_call<O: Outside, W: Within<O>>(
    s: &mut State,
    out: &mut O,
    inside: &W,
    at: Place,
    arguments: &[Typed],
) -> Result<Value, Stop>
    requires ready { W.is_ready inside.now }
    ensures did { Does value_seen result (state_seen s.new (O.told out.new))
        (builtins.builtin_form (level (W.code inside.now) (W.depth inside.now)) at Count
        (row arguments.now) (state_seen s.old (O.told out.old))) }
{
    if arguments.len() != 2 {
        return evaluate_plain(s, out, inside, at, Builtin::Count, arguments);
    }
    evaluate_count(s, out, inside, at, &arguments[0], &arguments[1])
}

/// A function of the language whose arguments are all evaluated: a unit for the call, and then its value.
fn evaluate_plain<O: Outside, W: Within<O>>(
    s: &mut State,
    out: &mut O,
    inside: &W,
    at: Place,
    function: Builtin,
    arguments: &[Typed],
) -> Result<Value, Stop>
    requires ready { W.is_ready inside.now }
    ensures did { Does value_seen result (state_seen s.new (O.told out.new))
        (plain_builtin (level (W.code inside.now) (W.depth inside.now)) at function
        (row arguments.now) (state_seen s.old (O.told out.old))) }
{
    let values = values_of(s, out, inside, arguments);
    call_builtin(s, at, function, values)
}
