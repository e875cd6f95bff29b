//! What is done with the last operand of a form. Each function takes the operand's answer as it is, and an end of the
//! run passes on: so the evaluation has no exit of its own for it.
ghost use Rattle.std.specs.Prelude.{◌≡◌, ℕ, ℤ, List, map};
ghost use Rattle.checked_tree.specs.Shape.{seen, whole};
ghost use Rattle.comet_meaning.specs.Operators as operators;
ghost use Rattle.comet_meaning.specs.Outcome.{give};
ghost use Rattle.comet_meaning.specs.Parts as parts;
ghost use Rattle.comet_meaning.specs.State as states;
ghost use Rattle.comet_meaning.specs.Terms.{several_of, single_of, standing};
ghost use Rattle.comet_meaning.specs.Values.{as_kind, bounds_of, number_of, truth_of};
ghost use Rattle.run_objects.specs.OfRunState.Acts.{cell_written, counted, index_written, indexed, indexed_twice};
ghost use Rattle.run_objects.specs.OfRunState.InTerms.{in_term_seen, term_cells_seen};
ghost use Rattle.run_objects.specs.OfRunState.Targets.{target_seen};
ghost use Rattle.run_objects.specs.OfRunOutside.Told.{Told};
ghost use Rattle.run_objects.specs.OfRunState.Views.{state_seen};
ghost use Rattle.run_steps.specs.Does.{Does};
ghost use Rattle.run_steps.specs.Following.{Follows};
ghost use Rattle.run_steps.specs.Operands.{called_builtin, called_method, named_term, posted_with};
ghost use Rattle.run_steps.specs.Views.{part};
ghost use Rattle.run_values.specs.Views.{bounds_seen, value_seen};

use crate::leaves::read_place;
use cbl_base::Place;
use checked_tree::{Builtin, Kind, Link, Method, Slot, Typed};
use comet_syntax::tree::UnaryOperator;
use run_objects::solvers_of_runs::Built;
use run_objects::state_of_runs::{InTerm, Outside, State, Target, TermCells};
use run_objects::{method as call_method, post};
use run_values::builtins::builtin;
use run_values::operators::{linked, unary};
use run_values::values::as_kind;
use run_values::{Bounds, Stop, Value};
use std::alloc::Global;

/// The value of a part that was evaluated: a variable is read.
pub fn read_part<O: Outside>(
    s: &State,
    out: &O,
    e: &Typed,
    value: Result<Value, Stop>,
) -> Result<Value, Stop>
    ensures did { Follows value_seen value_seen value result (state_seen s.now (O.told out.now))
        (state_seen s.now (O.told out.now)) (parts.read (parts.read_place (part e.now))) }
{
    match value {
        Err(stop) => Err(stop),
        Ok(value) => s.read(out, read_place(e), value),
    }
}

/// A value as a number.
pub fn as_number(value: Result<Value, Stop>) -> Result<i64, Stop>
    ensures did { (s : states.State) →
        Follows value_seen (λ z. z) value result s s (λ v. give (number_of v)) }
{
    match value {
        Err(stop) => Err(stop),
        Ok(value) => Ok(value.number()),
    }
}

/// A value as a truth value.
pub fn as_truth(value: Result<Value, Stop>) -> Result<bool, Stop>
    ensures did { (s : states.State) →
        Follows value_seen (λ b. b) value result s s (λ v. give (truth_of v)) }
{
    match value {
        Err(stop) => Err(stop),
        Ok(value) => Ok(value.truth()),
    }
}

/// A value as the bounds of a range.
pub fn as_bounds(value: Result<Value, Stop>) -> Result<Bounds, Stop>
    ensures did { (s : states.State) →
        Follows value_seen bounds_seen value result s s (λ v. give (bounds_of v)) }
{
    match value {
        Err(stop) => Err(stop),
        Ok(value) => Ok(value.bounds()),
    }
}

/// A value as a name of this kind holds it.
pub fn as_held(kind: Kind, value: Result<Value, Stop>) -> Result<Value, Stop>
    ensures did { (s : states.State) →
        Follows value_seen value_seen value result s s (λ v. give (as_kind kind v)) }
{
    match value {
        Err(stop) => Err(stop),
        Ok(value) => Ok(as_kind(kind, value)),
    }
}

/// `-e` and `!e`
pub fn apply_unary(
    at: Place,
    operator: UnaryOperator,
    operand: Result<Value, Stop>,
) -> Result<Value, Stop>
    ensures did { (s : states.State) →
        Follows value_seen value_seen operand result s s (operators.unary_result at operator) }
{
    match operand {
        Err(stop) => Err(stop),
        Ok(value) => unary(at, operator, &value),
    }
}

/// The value of a chain so far with one more operand.
pub fn join_operand(
    link: &Link,
    so_far: &Value,
    operand: Result<Value, Stop>,
) -> Result<Value, Stop>
    ensures did { (s : states.State) →
        Follows value_seen value_seen operand result s s
        (operators.linked link.now.place link.now.operator (value_seen so_far.now)) }
{
    match operand {
        Err(stop) => Err(stop),
        Ok(next) => linked(link.place, link.operator, so_far, &next),
    }
}

/// `a[i]`, of the array and the index; a variable in the cell is unread.
pub fn index_array(
    s: &State,
    at: Place,
    array: &Value,
    index: Result<i64, Stop>,
) -> Result<Value, Stop>
    ensures did { (told : Told) → Follows (λ z. z) value_seen index result (state_seen s.now told)
        (state_seen s.now told) (indexed at (value_seen array.now)) }
{
    match index {
        Err(stop) => Err(stop),
        Ok(index) => s.index(at, array, index),
    }
}

/// `a[i,j]`, of the array and the indices; a variable in the cell is unread.
pub fn index_grid(
    s: &State,
    at: Place,
    grid: &Value,
    row: i64,
    column: Result<i64, Stop>,
) -> Result<Value, Stop>
    ensures did { (told : Told) → Follows (λ z. z) value_seen column result (state_seen s.now told)
        (state_seen s.now told) (indexed_twice at (value_seen grid.now) row) }
{
    match column {
        Err(stop) => Err(stop),
        Ok(column) => s.cell(at, grid, row, column),
    }
}

/// `a[i]` where it is written.
pub fn target_in_array(
    s: &State,
    at: Place,
    array: &Value,
    index: Result<i64, Stop>,
) -> Result<Target, Stop>
    ensures did { (told : Told) → Follows (λ z. z) target_seen index result (state_seen s.now told)
        (state_seen s.now told) (index_written at (value_seen array.now)) }
{
    match index {
        Err(stop) => Err(stop),
        Ok(index) => s.index_target(at, array, index),
    }
}

/// `a[i,j]` where it is written.
pub fn target_in_grid(
    s: &State,
    at: Place,
    grid: &Value,
    row: i64,
    column: Result<i64, Stop>,
) -> Result<Target, Stop>
    ensures did { (told : Told) → Follows (λ z. z) target_seen column result (state_seen s.now told)
        (state_seen s.now told) (cell_written at (value_seen grid.now) row) }
{
    match column {
        Err(stop) => Err(stop),
        Ok(column) => s.cell_target(at, grid, row, column),
    }
}

/// `count(a, e)`, of the array, which stands at the second place, and the number.
pub fn count_in_array<O: Outside>(
    s: &mut State,
    out: &O,
    at: Place,
    place: Place,
    array: &Value,
    number: Result<i64, Stop>,
) -> Result<Value, Stop>
    ensures did { Follows (λ z. z) value_seen number result (state_seen s.old (O.told out.now))
        (state_seen s.new (O.told out.now)) (counted at place (value_seen array.now)) }
{
    match number {
        Err(stop) => Err(stop),
        Ok(number) => s.count(out, at, place, array, number),
    }
}

/// A function of the language: a unit for the call, and then its value.
pub fn call_builtin(
    s: &mut State,
    at: Place,
    function: Builtin,
    arguments: Result<Vec<Value>, Stop>,
) -> Result<Value, Stop>
    ensures did { (told : Told) → Follows (λ values.
        map value_seen values.items) value_seen arguments result (state_seen s.old told)
        (state_seen s.new told) (called_builtin at function) }
{
    match arguments {
        Err(stop) => Err(stop),
        Ok(values) => {
            s.charge(1, at)?;
            builtin(s.alloc, at, function, &values)
        }
    }
}

/// A method: a unit for the call, and then what it does.
pub fn call_on<O: Outside>(
    s: &mut State,
    out: &mut O,
    at: Place,
    method: Method,
    object: &Typed,
    value: &Value,
    arguments: Result<Vec<Value>, Stop>,
) -> Result<Value, Stop>
    ensures did { Follows (λ values. map value_seen values.items) value_seen arguments result
        (state_seen s.old (O.told out.old)) (state_seen s.new (O.told out.new))
        (called_method at method (whole (seen object.now)) (value_seen value.now)) }
{
    match arguments {
        Err(stop) => Err(stop),
        Ok(values) => {
            s.charge(1, at)?;
            call_method(s, out, at, method, object, value, &values)
        }
    }
}

/// `post`: a unit for the call, and then the term with its weight comes to the object, which gives no value.
pub fn post_with<O: Outside>(
    s: &mut State,
    out: &mut O,
    at: Place,
    object: &Value,
    term: Built,
    weight: Result<i64, Stop>,
) -> Result<Value, Stop>
    ensures did { Follows (λ z. z) value_seen weight result (state_seen s.old (O.told out.old))
        (state_seen s.new (O.told out.new)) (posted_with at (value_seen object.now) term) }
{
    match weight {
        Err(stop) => Err(stop),
        Ok(weight) => post_behind(s, out, at, object, term, weight),
    }
}

/// The same of the weight.
fn post_behind<O: Outside>(
    s: &mut State,
    out: &mut O,
    at: Place,
    object: &Value,
    term: Built,
    weight: i64,
) -> Result<Value, Stop>
    ensures did { Does value_seen result (state_seen s.new (O.told out.new))
        (posted_with at (value_seen object.now) term weight (state_seen s.old (O.told out.old))) }
{
    s.charge(1, at)?;
    post(out, at, object, term, weight)
}

/// A truth value as a constraint, which is violated once where it is false.
pub fn as_broken(truth: Result<bool, Stop>) -> Result<Built, Stop>
    ensures did { (s : states.State) →
        Follows (λ b. b) (λ t. t) truth result s s (λ b. give (parts.broken b)) }
{
    match truth {
        Err(stop) => Err(stop),
        Ok(truth) => Ok(broken(truth)),
    }
}

/// The constraint that a truth value is.
fn broken(truth: bool) -> Built
    ensures { result ≡ parts.broken truth }
{
    if truth {
        Built::constant(0)
    } else {
        Built::constant(1)
    }
}

/// What a value stands for in a term: a variable for itself, and an array for its cells.
fn standing(s: &State, value: Value) -> Result<InTerm, Stop>
    ensures did { (told : Told) → Does in_term_seen result (state_seen s.now told)
        (standing (value_seen value) (state_seen s.now told)) }
{
    s.standing(value)
}

/// The same with the value's answer.
pub fn as_standing(s: &State, value: Result<Value, Stop>) -> Result<InTerm, Stop>
    ensures did { (told : Told) → Follows value_seen in_term_seen value result
        (state_seen s.now told) (state_seen s.now told) standing }
{
    match value {
        Err(stop) => Err(stop),
        Ok(value) => standing(s, value),
    }
}

/// What a name stands for in a term.
pub fn name_term(s: &State, slot: Slot) -> Result<InTerm, Stop>
    ensures did { (told : Told) → Does in_term_seen result (state_seen s.now told)
        (named_term slot (state_seen s.now told)) }
{
    match s.look(slot) {
        Err(stop) => Err(stop),
        Ok(value) => standing(s, value),
    }
}

/// What a part stands for, as one term.
pub fn as_single(term: Result<InTerm, Stop>) -> Result<Built, Stop>
    ensures did { (s : states.State) →
        Follows in_term_seen (λ t. t) term result s s (λ t. give (single_of t)) }
{
    match term {
        Err(stop) => Err(stop),
        Ok(term) => Ok(term.single()),
    }
}

/// What a part stands for, as an array of terms.
pub fn as_several(alloc: Global, term: Result<InTerm, Stop>) -> Result<TermCells, Stop>
    ensures did { (s : states.State) →
        Follows in_term_seen term_cells_seen term result s s (λ t. give (several_of t)) }
{
    match term {
        Err(stop) => Err(stop),
        Ok(term) => Ok(term.several(alloc)),
    }
}
