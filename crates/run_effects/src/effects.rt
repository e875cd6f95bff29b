//! What statements do with the last of their operands. Each function takes the operand's answer as it is, and an end of
//! the run passes on.
ghost use Rattle.std.specs.Prelude.{◌≡◌, ℕ, ℤ, List, [], ◌∷◌, ◌++◌, ◌+ℤ◌, ◌-ℤ◌, Some, map};
ghost use Rattle.comet_meaning.specs.Cells.{put};
ghost use Rattle.comet_meaning.specs.Declarations.{make_input};
ghost use Rattle.comet_meaning.specs.Levels as levels;
ghost use Rattle.comet_meaning.specs.Models.{make_solver};
ghost use Rattle.comet_meaning.specs.Outcome.{give};
ghost use Rattle.comet_meaning.specs.State as states;
ghost use Rattle.comet_meaning.specs.Moves.{make_selector};
ghost use Rattle.comet_meaning.specs.Solutions.{make_solution};
ghost use Rattle.comet_meaning.specs.Systems.{make_objective, make_sum, make_system};
ghost use Rattle.comet_meaning.specs.Values as values;
ghost use Rattle.comet_meaning.specs.Values.{as_kind, bounds_of, number_of, solver_of};
ghost use Rattle.comet_meaning.specs.Writes as writes;
ghost use Rattle.run_objects.specs.OfRunState.Acts.{listed, shown};
ghost use Rattle.run_objects.specs.OfRunState.Targets.{target_seen};
ghost use Rattle.run_objects.specs.OfRunState.Views.{state_seen};
ghost use Rattle.run_steps.specs.Does.{Does};
ghost use Rattle.run_effects.specs.Extents.{extent_seen};
ghost use Rattle.run_steps.specs.Following.{Follows};
ghost use Rattle.run_steps.specs.Operands.{made_array, next_behind, nothing_behind, started_value, stepped_target};
ghost use Rattle.run_steps.specs.Views.{flow_seen};
ghost use Rattle.run_objects.specs.OfRunOutside.Told.{Told, beside};
ghost use Rattle.run_values.specs.Did.{Did};
ghost use Rattle.run_values.specs.Views.{value_seen};

use crate::cells::{Extent, array_of};
use cbl_base::{Place, VarId};
use checked_tree::{Kind, Slot};
use comet_syntax::tree::Step;
use run_objects::solvers_of_runs::Built;
use run_objects::state_of_runs::{Outside, State, Target};
use run_objects::{
    added, define, make_objective, make_solution, make_solver, make_sum, make_system, stepped,
    subtracted, swap, write,
};
use run_steps::code::Flow;
use run_steps::leaves::is_array;
use run_values::values::as_kind;
use run_values::{Stop, Value};
use std::alloc::Global;

/// The next statement follows.
pub fn as_next(done: Result<(), Stop>) -> Result<Flow, Stop>
    ensures did { (s : states.State) → Follows (λ _. tt) flow_seen done result s s next_behind }
{
    match done {
        Err(stop) => Err(stop),
        Ok(_) => Ok(Flow::Next),
    }
}

/// A call returns with this value.
pub fn as_returned(value: Result<Value, Stop>) -> Result<Flow, Stop>
    ensures did { (s : states.State) →
        Follows value_seen flow_seen value result s s (λ v. give (levels.Returned (Some v))) }
{
    match value {
        Err(stop) => Err(stop),
        Ok(value) => Ok(Flow::Returned(Some(value))),
    }
}

/// A value is dropped.
pub fn as_done(value: Result<Value, Stop>) -> Result<(), Stop>
    ensures did { (s : states.State) →
        Follows value_seen (λ _. tt) value result s s nothing_behind }
{
    match value {
        Err(stop) => Err(stop),
        Ok(_value) => Ok(()),
    }
}

/// A name gets a number.
pub fn put_number(s: &mut State, slot: Slot, number: Result<i64, Stop>) -> Result<(), Stop>
    ensures did { (told : Told) → Follows (λ z. z) (λ _. tt) number result (state_seen s.old told)
        (state_seen s.new told) (λ z. put slot (values.Number z)) }
{
    match number {
        Err(stop) => Err(stop),
        Ok(number) => s.put(slot, Value::Number(number)),
    }
}

/// A name of this kind gets its first value, which stands at the second place; an array is copied.
fn start_value<O: Outside>(
    s: &mut State,
    out: &O,
    at: Place,
    place: Place,
    slot: Slot,
    kind: Kind,
    value: Value,
) -> Result<(), Stop>
    ensures did { Did (λ _. tt) result (state_seen s.new (O.told out.now))
        (started_value at place slot kind (value_seen value) (state_seen s.old (O.told out.now))) }
{
    if is_array(kind) {
        s.copy_array(out, at, place, slot, &value)
    } else {
        s.put(slot, as_kind(kind, value))
    }
}

/// The same with the value's answer.
pub fn declare_value<O: Outside>(
    s: &mut State,
    out: &O,
    at: Place,
    place: Place,
    slot: Slot,
    kind: Kind,
    value: Result<Value, Stop>,
) -> Result<(), Stop>
    ensures did { Follows value_seen (λ _. tt) value result (state_seen s.old (O.told out.now))
        (state_seen s.new (O.told out.now)) (started_value at place slot kind) }
{
    match value {
        Err(stop) => Err(stop),
        Ok(value) => start_value(s, out, at, place, slot, kind, value),
    }
}

/// The numbers of a list of exactly as many, which stands at the second place; they are charged.
pub fn take_list<O: Outside>(
    s: &mut State,
    out: &O,
    at: Place,
    place: Place,
    count: u128,
    list: Result<Value, Stop>,
) -> Result<Vec<i64>, Stop>
    ensures did { Follows value_seen (λ numbers.
        numbers.items) list result (state_seen s.old (O.told out.now))
        (state_seen s.new (O.told out.now)) (listed at place count) }
{
    match list {
        Err(stop) => Err(stop),
        Ok(list) => s.listed(out, at, place, count, &list),
    }
}

/// The numbers with one more.
pub fn push_number(numbers: Vec<i64>, number: Result<i64, Stop>) -> Result<Vec<i64>, Stop>
    ensures did { (s : states.State) →
        Follows (λ z. z) (λ numbers. numbers.items) number result s s (λ z.
        give (numbers.items ++ z ∷ [])) }
{
    let number = number?;
    let mut numbers = numbers;
    numbers.push(number)?;
    Ok(numbers)
}

/// A new array with these dimensions, which a name gets.
fn put_array(s: &mut State, slot: Slot, extents: &[Extent], numbers: Vec<i64>) -> Result<(), Stop>
    ensures did { (told : Told) → Does (λ _.
        tt) result (state_seen s.new told)
        (made_array slot (map extent_seen extents.now) numbers.items (state_seen s.old told)) }
{
    let array = s.new_array(array_of(extents, numbers))?;
    s.put(slot, array)
}

/// The same with the answer that the numbers are.
pub fn make_array(
    s: &mut State,
    slot: Slot,
    extents: &[Extent],
    numbers: Result<Vec<i64>, Stop>,
) -> Result<(), Stop>
    ensures did { (told : Told) → Follows (λ numbers. numbers.items) (λ _.
        tt) numbers result (state_seen s.old told) (state_seen s.new told)
        (made_array slot (map extent_seen extents.now)) }
{
    match numbers {
        Err(stop) => Err(stop),
        Ok(numbers) => put_array(s, slot, extents, numbers),
    }
}

/// A value is printed; it stands at this place.
pub fn show_part<O: Outside>(
    s: &mut State,
    out: &mut O,
    at: Place,
    value: Result<Value, Stop>,
) -> Result<(), Stop>
    ensures did { Follows value_seen (λ _. tt) value result (state_seen s.old (O.told out.old))
        (state_seen s.new (O.told out.new)) (shown at) }
{
    match value {
        Err(stop) => Err(stop),
        Ok(value) => s.print_value(out, at, &value),
    }
}

/// `target = value` and `target := value`, where the target is of this kind.
pub fn assign_part<O: Outside>(
    s: &mut State,
    out: &mut O,
    at: Place,
    kind: Kind,
    target: &Target,
    value: Result<Value, Stop>,
) -> Result<(), Stop>
    ensures did { Follows value_seen (λ _. tt) value result (state_seen s.old (O.told out.old))
        (state_seen s.new (O.told out.new)) (λ v.
        writes.write at (target_seen target.now) (as_kind kind v)) }
{
    match value {
        Err(stop) => Err(stop),
        Ok(value) => write(s, out, at, target, as_kind(kind, value)),
    }
}

/// `target += number`, where this stood in the target.
pub fn add_part<O: Outside>(
    s: &mut State,
    out: &mut O,
    at: Place,
    target: &Target,
    old: &Value,
    number: Result<i64, Stop>,
) -> Result<(), Stop>
    ensures did { Follows (λ z. z) (λ _. tt) number result (state_seen s.old (O.told out.old))
        (state_seen s.new (O.told out.new)) (λ z.
        writes.changed at (target_seen target.now) (number_of (value_seen old.now) +ℤ z)) }
{
    match number {
        Err(stop) => Err(stop),
        Ok(number) => added(s, out, at, target, old.number(), number),
    }
}

/// `target -= number`, where this stood in the target.
pub fn subtract_part<O: Outside>(
    s: &mut State,
    out: &mut O,
    at: Place,
    target: &Target,
    old: &Value,
    number: Result<i64, Stop>,
) -> Result<(), Stop>
    ensures did { Follows (λ z. z) (λ _. tt) number result (state_seen s.old (O.told out.old))
        (state_seen s.new (O.told out.new)) (λ z.
        writes.changed at (target_seen target.now) (number_of (value_seen old.now) -ℤ z)) }
{
    match number {
        Err(stop) => Err(stop),
        Ok(number) => subtracted(s, out, at, target, old.number(), number),
    }
}

/// `target++` and `target--`
fn step_at<O: Outside>(
    s: &mut State,
    out: &mut O,
    at: Place,
    step: Step,
    target: &Target,
) -> Result<(), Stop>
    ensures did { Does (λ _. tt) result (state_seen s.new (O.told out.new))
        (stepped_target at step (target_seen target.now) (state_seen s.old (O.told out.old))) }
{
    let old = s.old_value(target)?;
    stepped(s, out, at, target, step, old.number())
}

/// The same with the target's answer.
pub fn step_part<O: Outside>(
    s: &mut State,
    out: &mut O,
    at: Place,
    step: Step,
    target: Result<Target, Stop>,
) -> Result<(), Stop>
    ensures did { Follows target_seen (λ _. tt) target result (state_seen s.old (O.told out.old))
        (state_seen s.new (O.told out.new)) (stepped_target at step) }
{
    match target {
        Err(stop) => Err(stop),
        Ok(target) => step_at(s, out, at, step, &target),
    }
}

/// `target <- term`, where the target is a variable.
fn define_at<O: Outside>(out: &mut O, at: Place, target: &Target, term: Built) -> Result<(), Stop>
    ensures did { (s : states.State) →
        Did (λ _. tt) result (beside (O.told out.new) s)
        (writes.defined_at at (target_seen target.now) term (beside (O.told out.old) s)) }
    ensures printed { (O.told out.new).printed ≡ (O.told out.old).printed }
{
    match target {
        Target::Moved(variable) => define(out, at, *variable, term),
        Target::Nowhere => Ok(()),
        Target::Name(_) => Ok(()),
        Target::Element(_, _) => Ok(()),
    }
}

/// The same with the term's answer.
pub fn define_part<O: Outside>(
    out: &mut O,
    at: Place,
    target: &Target,
    term: Result<Built, Stop>,
) -> Result<(), Stop>
    ensures did { (s : states.State) →
        Follows (λ t. t) (λ _. tt) term result (beside (O.told out.old) s)
        (beside (O.told out.new) s) (writes.defined_at at (target_seen target.now)) }
{
    match term {
        Err(stop) => Err(stop),
        Ok(term) => define_at(out, at, target, term),
    }
}

/// `left :=: right`, where both are variables.
fn swap_at<O: Outside>(
    s: &mut State,
    out: &mut O,
    at: Place,
    left: &Target,
    right: &Target,
) -> Result<(), Stop>
    ensures did { Did (λ _. tt) result (state_seen s.new (O.told out.new))
        (writes.swapped_at at (target_seen left.now) (target_seen right.now)
        (state_seen s.old (O.told out.old))) }
    ensures printed { (O.told out.new).printed ≡ (O.told out.old).printed }
{
    match left {
        Target::Moved(left) => swap_with(s, out, at, *left, right),
        Target::Nowhere => Ok(()),
        Target::Name(_) => Ok(()),
        Target::Element(_, _) => Ok(()),
    }
}

/// The same where the left one is this variable.
fn swap_with<O: Outside>(
    s: &mut State,
    out: &mut O,
    at: Place,
    left: VarId,
    right: &Target,
) -> Result<(), Stop>
    ensures did { Did (λ _. tt) result (state_seen s.new (O.told out.new))
        (writes.swapped_at at (levels.Moved left) (target_seen right.now)
        (state_seen s.old (O.told out.old))) }
    ensures printed { (O.told out.new).printed ≡ (O.told out.old).printed }
{
    match right {
        Target::Moved(right) => swap(s, out, at, left, *right),
        Target::Nowhere => Ok(()),
        Target::Name(_) => Ok(()),
        Target::Element(_, _) => Ok(()),
    }
}

/// The same with the answer of the right one.
pub fn swap_part<O: Outside>(
    s: &mut State,
    out: &mut O,
    at: Place,
    left: &Target,
    right: Result<Target, Stop>,
) -> Result<(), Stop>
    ensures did { Follows target_seen (λ _. tt) right result (state_seen s.old (O.told out.old))
        (state_seen s.new (O.told out.new)) (writes.swapped_at at (target_seen left.now)) }
{
    match right {
        Err(stop) => Err(stop),
        Ok(right) => swap_at(s, out, at, left, &right),
    }
}

/// A new solver.
pub fn solver_made<O: Outside>(out: &mut O, alloc: Global) -> Result<Value, Stop>
    ensures did { (s : states.State) →
        Does value_seen result (beside (O.told out.new) s)
        (make_solver (beside (O.told out.old) s)) }
{
    make_solver(out, alloc)
}

/// A new input.
pub fn input_made(s: &mut State) -> Result<Value, Stop>
    ensures did { (told : Told) → Does value_seen result (state_seen s.new told)
        (make_input (state_seen s.old told)) }
{
    s.make_input()
}

/// A new constraint system of a solver.
pub fn system_made<O: Outside>(
    out: &mut O,
    at: Place,
    solver: Result<Value, Stop>,
) -> Result<Value, Stop>
    ensures did { (s : states.State) →
        Follows value_seen value_seen solver result (beside (O.told out.old) s)
        (beside (O.told out.new) s) (λ v. make_system at (solver_of v)) }
{
    match solver {
        Err(stop) => Err(stop),
        Ok(solver) => make_system(out, at, &solver),
    }
}

/// A new sum of terms in a solver.
pub fn sum_made<O: Outside>(
    out: &mut O,
    at: Place,
    solver: Result<Value, Stop>,
) -> Result<Value, Stop>
    ensures did { (s : states.State) →
        Follows value_seen value_seen solver result (beside (O.told out.old) s)
        (beside (O.told out.new) s) (λ v. make_sum at (solver_of v)) }
{
    match solver {
        Err(stop) => Err(stop),
        Ok(solver) => make_sum(out, at, &solver),
    }
}

/// A new objective of a term.
pub fn objective_made<O: Outside>(
    out: &mut O,
    at: Place,
    term: Result<Built, Stop>,
) -> Result<Value, Stop>
    ensures did { (s : states.State) →
        Follows (λ t. t) value_seen term result (beside (O.told out.old) s)
        (beside (O.told out.new) s) (make_objective at) }
{
    match term {
        Err(stop) => Err(stop),
        Ok(term) => make_objective(out, at, term),
    }
}

/// A new selector, which keeps nothing.
pub fn selector_made(s: &mut State) -> Result<Value, Stop>
    ensures did { (told : Told) → Does value_seen result (state_seen s.new told)
        (make_selector (state_seen s.old told)) }
{
    s.make_selector()
}

/// A new distribution over a range.
pub fn distribution_made(range: Result<Value, Stop>) -> Result<Value, Stop>
    ensures did { (s : states.State) →
        Follows value_seen value_seen range result s s (λ v.
        give (values.Distribution (bounds_of v))) }
{
    match range {
        Err(stop) => Err(stop),
        Ok(range) => Ok(Value::Distribution(range.bounds())),
    }
}

/// A new solution of a solver.
pub fn solution_made<O: Outside>(
    s: &mut State,
    out: &mut O,
    at: Place,
    solver: Result<Value, Stop>,
) -> Result<Value, Stop>
    ensures did { Follows value_seen value_seen solver result (state_seen s.old (O.told out.old))
        (state_seen s.new (O.told out.new)) (λ v. make_solution at (solver_of v)) }
{
    match solver {
        Err(stop) => Err(stop),
        Ok(solver) => make_solution(s, out, at, &solver),
    }
}

/// A name gets what was made.
pub fn put_made(s: &mut State, slot: Slot, made: Result<Value, Stop>) -> Result<(), Stop>
    ensures did { (told : Told) → Follows value_seen (λ _.
        tt) made result (state_seen s.old told) (state_seen s.new told) (put slot) }
{
    match made {
        Err(stop) => Err(stop),
        Ok(made) => s.put(slot, made),
    }
}
