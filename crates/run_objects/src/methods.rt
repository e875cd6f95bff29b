//! Methods of ranges, sets, arrays, inputs, solvers, constraint systems, objectives, distributions, selectors and solutions.
ghost use Rattle.std.specs.Prelude.{◌≡◌, map, pos, IfOk, IfErr};
ghost use Rattle.cbl_base.specs.Arithmetic.{exact};
ghost use Rattle.cbl_base.specs.Sets.{is_member, with_member, without_member};
ghost use Rattle.checked_tree.specs.Shape.{seen, whole};
ghost use Rattle.comet_meaning.specs.Methods.{fitting_number, method_value, put_set};
ghost use Rattle.comet_meaning.specs.State as states;
ghost use Rattle.comet_meaning.specs.Values.{bounds_of, members_of, number_of, size_of};
ghost use Rattle.run_state.specs.OfRunSolvers.Stopping.{IsEndOrMemory};
ghost use Rattle.run_state.specs.OfRunOutside.Told.{Told};
ghost use Rattle.run_values.specs.Did.{Did, IsFaultOrMemory};
ghost use Rattle.run_values.specs.Views.{value_seen};
ghost use Rattle.run_values.specs.declared.stop.Stop.TheVariants.{NoMemory};
ghost use Rattle.run_state.specs.Views.{state_seen};
ghost use Rattle.run_objects.specs.SetChanges.{set_changed};

use crate::solutions::restore;
use crate::systems::{assign_delta, swap_delta, violations, whole_value};
use crate::variables::{close, domain_of};
use cbl_base::{IntSet, Place, RunFault};
use checked_tree::{Form, Method, Slot, Typed};
use run_state::{Outside, State};
use run_values::{Stop, Value};
use std::alloc::Global;

/// What a method does, and what it gives of its object's value and those of its arguments. `Overflow` at this place
/// exactly where a range has more numbers than fit 64 bits signed; `getInt` has the stops of `next_number`, `close` those
/// of `close`, `getDomain` those of `domain_of`, questions about systems and objectives those of `systems`, `get` and `getMove`
/// those of a state's `draw` and `get_move`, and `restore` those of `restore`. A method of what isn't run yet gives nothing, and so do `post` and a method with another number of arguments.
#[tactic(auto, using(crate::proofs::MethodStops::stops_so), unfolding(comet_meaning::specs::Methods::method_value))]
pub fn method<O: Outside>(
    s: &mut State,
    out: &mut O,
    at: Place,
    method: Method,
    object: &Typed,
    value: &Value,
    arguments: &[Value],
) -> Result<Value, Stop>
    ensures did { Did value_seen result (state_seen s.new (O.told out.new))
        (method_value at method (whole (seen object.now)) (value_seen value.now)
        (map value_seen arguments.now) (state_seen s.old (O.told out.old))) }
    ensures printed { (O.told out.new).printed ≡ (O.told out.old).printed }
    ensures stop { IfErr result IsEndOrMemory }
    ensures fuel { s.new.fuel ≡ s.old.fuel }
{
    match method {
        Method::Low => Ok(Value::Number(value.bounds().low)),
        Method::Up => Ok(Value::Number(value.bounds().up)),
        Method::RangeSize => range_size(at, value),
        Method::Contains => match arguments {
            [member] => Ok(Value::Truth(has_member(value, member))),
            _ => Ok(Value::Nothing),
        },
        Method::SetSize => Ok(Value::Number(value.members().len() as i64)),
        Method::Insert => match arguments {
            [member] => insert(s, object, member),
            _ => Ok(Value::Nothing),
        },
        Method::Delete => match arguments {
            [member] => delete(s, object, member),
            _ => Ok(Value::Nothing),
        },
        Method::ArraySize => Ok(s.array_size(value)),
        Method::ReadInt => s.next_number(at, value),
        Method::Close => close(out, at, value),
        Method::Domain => domain_of(out, at, value),
        Method::Violations => violations(out, at, value, arguments),
        Method::SystemAssignDelta => assign_delta(out, at, value, arguments),
        Method::SystemSwapDelta => swap_delta(out, at, value, arguments),
        Method::ObjectiveValue => whole_value(out, at, value),
        Method::ObjectiveEvaluation => whole_value(out, at, value),
        Method::ObjectiveAssignDelta => assign_delta(out, at, value, arguments),
        Method::ObjectiveSwapDelta => swap_delta(out, at, value, arguments),
        Method::Draw => s.draw(at, value),
        Method::HasMove => Ok(s.has_move(value)),
        Method::GetMove => s.get_move(at, value),
        Method::Restore => restore(s, out, at, value),
        Method::Post
        | Method::PostPart
        | Method::Report
        | Method::BestValue
        | Method::HasBest
        | Method::CopyBest
        | Method::Stop
        | Method::IsStopped => Ok(Value::Nothing),
    }
}

/// How many numbers a range holds. `Overflow` at this place exactly where that doesn't fit.
fn range_size(at: Place, range: &Value) -> Result<Value, Stop>
    ensures did { (s : states.State) →
        Did value_seen result s (fitting_number at
        (pos (size_of (bounds_of (value_seen range.now)))) s) }
    ensures stop { IfErr result IsFaultOrMemory }
{
    match fitting(range.bounds().size()) {
        Ok(size) => Ok(Value::Number(size)),
        Err(fault) => Err(Stop::Fault(at, fault)),
    }
}

/// The number. `Overflow` exactly where it doesn't fit 64 bits signed.
fn fitting(number: u128) -> Result<i64, RunFault>
    ensures { result ≡ exact (pos number) }
{
    if number <= i64::MAX as u128 {
        Ok(number as i64)
    } else {
        Err(RunFault::Overflow)
    }
}

/// Whether the number is a member of the set.
fn has_member(set: &Value, member: &Value) -> bool
    ensures { result ≡ is_member (number_of (value_seen member.now))
        (members_of (value_seen set.now)) }
{
    match set {
        Value::Set(set) => set.contains(member.number()),
        _ => false,
    }
}

/// Makes the number a member of the set in a name's cell. Of an object that is no name nothing is changed.
#[tactic(auto, unfolding(checked_tree::specs::Shape::shape_of))]
fn insert(s: &mut State, object: &Typed, member: &Value) -> Result<Value, Stop>
    ensures did { (told : Told) → Did value_seen result (state_seen s.new told)
        (put_set (whole (seen object.now)) (with_member (number_of (value_seen member.now)))
        (state_seen s.old told)) }
    ensures memory { IfErr result (λ stop. stop ≡ NoMemory) }
    ensures fuel { s.new.fuel ≡ s.old.fuel }
{
    match &object.form {
        Form::Name(slot) => insert_at(s, *slot, member),
        _ => Ok(Value::Nothing),
    }
}

/// Makes the number no member of the set in a name's cell. Of an object that is no name nothing is changed.
#[tactic(auto, unfolding(checked_tree::specs::Shape::shape_of))]
fn delete(s: &mut State, object: &Typed, member: &Value) -> Result<Value, Stop>
    ensures did { (told : Told) → Did value_seen result (state_seen s.new told)
        (put_set (whole (seen object.now)) (without_member (number_of (value_seen member.now)))
        (state_seen s.old told)) }
    ensures memory { IfErr result (λ stop. stop ≡ NoMemory) }
    ensures fuel { s.new.fuel ≡ s.old.fuel }
{
    match &object.form {
        Form::Name(slot) => delete_at(s, *slot, member),
        _ => Ok(Value::Nothing),
    }
}

/// Makes the number a member of the set in this cell.
fn insert_at(s: &mut State, slot: Slot, member: &Value) -> Result<Value, Stop>
    ensures did { (told : Told) → Did value_seen result (state_seen s.new told)
        (set_changed slot (with_member (number_of (value_seen member.now)))
        (state_seen s.old told)) }
    ensures memory { IfErr result (λ stop. stop ≡ NoMemory) }
    ensures fuel { s.new.fuel ≡ s.old.fuel }
{
    let held = s.look(slot)?;
    let set = with_number(s.alloc, held, member.number())?;
    s.put(slot, Value::Set(set))?;
    Ok(Value::Nothing)
}

/// Makes the number no member of the set in this cell.
fn delete_at(s: &mut State, slot: Slot, member: &Value) -> Result<Value, Stop>
    ensures did { (told : Told) → Did value_seen result (state_seen s.new told)
        (set_changed slot (without_member (number_of (value_seen member.now)))
        (state_seen s.old told)) }
    ensures memory { IfErr result (λ stop. stop ≡ NoMemory) }
    ensures fuel { s.new.fuel ≡ s.old.fuel }
{
    let held = s.look(slot)?;
    let set = without_number(s.alloc, held, member.number());
    s.put(slot, Value::Set(set))?;
    Ok(Value::Nothing)
}

/// The set that a value is, and the empty set of what is none.
fn set_or_empty(alloc: Global, value: Value) -> IntSet
    ensures { result ≡ members_of (value_seen value) }
{
    match value {
        Value::Set(set) => set,
        _ => IntSet::new(alloc),
    }
}

/// The set with the number. `NoMemory` where there is none for it; there is no other stop.
fn with_number(alloc: Global, value: Value, number: i64) -> Result<IntSet, Stop>
    ensures set { IfOk result (λ set. set ≡ with_member number (members_of (value_seen value))) }
    ensures memory { IfErr result (λ stop. stop ≡ NoMemory) }
{
    let mut set = set_or_empty(alloc, value);
    set.insert(number)?;
    Ok(set)
}

/// The set without the number.
fn without_number(alloc: Global, value: Value, number: i64) -> IntSet
    ensures { result ≡ without_member number (members_of (value_seen value)) }
{
    let mut set = set_or_empty(alloc, value);
    set.remove(number);
    set
}
