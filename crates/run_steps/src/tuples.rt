//! Open generators, as a stack: what each has left, and how a value begins.
ghost use Rattle.std.specs.Prelude.{◌≡◌, ◌<◌, ℕ, List, OnOk, drop};
ghost use Rattle.comet_meaning.specs.Generators.{with_bound, bind};
ghost use Rattle.comet_meaning.specs.Odometer as odometer;
ghost use Rattle.comet_meaning.specs.Odometer.{next_of, behind_next, begun};
ghost use Rattle.comet_meaning.specs.Values.{Range};
ghost use Rattle.run_objects.specs.OfRunState.Views.{state_seen};
ghost use Rattle.run_steps.specs.OpenTuples.{SameLeft, pending_seen, names_seen};
ghost use Rattle.run_objects.specs.OfRunOutside.Told.{Told};
ghost use Rattle.run_values.specs.Did.{Did};
ghost use Rattle.run_values.specs.Views.{bounds_seen, value_seen};

use cbl_base::{IntSet, Place};
use checked_tree::Slot;
use run_objects::state_of_runs::State;
use run_values::{Bounds, Stop, Value};

/// The values that an open generator has left.
#[derive(Drop)]
pub enum Pending {
    Done,
    /// All numbers of a range.
    Numbers(Bounds),
    /// The members of a set from this index on.
    Members(IntSet, usize),
}

/// An open generator below the last one: its name, the name's value, and the values that it has left.
#[derive(Drop)]
pub struct Entered {
    pub slot: Slot,
    pub value: i64,
    pub rest: Pending,
}

/// Open generators: what the last one has left, and those below it.
#[derive(Drop)]
pub struct Tuples {
    pub top: Pending,
    pub below: Vec<Entered>,
}

/// All values of a domain.
pub fn pending_of(domain: Value) -> Pending
    ensures { pending_seen result ≡ odometer.pending_of (value_seen domain) }
{
    match domain {
        Value::Range(bounds) => Pending::Numbers(bounds),
        Value::Set(set) => Pending::Members(set, 0),
        _ => Pending::Done,
    }
}

/// The next value, which is left no more; `None` exactly where none is left.
pub fn take_value(pending: &mut Pending) -> Option<i64>
    ensures next { result ≡ next_of (pending_seen pending.old) }
    ensures left { SameLeft (behind_next (pending_seen pending.old)) (pending_seen pending.new) }
{
    match pending {
        Pending::Done => None,
        Pending::Numbers(bounds) => {
            let numbers = *bounds;
            *pending = behind_low(numbers);
            low_of(numbers)
        }
        Pending::Members(set, index) => take_member(set, index),
    }
}

/// The least number within bounds.
fn low_of(bounds: Bounds) -> Option<i64>
    ensures { result ≡ next_of (odometer.pending_of (Range (bounds_seen bounds))) }
{
    if bounds.up < bounds.low {
        return None;
    }
    Some(bounds.low)
}

/// The numbers within bounds behind the least one.
fn behind_low(bounds: Bounds) -> Pending
    ensures { SameLeft (behind_next (odometer.pending_of (Range (bounds_seen bounds))))
        (pending_seen result) }
{
    if bounds.up <= bounds.low {
        return Pending::Done;
    }
    Pending::Numbers(Bounds {
        low: bounds.low + 1,
        up: bounds.up,
    })
}

/// The member at an index, which is left no more.
fn take_member(set: &IntSet, index: &mut usize) -> Option<i64>
    ensures next { result ≡ next_of (odometer.Members (drop index.old set.now)) }
    ensures left { behind_next (odometer.Members (drop index.old set.now)) ≡
        odometer.Members (drop index.new set.now) }
{
    if set.len() <= *index {
        return None;
    }
    let member = set.get(*index);
    *index += 1;
    member
}

/// A value begins: its unit is charged at the place, and all names so far get their values, the last one this one.
pub fn begin(
    s: &mut State,
    place: Place,
    below: &[Entered],
    slot: Slot,
    value: i64,
) -> Result<(), Stop>
    ensures did { (told : Told) → Did (λ _.
        tt) result (state_seen s.new told)
        (begun place (with_bound (names_seen below.now) slot value) (state_seen s.old told)) }
    ensures falls { OnOk result (s.new.fuel < s.old.fuel) }
{
    s.charge(1, place)?;
    bind_names(s, below)?;
    s.put(slot, Value::Number(value))
}

/// The names of open generators get their values.
fn bind_names(s: &mut State, below: &[Entered]) -> Result<(), Stop>
    ensures did { (told : Told) → Did (λ _.
        tt) result (state_seen s.new told) (bind (names_seen below.now) (state_seen s.old told)) }
    ensures fuel { s.new.fuel ≡ s.old.fuel }
{
    for entered in below {
        s.put(entered.slot, Value::Number(entered.value))?;
    }
    Ok(())
}
