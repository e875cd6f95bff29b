//! The tuples of generators, one after the other: the generators that are open, the last one on top.
ghost use Rattle.std.specs.Prelude.{◌≡◌, ◌≤◌, ◌<◌, ◌+◌, ℕ, ℤ, List, [], ◌∷◌, Some, IfOk, IfSome, OnOk, drop, length};
ghost use Rattle.comet_meaning.specs.Odometer as odometer;
ghost use Rattle.comet_meaning.specs.Odometer.{next_of, behind_next};
ghost use Rattle.comet_meaning.specs.Program.{level};
ghost use Rattle.run_steps.specs.OpenTuples.{Remains, Entering, Advances, SameLeft, Visits, pending_seen, bounds_of, stack_seen, rests_seen};
ghost use Rattle.run_steps.specs.OfRunState.Views.{state_seen};

use crate::values::value_of;
use cbl_base::Place;
use checked_tree::Generator;
use run_steps::inside::Within;
use run_steps::state_of_runs::{Outside, State};
use run_steps::tuples::{Entered, Tuples, begin, pending_of, take_value};
use run_values::Stop;
use std::mem;

/// Begins a value of the last open generator: whether that makes a tuple; else the next generator opens.
fn enter<O: Outside, W: Within<O>>(
    s: &mut State,
    out: &mut O,
    inside: &W,
    at: Place,
    generators: &[Generator],
    tuples: &mut Tuples,
    value: i64,
) -> Result<bool, Stop>
    requires ready { W.is_ready inside.now }
    requires known { length tuples.old.below.items < length generators.now }
    ensures did { (V : Visits) (p : odometer.Pending) → next_of p ≡ Some value → SameLeft (behind_next p) (pending_seen tuples.old.top) → Remains (level (W.code inside.now) (W.depth inside.now)) at V generators.now (bounds_of tuples.old) (p ∷ rests_seen tuples.old.below.items) (state_seen s.old (O.told out.old)) → Entering (level (W.code inside.now) (W.depth inside.now)) at V generators.now result tuples.new value (state_seen s.new (O.told out.new)) }
    ensures inside { OnOk result (length tuples.new.below.items < length generators.now) }
    ensures grows { OnOk result (length tuples.new.below.items ≤ length tuples.old.below.items + 1) }
    ensures falls { OnOk result (s.new.fuel < s.old.fuel) }
{
    let open = tuples.below.len();
    let generator = &generators[open];
    if open + 1 == generators.len() {
        begin(s, at, &tuples.below, generator.slot, value)?;
        return Ok(true);
    }
    begin(s, generator.place, &tuples.below, generator.slot, value)?;
    let next = &generators[open + 1];
    let domain = value_of(s, out, inside, &next.domain)?;
    let rest = mem::replace(&mut tuples.top, pending_of(domain));
    tuples.below.push(Entered {
        slot: generator.slot,
        value,
        rest,
    })?;
    Ok(false)
}

/// The value of the last generator in the next tuple, whose names have their values then; `None` exactly where there is
/// no more tuple.
pub fn next_tuple<O: Outside, W: Within<O>>(
    s: &mut State,
    out: &mut O,
    inside: &W,
    at: Place,
    generators: &[Generator],
    tuples: &mut Tuples,
) -> Result<Option<i64>, Stop>
    requires ready { W.is_ready inside.now }
    requires known { length tuples.old.below.items < length generators.now }
    ensures did { (V : Visits) → Remains
        (level (W.code inside.now) (W.depth inside.now)) at V generators.now (bounds_of tuples.old)
        (stack_seen tuples.old) (state_seen s.old (O.told out.old)) →
        Advances (level (W.code inside.now)
        (W.depth inside.now)) at V generators.now result tuples.new
        (state_seen s.new (O.told out.new)) }
    ensures inside { OnOk result (length tuples.new.below.items < length generators.now) }
    ensures falls { IfOk result (λ r. IfSome r (λ _. s.new.fuel < s.old.fuel)) }
{
    loop {
        match take_value(&mut tuples.top) {
            Some(value) => {
                if enter(s, out, inside, at, generators, tuples, value)? {
                    return Ok(Some(value));
                }
            }
            None => match tuples.below.pop() {
                Some(entered) => tuples.top = entered.rest,
                None => return Ok(None),
            },
        }
    }
}
