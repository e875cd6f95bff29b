//! Writes.
ghost use Rattle.std.specs.Prelude.{◌≡◌, ◌+ℤ◌, ◌-ℤ◌, IfErr};
ghost use Rattle.comet_meaning.specs.Writes as meaning;
ghost use Rattle.comet_meaning.specs.Writes.{changed};
ghost use Rattle.run_values.specs.Did.{Did, IsFaultOrMemory};
ghost use Rattle.run_values.specs.Views.{value_seen};
ghost use Rattle.run_state.specs.Targets.{target_seen};
ghost use Rattle.run_state.specs.Views.{state_seen};

use crate::variables::assign;
use cbl_base::{Place, add, sub};
use comet_syntax::tree::Step;
use run_state::{Outside, State, Target};
use run_values::{Stop, Value};

/// Writes a value: into a name's cell, its number into a cell of an array, or its number to a variable. The stops are
/// those of `assign`, and want of memory.
#[tactic(auto, unfolding(comet_meaning::specs::Writes::write))]
pub fn write<O: Outside>(
    s: &mut State,
    out: &mut O,
    at: Place,
    target: &Target,
    value: Value,
) -> Result<(), Stop>
    ensures did { Did (λ _. tt) result (state_seen s.new (O.told out.new))
        (meaning.write at (target_seen target.now) (value_seen value)
        (state_seen s.old (O.told out.old))) }
    ensures printed { (O.told out.new).printed ≡ (O.told out.old).printed }
    ensures stop { IfErr result IsFaultOrMemory }
    ensures fuel { s.new.fuel ≡ s.old.fuel }
{
    match target {
        Target::Nowhere => Ok(()),
        Target::Name(slot) => s.put(*slot, value),
        Target::Element(array, cell) => {
            s.put_number(*array, *cell, value.number());
            Ok(())
        }
        Target::Moved(variable) => assign(s, out, at, *variable, value.number()),
    }
}

/// Writes the sum of what stood there and a number. `Overflow` at this place exactly where it doesn't fit, and else the
/// stops of `write`.
pub fn added<O: Outside>(
    s: &mut State,
    out: &mut O,
    at: Place,
    target: &Target,
    old: i64,
    by: i64,
) -> Result<(), Stop>
    ensures did { Did (λ _. tt) result (state_seen s.new (O.told out.new))
        (changed at (target_seen target.now) (old +ℤ by) (state_seen s.old (O.told out.old))) }
    ensures printed { (O.told out.new).printed ≡ (O.told out.old).printed }
    ensures stop { IfErr result IsFaultOrMemory }
    ensures fuel { s.new.fuel ≡ s.old.fuel }
{
    match add(old, by) {
        Ok(sum) => write(s, out, at, target, Value::Number(sum)),
        Err(fault) => Err(Stop::Fault(at, fault)),
    }
}

/// Writes what stood there less a number. `Overflow` at this place exactly where it doesn't fit, and else the stops of
/// `write`.
pub fn subtracted<O: Outside>(
    s: &mut State,
    out: &mut O,
    at: Place,
    target: &Target,
    old: i64,
    by: i64,
) -> Result<(), Stop>
    ensures did { Did (λ _. tt) result (state_seen s.new (O.told out.new))
        (changed at (target_seen target.now) (old -ℤ by) (state_seen s.old (O.told out.old))) }
    ensures printed { (O.told out.new).printed ≡ (O.told out.old).printed }
    ensures stop { IfErr result IsFaultOrMemory }
    ensures fuel { s.new.fuel ≡ s.old.fuel }
{
    match sub(old, by) {
        Ok(difference) => write(s, out, at, target, Value::Number(difference)),
        Err(fault) => Err(Stop::Fault(at, fault)),
    }
}

/// Writes one more or one less than what stood there. `Overflow` at this place exactly where it doesn't fit, and else
/// the stops of `write`.
pub fn stepped<O: Outside>(
    s: &mut State,
    out: &mut O,
    at: Place,
    target: &Target,
    step: Step,
    old: i64,
) -> Result<(), Stop>
    ensures did { Did (λ _. tt) result (state_seen s.new (O.told out.new))
        (changed at (target_seen target.now) (meaning.stepped step old)
        (state_seen s.old (O.told out.old))) }
    ensures printed { (O.told out.new).printed ≡ (O.told out.old).printed }
    ensures stop { IfErr result IsFaultOrMemory }
    ensures fuel { s.new.fuel ≡ s.old.fuel }
{
    match step {
        Step::Increment => added(s, out, at, target, old, 1),
        Step::Decrement => subtracted(s, out, at, target, old, 1),
    }
}
