//! The functions of the language, of values.
ghost use Rattle.std.specs.Prelude.{◌≡◌, pos, [], ◌∷◌, IfErr, IfOk, map, nat_abs};
ghost use Rattle.cbl_base.specs.Arithmetic.{exact};
ghost use Rattle.cbl_base.specs.Sets.{is_member};
ghost use Rattle.cbl_base.specs.declared.place.Place.{Place};
ghost use Rattle.cbl_operations.specs.TwoSets.{two_sets_value};
ghost use Rattle.comet_meaning.specs.Builtins.{builtin_value};
ghost use Rattle.comet_meaning.specs.State.{State};
ghost use Rattle.comet_meaning.specs.Values as values;
ghost use Rattle.comet_meaning.specs.Values.{members_of};
ghost use Rattle.run_values.specs.Did.{Did, IsFaultOrMemory};
ghost use Rattle.run_values.specs.Views.{value_seen};
ghost use Rattle.run_values.specs.declared.stop.Stop.TheVariants.{NoMemory};

use crate::operators::number_or;
use crate::stop::Stop;
use crate::values::Value;
use cbl_base::{IntSet, Place, RunFault};
use cbl_operations::TwoSetsOp;
use checked_tree::Builtin;
use std::alloc::Global;

/// The value of a function of the language; a constraint has none, and neither has another number of arguments.
/// `Overflow` at the place exactly where a number without its sign doesn't fit 64 bits.
pub fn builtin(
    alloc: Global,
    at: Place,
    function: Builtin,
    arguments: &[Value],
) -> Result<Value, Stop>
    ensures did { (s : State) → Did value_seen result s
        (builtin_value at function (map value_seen arguments.now) s) }
    ensures stop { IfErr result IsFaultOrMemory }
{
    match arguments {
        [x] => builtin_of_one(at, function, x),
        [x, y] => builtin_of_two(alloc, function, x, y),
        _ => Ok(Value::Nothing),
    }
}

/// The value of a function of one argument.
fn builtin_of_one(at: Place, function: Builtin, x: &Value) -> Result<Value, Stop>
    ensures did { (s : State) → Did value_seen result s
        (builtin_value at function (value_seen x.now ∷ []) s) }
    ensures stop { IfErr result IsFaultOrMemory }
{
    match function {
        Builtin::Abs => number_or(at, without_sign(x.number())),
        Builtin::Card => Ok(Value::Number(x.members().len() as i64)),
        _ => Ok(Value::Nothing),
    }
}

/// The value of a function of two arguments.
fn builtin_of_two(alloc: Global, function: Builtin, x: &Value, y: &Value) -> Result<Value, Stop>
    ensures did { (at : Place) (s : State) →
        Did value_seen result s (builtin_value at function
        (value_seen x.now ∷ value_seen y.now ∷ []) s) }
    ensures stop { IfErr result IsFaultOrMemory }
{
    match function {
        Builtin::Min => Ok(Value::Number(x.number().min(y.number()))),
        Builtin::Max => Ok(Value::Number(x.number().max(y.number()))),
        Builtin::Member => Ok(Value::Truth(has_member(alloc, x.number(), y))),
        Builtin::Union => set_of_two(alloc, TwoSetsOp::Union, x, y),
        Builtin::Inter => set_of_two(alloc, TwoSetsOp::Inter, x, y),
        Builtin::Minus => set_of_two(alloc, TwoSetsOp::Minus, x, y),
        _ => Ok(Value::Nothing),
    }
}

/// The number without its sign. `Overflow` exactly where it doesn't fit 64 bits.
fn without_sign(number: i64) -> Result<i64, RunFault>
    ensures { result ≡ exact (pos (nat_abs number)) }
{
    number.checked_abs().ok_or(RunFault::Overflow)
}

/// The set that a value is, and of what is no set the one that has no member.
fn set_or<'a>(value: &'a Value, empty: &'a IntSet) -> &'a IntSet
    requires { empty.now ≡ [] }
    ensures { result.now ≡ members_of (value_seen value.now) }
{
    match value {
        Value::Set(set) => set,
        _ => empty,
    }
}

/// Whether the number is a member of the set.
fn has_member(alloc: Global, number: i64, set: &Value) -> bool
    ensures { result ≡ is_member number (members_of (value_seen set.now)) }
{
    let empty = IntSet::new(alloc);
    set_or(set, &empty).contains(number)
}

/// The set that an operation gives of two.
fn set_of_two(alloc: Global, op: TwoSetsOp, a: &Value, b: &Value) -> Result<Value, Stop>
    ensures set { IfOk result (λ set. value_seen set ≡
        values.Set (two_sets_value op (members_of (value_seen a.now))
        (members_of (value_seen b.now)))) }
    ensures memory { IfErr result (λ stop. stop ≡ NoMemory) }
{
    let empty = IntSet::new(alloc);
    let set = op.value(alloc, set_or(a, &empty), set_or(b, &empty))?;
    Ok(Value::Set(set))
}
