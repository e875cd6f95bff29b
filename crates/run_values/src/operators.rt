//! What operators do with values.
ghost use Rattle.std.specs.Prelude.{◌≡◌, ℤ, IfErr, IfOk, Result, map};
ghost use Rattle.cbl_base.specs.Sets.{set_of};
ghost use Rattle.comet_meaning.specs.Arithmetic.{holds};
ghost use Rattle.comet_meaning.specs.Operators.{unary_result, decides, linked};
ghost use Rattle.comet_meaning.specs.Outcome.{give, give_or, then_do};
ghost use Rattle.comet_meaning.specs.State.{State};
ghost use Rattle.comet_meaning.specs.Values as values;
ghost use Rattle.comet_meaning.specs.Values.{number_of};
ghost use Rattle.run_values.specs.Did.{Did, IsFault};
ghost use Rattle.run_values.specs.Views.{value_seen};
ghost use Rattle.run_values.specs.declared.stop.Stop.TheVariants.{NoMemory};

use crate::stop::Stop;
use crate::values::{Value, numbers_of};
use cbl_base::{IntSet, Place, RunFault, add, div, mul, rem, sub};
use comet_syntax::tree::{ChainOperator, Comparison, UnaryOperator};
use std::alloc::Global;

/// The number, or its fault at this place.
pub(crate) fn number_or(at: Place, number: Result<i64, RunFault>) -> Result<Value, Stop>
    ensures did { (meant : Result ℤ RunFault) (s : State) → number ≡ meant →
        Did value_seen result s (then_do (give_or at meant s) (λ z. give (values.Number z))) }
    ensures stop { IfErr result IsFault }
{
    match number {
        Ok(number) => Ok(Value::Number(number)),
        Err(fault) => Err(Stop::Fault(at, fault)),
    }
}

/// The value of `-v` or `!v`. `Overflow` at the place exactly where the number's negative doesn't fit 64 bits.
pub fn unary(at: Place, operator: UnaryOperator, value: &Value) -> Result<Value, Stop>
    ensures did { (s : State) → Did value_seen result s
        (unary_result at operator (value_seen value.now) s) }
    ensures stop { IfErr result IsFault }
{
    match operator {
        UnaryOperator::Negative => number_or(at, sub(0, value.number())),
        UnaryOperator::Not => Ok(Value::Truth(!value.truth())),
    }
}

/// Whether the comparison holds of two numbers.
pub fn compare(comparison: Comparison, a: i64, b: i64) -> bool
    ensures { result ≡ holds comparison a b }
{
    match comparison {
        Comparison::Equal => a == b,
        Comparison::NotEqual => a != b,
        Comparison::Less => a < b,
        Comparison::LessEqual => a <= b,
        Comparison::Greater => a > b,
        Comparison::GreaterEqual => a >= b,
    }
}

/// Whether the value so far of a chain decides, so that no later operand is evaluated.
pub fn decides(operator: ChainOperator, so_far: &Value) -> bool
    ensures { result ≡ decides operator (value_seen so_far.now) }
{
    match operator {
        ChainOperator::Or => so_far.truth(),
        ChainOperator::And => !so_far.truth(),
        _ => false,
    }
}

/// The value of a chain with one more operand, where the value so far doesn't decide. `Overflow` at the place exactly
/// where the result doesn't fit 64 bits, `DivideByZero` exactly where a divisor is 0.
pub fn linked(
    at: Place,
    operator: ChainOperator,
    so_far: &Value,
    next: &Value,
) -> Result<Value, Stop>
    ensures did { (s : State) → Did value_seen result s
        (linked at operator (value_seen so_far.now) (value_seen next.now) s) }
    ensures stop { IfErr result IsFault }
{
    match operator {
        ChainOperator::Or => Ok(Value::Truth(next.truth())),
        ChainOperator::And => Ok(Value::Truth(next.truth())),
        ChainOperator::Add => number_or(at, add(so_far.number(), next.number())),
        ChainOperator::Subtract => number_or(at, sub(so_far.number(), next.number())),
        ChainOperator::Multiply => number_or(at, mul(so_far.number(), next.number())),
        ChainOperator::Divide => number_or(at, div(so_far.number(), next.number())),
        ChainOperator::Remainder => number_or(at, rem(so_far.number(), next.number())),
    }
}

/// The set of the numbers of these values. `NoMemory` where there is none for it; there is no other stop.
pub fn set_of_values(alloc: Global, members: &[Value]) -> Result<Value, Stop>
    ensures set { IfOk result (λ set. value_seen set ≡
        values.Set (set_of (map number_of (map value_seen members.now)))) }
    ensures memory { IfErr result (λ stop. stop ≡ NoMemory) }
{
    let numbers = numbers_of(alloc, members)?;
    let set = IntSet::from_slice(alloc, &numbers)?;
    Ok(Value::Set(set))
}

/// The numbers of these values, in a row. `NoMemory` where there is none for them; there is no other stop.
pub fn row_of_values(alloc: Global, cells: &[Value]) -> Result<Value, Stop>
    ensures row { IfOk result (λ row. value_seen row ≡
        values.Row (map number_of (map value_seen cells.now))) }
    ensures memory { IfErr result (λ stop. stop ≡ NoMemory) }
{
    let numbers = numbers_of(alloc, cells)?;
    Ok(Value::Row(numbers))
}
