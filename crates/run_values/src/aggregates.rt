//! Aggregates: their elements, one by one, and then their value.
ghost use Rattle.std.specs.Prelude.{◌≡◌, IfErr, IfOk, map};
ghost use Rattle.std.specs.List.{list_all, list_any};
ghost use Rattle.comet_meaning.specs.Aggregates.{keys_by, keys_of, numbers_of, truths_of, with_element, aggregate_value, extreme_of};
ghost use Rattle.cbl_base.specs.declared.place.Place.{Place};
ghost use Rattle.cbl_operations.specs.Operations.Least.{least_of};
ghost use Rattle.cbl_operations.specs.Operations.Greatest.{greatest_of};
ghost use Rattle.comet_syntax.specs.declared.tree.expressions.Aggregate.TheVariants.{Sum, Min, Max, All};
ghost use Rattle.comet_meaning.specs.State.{State};
ghost use Rattle.comet_meaning.specs.Values as values;
ghost use Rattle.run_values.specs.Did.{Did, IsFaultOrMemory};
ghost use Rattle.run_values.specs.Views.{element_seen, value_seen};
ghost use Rattle.run_values.specs.declared.stop.Stop.TheVariants.{NoMemory};

use crate::operators::number_or;
use crate::stop::Stop;
use crate::values::Value;
use cbl_base::limits::MAX_CELLS;
use cbl_base::{Limit, Place, RunFault};
use cbl_operations::{KeyedOp, NaryOp};
use comet_syntax::tree::Aggregate;
use std::alloc::Global;

/// An element of an aggregate: the value of the generator, and that of the body.
#[derive(Drop)]
pub struct Element {
    pub key: i64,
    pub value: Value,
}

/// Adds one more element. `TooMany` at the place exactly where an `all` has as many as an array has cells.
pub fn push_element(
    elements: &mut Vec<Element>,
    at: Place,
    aggregate: Aggregate,
    key: i64,
    value: Value,
) -> Result<(), Stop>
    ensures did { (s : State) → Did (λ _. map element_seen elements.new.items) result s
        (with_element at aggregate key (map element_seen elements.old.items) (value_seen value) s) }
    ensures stop { IfErr result IsFaultOrMemory }
{
    match aggregate {
        Aggregate::All => push_cell(elements, at, key, value),
        _ => {
            elements.push(Element { key, value })?;
            Ok(())
        }
    }
}

/// Adds one more element of an `all`. `TooMany` at the place exactly where there are as many as an array has cells.
fn push_cell(elements: &mut Vec<Element>, at: Place, key: i64, value: Value) -> Result<(), Stop>
    ensures did { (s : State) → Did (λ _. map element_seen elements.new.items) result s
        (with_element at All key (map element_seen elements.old.items) (value_seen value) s) }
    ensures stop { IfErr result IsFaultOrMemory }
{
    if MAX_CELLS <= elements.len() {
        return Err(Stop::Fault(at, RunFault::TooMany(Limit::Cells)));
    }
    elements.push(Element { key, value })?;
    Ok(())
}

/// What the elements give. At the place `Overflow` exactly where a sum's total doesn't fit 64 bits, `EmptyRange` exactly
/// where there is no element of which one could be least or greatest.
pub fn aggregate_value(
    alloc: Global,
    at: Place,
    aggregate: Aggregate,
    elements: &[Element],
) -> Result<Value, Stop>
    ensures did { (s : State) → Did value_seen result s
        (aggregate_value at aggregate (map element_seen elements.now) s) }
    ensures stop { IfErr result IsFaultOrMemory }
{
    match aggregate {
        Aggregate::Sum => sum(alloc, at, elements),
        Aggregate::Min => least(alloc, at, elements),
        Aggregate::Max => greatest(alloc, at, elements),
        Aggregate::All => all(alloc, elements),
        Aggregate::And => Ok(Value::Truth(are_all_true(elements))),
        Aggregate::Or => Ok(Value::Truth(is_one_true(elements))),
        Aggregate::SetOf => keys_by(alloc, KeyedOp::SetOf, elements),
        Aggregate::ArgMin => keys_by(alloc, KeyedOp::ArgMin, elements),
        Aggregate::ArgMax => keys_by(alloc, KeyedOp::ArgMax, elements),
    }
}

/// The numbers of the elements. `NoMemory` where there is none for them; there is no other stop.
fn numbers_in(alloc: Global, elements: &[Element]) -> Result<Vec<i64>, Stop>
    ensures numbers { IfOk result (λ numbers.
        numbers.items ≡ numbers_of (map element_seen elements.now)) }
    ensures memory { IfErr result (λ stop. stop ≡ NoMemory) }
{
    let mut numbers = Vec::new(alloc);
    for element in elements {
        numbers.push(element.value.number())?;
    }
    Ok(numbers)
}

/// The keys of the elements. `NoMemory` where there is none for them; there is no other stop.
fn keys_in(alloc: Global, elements: &[Element]) -> Result<Vec<i64>, Stop>
    ensures keys { IfOk result (λ keys. keys.items ≡ keys_of (map element_seen elements.now)) }
    ensures memory { IfErr result (λ stop. stop ≡ NoMemory) }
{
    let mut keys = Vec::new(alloc);
    for element in elements {
        keys.push(element.key)?;
    }
    Ok(keys)
}

/// Whether each element is true.
fn are_all_true(elements: &[Element]) -> bool
    ensures { result ≡ list_all (λ b. b) (truths_of (map element_seen elements.now)) }
{
    for element in elements {
        if !element.value.truth() {
            return false;
        }
    }
    true
}

/// Whether an element is true.
fn is_one_true(elements: &[Element]) -> bool
    ensures { result ≡ list_any (λ b. b) (truths_of (map element_seen elements.now)) }
{
    for element in elements {
        if element.value.truth() {
            return true;
        }
    }
    false
}

/// The total of the numbers.
fn sum(alloc: Global, at: Place, elements: &[Element]) -> Result<Value, Stop>
    ensures did { (s : State) → Did value_seen result s
        (aggregate_value at Sum (map element_seen elements.now) s) }
    ensures stop { IfErr result IsFaultOrMemory }
{
    let numbers = numbers_in(alloc, elements)?;
    number_or(at, NaryOp::Sum.value(&numbers))
}

/// The least of the numbers.
fn least(alloc: Global, at: Place, elements: &[Element]) -> Result<Value, Stop>
    ensures did { (s : State) → Did value_seen result s
        (aggregate_value at Min (map element_seen elements.now) s) }
    ensures stop { IfErr result IsFaultOrMemory }
{
    let numbers = numbers_in(alloc, elements)?;
    number_or(at, least_or(&numbers))
}

/// The greatest of the numbers.
fn greatest(alloc: Global, at: Place, elements: &[Element]) -> Result<Value, Stop>
    ensures did { (s : State) → Did value_seen result s
        (aggregate_value at Max (map element_seen elements.now) s) }
    ensures stop { IfErr result IsFaultOrMemory }
{
    let numbers = numbers_in(alloc, elements)?;
    number_or(at, greatest_or(&numbers))
}

/// The least number. `EmptyRange` exactly where there is none.
fn least_or(numbers: &[i64]) -> Result<i64, RunFault>
    ensures { result ≡ extreme_of least_of numbers.now }
{
    if numbers.is_empty() {
        return Err(RunFault::EmptyRange);
    }
    NaryOp::Least.value(numbers)
}

/// The greatest number. `EmptyRange` exactly where there is none.
fn greatest_or(numbers: &[i64]) -> Result<i64, RunFault>
    ensures { result ≡ extreme_of greatest_of numbers.now }
{
    if numbers.is_empty() {
        return Err(RunFault::EmptyRange);
    }
    NaryOp::Greatest.value(numbers)
}

/// The numbers in a row.
fn all(alloc: Global, elements: &[Element]) -> Result<Value, Stop>
    ensures did { (at : Place) (s : State) →
        Did value_seen result s (aggregate_value at All (map element_seen elements.now) s) }
    ensures memory { IfErr result (λ stop. stop ≡ NoMemory) }
{
    let numbers = numbers_in(alloc, elements)?;
    Ok(Value::Row(numbers))
}

/// The set of some of the keys, by the numbers. `NoMemory` where there is none for it; there is no other stop.
fn keys_by(alloc: Global, op: KeyedOp, elements: &[Element]) -> Result<Value, Stop>
    ensures set { IfOk result (λ set.
        value_seen set ≡ values.Set (keys_by op (map element_seen elements.now))) }
    ensures memory { IfErr result (λ stop. stop ≡ NoMemory) }
{
    let keys = keys_in(alloc, elements)?;
    let numbers = numbers_in(alloc, elements)?;
    let set = op.value(alloc, &keys, &numbers)?;
    Ok(Value::Set(set))
}
