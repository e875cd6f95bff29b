//! The values of operations on sets.
ghost use Rattle.std.specs.Prelude.{◌≡◌, [], ◌∷◌, ◌++◌, IfOk, Ok, length, filter, not};
ghost use Rattle.cbl_base.specs.Sets.{is_member};
ghost use Rattle.cbl_base.specs.declared.input.Input.TheVariants.{Int, Set};
ghost use Rattle.cbl_operations.specs.SetForms.{keys_where};
ghost use Rattle.cbl_operations.specs.Operations.ArgMin.{keys_of_least};
ghost use Rattle.cbl_operations.specs.Operations.ArgMax.{keys_of_greatest};
ghost use Rattle.cbl_operations.specs.Operations.SetOf.{keys_of_ones};
ghost use Rattle.cbl_operations.specs.TwoSets.{union_of, inter_of, minus_of};
ghost use Rattle.cbl_operations.specs.Operations.Card.{card};
ghost use Rattle.cbl_operations.specs.Operations.Member.{member};
ghost use Rattle.std.specs.Ordering.{int_eq};

use crate::order::{greatest_of, least_of};
use cbl_base::{IntSet, NoMemory};
use std::alloc::Global;

/// The set of the keys whose number is least.
pub(crate) fn keys_of_least(alloc: Global, keys: &[i64], inputs: &[i64]) -> Result<IntSet, NoMemory>
    requires { length inputs.now ≡ length keys.now }
    ensures { IfOk result (λ set. set ≡ keys_of_least keys.now inputs.now) }
{
    let found = keys_of(alloc, keys, inputs, least_of(inputs))?;
    IntSet::from_slice(alloc, &found)
}

/// The set of the keys whose number is greatest.
pub(crate) fn keys_of_greatest(
    alloc: Global,
    keys: &[i64],
    inputs: &[i64],
) -> Result<IntSet, NoMemory>
    requires { length inputs.now ≡ length keys.now }
    ensures { IfOk result (λ set. set ≡ keys_of_greatest keys.now inputs.now) }
{
    let found = keys_of(alloc, keys, inputs, greatest_of(inputs))?;
    IntSet::from_slice(alloc, &found)
}

/// The set of the keys whose number is 1.
pub(crate) fn keys_of_ones(alloc: Global, keys: &[i64], inputs: &[i64]) -> Result<IntSet, NoMemory>
    requires { length inputs.now ≡ length keys.now }
    ensures { IfOk result (λ set. set ≡ keys_of_ones keys.now inputs.now) }
{
    let found = keys_of(alloc, keys, inputs, 1)?;
    IntSet::from_slice(alloc, &found)
}

/// The members of either set.
pub(crate) fn union_of(alloc: Global, a: &IntSet, b: &IntSet) -> Result<IntSet, NoMemory>
    ensures { IfOk result (λ set. set ≡ union_of a.now b.now) }
{
    let mut members = Vec::from_slice(alloc, a.as_slice())?;
    members.extend_from_slice(b.as_slice())?;
    IntSet::from_slice(alloc, &members)
}

/// The members of both sets.
pub(crate) fn inter_of(alloc: Global, a: &IntSet, b: &IntSet) -> Result<IntSet, NoMemory>
    ensures { IfOk result (λ set. set ≡ inter_of a.now b.now) }
{
    let members = members_in(alloc, a.as_slice(), b)?;
    IntSet::from_slice(alloc, &members)
}

/// The members of the first set that are none of the second.
pub(crate) fn minus_of(alloc: Global, a: &IntSet, b: &IntSet) -> Result<IntSet, NoMemory>
    ensures { IfOk result (λ set. set ≡ minus_of a.now b.now) }
{
    let members = members_not_in(alloc, a.as_slice(), b)?;
    IntSet::from_slice(alloc, &members)
}

/// The value of `Card`, of a set: how many members it has.
pub fn card_value(set: &IntSet) -> i64
    ensures { card.value (Set set.now ∷ []) ≡ Ok (Int result) }
{
    set.as_slice().len() as i64
}

/// The value of `Member`, of a number and a set: 1 where it is a member, 0 else.
pub fn member_value(number: i64, set: &IntSet) -> i64
    ensures { member.value (Int number ∷ Set set.now ∷ []) ≡ Ok (Int result) }
{
    i64::from(set.contains(number))
}

/// The keys whose number is this one.
fn keys_of(alloc: Global, keys: &[i64], numbers: &[i64], number: i64) -> Result<Vec<i64>, NoMemory>
    ensures { IfOk result (λ v. v.items ≡ keys_where (λ x. int_eq x number) keys.now numbers.now) }
{
    let pairs = keys.iter().zip(numbers);
    Ok(
        pairs
            .filter(|pair| *pair.1 == number)
            .map(|pair| *pair.0)
            .collect(alloc)?,
    )
}

/// Those of the numbers that are members.
fn members_in(alloc: Global, numbers: &[i64], set: &IntSet) -> Result<Vec<i64>, NoMemory>
    ensures { IfOk result (λ v. v.items ≡ filter (λ x. is_member x set.now) numbers.now) }
{
    Ok(
        numbers
            .iter()
            .copied()
            .filter(|x| set.contains(*x))
            .collect(alloc)?,
    )
}

/// Those of the numbers that are no members.
fn members_not_in(alloc: Global, numbers: &[i64], set: &IntSet) -> Result<Vec<i64>, NoMemory>
    ensures { IfOk result (λ v. v.items ≡ filter (λ x. not (is_member x set.now)) numbers.now) }
{
    Ok(
        numbers
            .iter()
            .copied()
            .filter(|x| !set.contains(*x))
            .collect(alloc)?,
    )
}
