//! Values on the heap, and values that stand beside what may fail.
//!
//! Where something can't be made, a function that is generic in the values beside it drops them: then its callers, which
//! know the values as trees, owe nothing for their drop.
ghost use Rattle.std.specs.Prelude.{◌≡◌, IfOk, Ok};
ghost use Rattle.comet_syntax.specs.Written.Statements.{unboxed};

use cbl_base::NoMemory;
use std::alloc::Global;

/// Two values on the heap.
pub fn box_two<A: Drop, B: Drop>(
    alloc: Global,
    first: A,
    second: B,
) -> Result<(Box<A>, Box<B>), NoMemory>
    ensures { IfOk result (λ boxes. (boxes.0.value ≡ first) × (boxes.1.value ≡ second)) }
{
    let first = Box::new(alloc, first)?;
    let second = Box::new(alloc, second)?;
    Ok((first, second))
}

/// Three values on the heap.
pub fn box_three<A: Drop, B: Drop, C: Drop>(
    alloc: Global,
    first: A,
    second: B,
    third: C,
) -> Result<(Box<A>, Box<B>, Box<C>), NoMemory>
    ensures { IfOk result (λ boxes. (boxes.0.value ≡ first) × (boxes.1.value ≡ second) ×
        (boxes.2.value ≡ third)) }
{
    let (first, second) = box_two(alloc, first, second)?;
    let third = Box::new(alloc, third)?;
    Ok((first, second, third))
}

/// A value, if there is one, on the heap.
pub fn box_some<A: Drop>(alloc: Global, value: Option<A>) -> Result<Option<Box<A>>, NoMemory>
    ensures { IfOk result (λ boxed. unboxed boxed ≡ value) }
{
    match value {
        None => Ok(None),
        Some(value) => {
            let value = Box::new(alloc, value)?;
            Ok(Some(value))
        }
    }
}

/// Two values on the heap, and a third if there is one.
pub fn box_branches<A: Drop, B: Drop>(
    alloc: Global,
    test: A,
    then: B,
    otherwise: Option<B>,
) -> Result<(Box<A>, Box<B>, Option<Box<B>>), NoMemory>
    ensures { IfOk result (λ boxes. (boxes.0.value ≡ test) × (boxes.1.value ≡ then) ×
        (unboxed boxes.2 ≡ otherwise)) }
{
    let (test, then) = box_two(alloc, test, then)?;
    let otherwise = box_some(alloc, otherwise)?;
    Ok((test, then, otherwise))
}

/// What was made, with a value that stands beside it.
pub fn beside<A: Drop, B: Drop>(made: Result<A, NoMemory>, other: B) -> Result<(A, B), NoMemory>
    ensures { IfOk result (λ both. (made ≡ Ok both.0) × (both.1 ≡ other)) }
{
    let made = made?;
    Ok((made, other))
}

/// What was made, with two values that stand beside it.
pub fn beside_two<A: Drop, B: Drop, C: Drop>(
    made: Result<A, NoMemory>,
    other: B,
    third: C,
) -> Result<(A, B, C), NoMemory>
    ensures { IfOk result (λ all. (made ≡ Ok all.0) × (all.1 ≡ other) × (all.2 ≡ third)) }
{
    let made = made?;
    Ok((made, other, third))
}
