//! Lists of numbers as the inputs of a node, and as changes of them.
ghost use Rattle.std.specs.Prelude.{◌≡◌, ◌<◌, ◌^◌, length, IfOk};
ghost use Rattle.std.specs.Ordering.{int_eq};
ghost use Rattle.cbl_base.specs.Inputs.{as_inputs};
ghost use Rattle.cbl_base.specs.Changes.{AreChanges, after_changes};

use cbl_base::{Change, Input, NoMemory};
use std::alloc::Global;

/// The numbers as inputs. `NoMemory` where there is none for them.
pub fn inputs_of(alloc: Global, numbers: &[i64]) -> Result<Vec<Input>, NoMemory>
    ensures { IfOk result (λ inputs. inputs.items ≡ as_inputs numbers.now) }
{
    let mut inputs = Vec::with_capacity(alloc, numbers.len())?;
    for number in numbers {
        inputs.push(Input::Int(*number))?;
    }
    Ok(inputs)
}

/// The changes that make the numbers `from` into as many numbers `to`: one at each place where they
/// differ. `NoMemory` where there is none for them.
pub fn changes_between(alloc: Global, from: &[i64], to: &[i64]) -> Result<Vec<Change>, NoMemory>
    requires lengths { length to.now ≡ length from.now }
    requires places { length from.now < 2 ^ 32 }
    ensures changes { IfOk result (λ changes. AreChanges (as_inputs from.now) changes.items) }
    ensures after { IfOk result (λ changes. after_changes (as_inputs from.now) changes.items ≡
        as_inputs to.now) }
{
    let mut changes = Vec::new(alloc);
    for (place, old) in from.iter().enumerate() {
        if !are_equal(to[place], *old) {
            changes.push(Change::Int {
                place: place as u32,
                old: *old,
                new: to[place],
            })?;
        }
    }
    Ok(changes)
}

fn are_equal(a: i64, b: i64) -> bool
    ensures { result ≡ int_eq a b }
{
    a == b
}
