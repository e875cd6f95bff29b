//! Ordered counts of numbers, of which changes take some away.
ghost use Rattle.std.specs.Prelude.{◌≡◌, ℤ, List, map, IfOk, OnOk};
ghost use Rattle.std.specs.BTreeMap.{IsOrdered};
ghost use Rattle.std.specs.Ordering.{int_cmp};
ghost use Rattle.node_base.specs.KeptCounts.{times_kept};
ghost use Rattle.node_base.specs.declared.number_change.NumberChange.{NumberChange as Change};
ghost use Rattle.node_order.specs.Lowering.{old_number, times_old, first_left};

use cbl_base::NoMemory;
use node_base::{NumberChange, OrderedCounts};
use std::alloc::Global;

/// So many changes are looked through at each number; of more than these the old numbers are counted.
const FEW: usize = 8;

/// The first of the numbers of which the changes take fewer away than there are.
pub(crate) fn first_left(
    alloc: Global,
    counts: &OrderedCounts,
    changes: &[NumberChange],
) -> Result<Option<i64>, NoMemory>
    ensures first { IfOk result (λ found.
        found ≡ first_left changes.now counts.now.by_number.entries) }
    ensures ordered { OnOk result (IsOrdered int_cmp counts.now.by_number) }
{
    if changes.len() <= FEW {
        return Ok(first_left_by_few(counts, changes));
    }
    let old = old_numbers(alloc, changes)?;
    let taken = OrderedCounts::of(alloc, &old)?;
    Ok(first_left_by_many(counts, &taken))
}

/// The first of the numbers of which the changes, which are looked through, take fewer away than there are.
pub(crate) fn first_left_by_few(counts: &OrderedCounts, changes: &[NumberChange]) -> Option<i64>
    ensures first { result ≡ first_left changes.now counts.now.by_number.entries }
    ensures ordered { IsOrdered int_cmp counts.now.by_number }
{
    for (number, count) in counts.as_map().iter() {
        if times_old(*number, changes) < *count {
            return Some(*number);
        }
    }
    None
}

/// The first of the numbers of which changes that take so many away take fewer than there are.
fn first_left_by_many(counts: &OrderedCounts, taken: &OrderedCounts) -> Option<i64>
    ensures first { (changes : List Change) →
        ((v : ℤ) → times_kept taken.now v ≡ times_old v changes) →
        result ≡ first_left changes counts.now.by_number.entries }
    ensures ordered { IsOrdered int_cmp counts.now.by_number }
{
    for (number, count) in counts.as_map().iter() {
        if taken.times(*number) < *count {
            return Some(*number);
        }
    }
    None
}

/// How many changes take the number away.
fn times_old(number: i64, changes: &[NumberChange]) -> usize
    ensures { result ≡ times_old number changes.now }
{
    changes.iter().filter(|change| change.old == number).count()
}

/// The old numbers of the changes.
fn old_numbers(alloc: Global, changes: &[NumberChange]) -> Result<Vec<i64>, NoMemory>
    ensures { IfOk result (λ old. old.items ≡ map old_number changes.now) }
{
    let mut old = Vec::with_capacity(alloc, changes.len())?;
    for change in changes {
        old.push(change.old)?;
    }
    Ok(old)
}
