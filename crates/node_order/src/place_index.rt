//! Which number stands at which place of a list, as pairs of a number and a place, in order.
ghost use Rattle.std.specs.Prelude.{◌≡◌, ℕ, ℤ, List, ◌-◌, ◌^◌, map, IfOk, OnOk};
ghost use Rattle.std.specs.BTreeSet.{keys_between, IsFromIterResult};
ghost use Rattle.std.specs.Ordering.{nat_cmp};
ghost use Rattle.std.specs.declared.ops.Bound.TheVariants.{Included, Excluded};
ghost use Rattle.node_base.specs.NumberChanges.{IsNumberChange, AreNumberChanges, after_number_change, after_number_changes};
ghost use Rattle.node_order.specs.PlaceIndex.{pair_cmp, IsIndexOf, ArePlacesOf};

use cbl_base::NoMemory;
use node_base::NumberChange;
use std::alloc::Global;
use std::collections::BTreeSet;

/// The pairs of this list.
pub(crate) fn index_of(alloc: Global, numbers: &[i64]) -> Result<BTreeSet<(i64, usize)>, NoMemory>
    ensures { IfOk result (λ index. IsIndexOf index numbers.now) }
{
    let mut index = BTreeSet::new(alloc);
    for (place, number) in numbers.iter().enumerate() {
        index.insert((*number, place))?;
    }
    Ok(index)
}

/// Makes the pairs of a list those of the list after a change.
pub(crate) fn move_place(
    index: &mut BTreeSet<(i64, usize)>,
    change: NumberChange,
) -> Result<(), NoMemory>
    ensures { OnOk result ((xs : List ℤ) → IsIndexOf index.old xs → IsNumberChange xs change →
        IsIndexOf index.new (after_number_change xs change)) }
{
    index.remove(&(change.old, change.place));
    index.insert((change.new, change.place))?;
    Ok(())
}

/// The places of the pairs with this number.
pub(crate) fn places_of(
    alloc: Global,
    index: &BTreeSet<(i64, usize)>,
    number: i64,
) -> Result<BTreeSet<usize>, NoMemory>
    ensures { IfOk result (IsFromIterResult nat_cmp
        (map (λ pair. pair.1) (keys_between pair_cmp (Included (number, 0))
        (Excluded (number, 2 ^ 64 - 1)) index.now))) }
{
    let pairs = index.range((number, 0)..(number, usize::MAX));
    Ok(pairs.map(|pair| pair.1).collect(alloc)?)
}

/// Makes the places of a number in a list those in the list after changes.
pub(crate) fn move_places(
    places: &mut BTreeSet<usize>,
    number: i64,
    changes: &[NumberChange],
) -> Result<(), NoMemory>
    ensures { OnOk result ((xs : List ℤ) → ArePlacesOf number xs places.old →
        AreNumberChanges xs changes.now →
        ArePlacesOf number (after_number_changes xs changes.now) places.new) }
{
    for change in changes {
        if change.new == number {
            places.insert(change.place)?;
        } else {
            places.remove(&change.place);
        }
    }
    Ok(())
}
