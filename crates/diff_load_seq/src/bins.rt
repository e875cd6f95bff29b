//! Bins as levels, whose heights are their loads.
ghost use Rattle.std.specs.Prelude.{◌≡◌, ℕ, ◌<◌, length, OnOk, IfOk};
ghost use Rattle.diff_load_seq.specs.Levels.{level_at, IsRaisable, IsKept};
ghost use Rattle.diff_load_seq.specs.LevelsOver.{shown, IsKeptOver};
ghost use Rattle.diff_load_seq.specs.Bins.{place_of_bin, bin_raised, bins_of, item_moved, IsEmptied, AllFit, AreLow};

use crate::levels::{Level, Levels};
use crate::levels_over::LevelsOver;
use cbl_base::NoMemory;
use node_base::NumberChange;
use std::alloc::Global;

/// The place of a bin among so many, of which the first is `low`. `None` exactly where it isn't one.
pub(crate) fn place_of_bin(low: i64, bins: usize, bin: i64) -> Option<usize>
    ensures { result ≡ place_of_bin low bins bin }
{
    let index = i128::from(bin) - i128::from(low);
    if index < 0 || index >= bins as i128 {
        return None;
    }
    Some(index as usize)
}

/// Puts so much into a bin, if it is one.
fn raise_bin(bins: &mut Levels, low: i64, bin: i64, by: i128)
    requires kept { IsKept bins.old }
    requires room { (place : ℕ) → place < length bins.old.each.items →
        IsRaisable (level_at bins.old.each.items place) by }
    ensures each { bins.new.each.items ≡ bin_raised low bin by bins.old.each.items }
    ensures kept { IsKept bins.new }
{
    if let Some(place) = place_of_bin(low, bins.each.len(), bin) {
        bins.raise(place, by);
    }
}

/// Puts so much into a bin, if it is one, in what is shown over the bins.
fn raise_bin_over(
    over: &mut LevelsOver,
    bins: &Levels,
    low: i64,
    bin: i64,
    by: i128,
) -> Result<(), NoMemory>
    requires kept { IsKeptOver bins.now.each.items over.old }
    requires room { (place : ℕ) → place < length bins.now.each.items →
        IsRaisable (level_at (shown bins.now.each.items over.old) place) by }
    ensures shown { OnOk result (shown bins.now.each.items over.new ≡
        bin_raised low bin by (shown bins.now.each.items over.old)) }
    ensures kept { OnOk result (IsKeptOver bins.now.each.items over.new) }
{
    match place_of_bin(low, bins.each.len(), bin) {
        Some(place) => over.raise(bins, place, by),
        None => Ok(()),
    }
}

/// Moves an item of this size to another bin; either may be no bin.
pub(crate) fn move_item(bins: &mut Levels, low: i64, size: i64, change: NumberChange)
    requires kept { IsKept bins.old }
    requires room { AreLow bins.old.each.items }
    ensures each { bins.new.each.items ≡ item_moved low size change bins.old.each.items }
    ensures kept { IsKept bins.new }
{
    raise_bin(bins, low, change.old, -i128::from(size));
    raise_bin(bins, low, change.new, i128::from(size));
}

/// Moves an item of this size to another bin, in what is shown over the bins; either may be no bin.
pub(crate) fn move_item_over(
    over: &mut LevelsOver,
    bins: &Levels,
    low: i64,
    size: i64,
    change: NumberChange,
) -> Result<(), NoMemory>
    requires kept { IsKeptOver bins.now.each.items over.old }
    requires room { AreLow (shown bins.now.each.items over.old) }
    ensures shown { OnOk result (shown bins.now.each.items over.new ≡
        item_moved low size change (shown bins.now.each.items over.old)) }
    ensures kept { OnOk result (IsKeptOver bins.now.each.items over.new) }
{
    raise_bin_over(over, bins, low, change.old, -i128::from(size))?;
    raise_bin_over(over, bins, low, change.new, i128::from(size))
}

/// Bins that are empty, with these capacities.
fn empty_bins(alloc: Global, capacities: &[i64]) -> Result<Levels, NoMemory>
    ensures { IfOk result (λ bins. IsEmptied bins capacities.now) }
{
    let mut bins = Levels::new(alloc);
    for capacity in capacities {
        bins.push(Level {
            height: 0,
            limit: *capacity,
        })?;
    }
    Ok(bins)
}

/// The bins with these items in them.
pub(crate) fn filled_bins(
    alloc: Global,
    sizes: &[i64],
    low: i64,
    capacities: &[i64],
    numbers: &[i64],
) -> Result<Levels, NoMemory>
    requires { length numbers.now ≡ length sizes.now }
    ensures each { IfOk result (λ bins.
        bins.each.items ≡ bins_of sizes.now low capacities.now numbers.now) }
    ensures kept { IfOk result IsKept }
    ensures sizes { OnOk result (AllFit (length numbers.now) sizes.now) }
{
    let mut bins = empty_bins(alloc, capacities)?;
    for place in 0..numbers.len() {
        raise_bin(&mut bins, low, numbers[place], i128::from(sizes[place]));
    }
    Ok(bins)
}
