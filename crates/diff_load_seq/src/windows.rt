//! Windows as levels, whose heights are their counts of a set's values.
ghost use Rattle.std.specs.Prelude.{◌≡◌, ◌+◌, ◌≤◌, ◌<◌, ◌^◌, length, take, IfOk, OnOk};
ghost use Rattle.cbl_violations.specs.Violations.Sequence.{size_of, windows_in, count_in};
ghost use Rattle.diff_load_seq.specs.Levels.{IsKept};
ghost use Rattle.diff_load_seq.specs.LevelsOver.{shown, IsKeptOver};
ghost use Rattle.diff_load_seq.specs.Bins.{AreLow};
ghost use Rattle.diff_load_seq.specs.Windows.{windows_of, gain_of, first_holding, last_holding, number_moved};

use crate::levels::{Level, Levels};
use crate::levels_over::LevelsOver;
use cbl_base::{IntSet, NoMemory};
use node_base::NumberChange;
use std::alloc::Global;

/// How many places a window has.
pub(crate) fn size_of(window: i64) -> usize
    ensures { result ≡ size_of window }
{
    usize::try_from(window).unwrap_or(0)
}

/// The windows that hold a place: from the first up to before the last.
#[derive(Clone, Copy)]
pub(crate) struct Holding {
    pub(crate) first: usize,
    pub(crate) last: usize,
}

/// Which of so many windows hold a place.
pub(crate) fn windows_holding(size: usize, place: usize, windows: usize) -> Holding
    requires { place < 2 ^ 63 }
    ensures first { result.first ≡ first_holding size place }
    ensures last { result.last ≡ last_holding place windows }
{
    Holding {
        first: (place + 1).saturating_sub(size),
        last: (place + 1).min(windows),
    }
}

/// How many more values of the set stand at the place of a change after it.
fn gain_of(values: &IntSet, change: NumberChange) -> i128
    ensures { result ≡ gain_of values.now change }
{
    i128::from(values.contains(change.new)) - i128::from(values.contains(change.old))
}

/// Makes a change in the counts of the windows that hold its place.
pub(crate) fn move_number(windows: &mut Levels, values: &IntSet, size: usize, change: NumberChange)
    requires kept { IsKept windows.old }
    requires room { AreLow windows.old.each.items }
    requires place { change.place < 2 ^ 63 }
    requires within { first_holding size change.place ≤ length windows.old.each.items }
    ensures each { windows.new.each.items ≡
        number_moved values.now size change windows.old.each.items }
    ensures kept { IsKept windows.new }
{
    let gain = gain_of(values, change);
    if gain == 0 {
        return;
    }
    let holding = windows_holding(size, change.place, windows.each.len());
    windows.raise_between(holding.first, holding.last, gain);
}

/// Makes a change in the counts of the windows that hold its place, in what is shown over the windows.
pub(crate) fn move_number_over(
    over: &mut LevelsOver,
    windows: &Levels,
    values: &IntSet,
    size: usize,
    change: NumberChange,
) -> Result<(), NoMemory>
    requires kept { IsKeptOver windows.now.each.items over.old }
    requires room { AreLow (shown windows.now.each.items over.old) }
    requires place { change.place < 2 ^ 63 }
    requires within { first_holding size change.place ≤ length windows.now.each.items }
    ensures shown { OnOk result (shown windows.now.each.items over.new ≡
        number_moved values.now size change (shown windows.now.each.items over.old)) }
    ensures kept { OnOk result (IsKeptOver windows.now.each.items over.new) }
{
    let gain = gain_of(values, change);
    if gain == 0 {
        return Ok(());
    }
    let holding = windows_holding(size, change.place, windows.each.len());
    over.raise_between(windows, holding.first, holding.last, gain)
}

/// How many more values of the set stand before the next place than before this one.
fn more_at(numbers: &[i64], place: usize, values: &IntSet) -> usize
    ensures more { count_in values.now (take (place + 1) numbers.now) ≡
        count_in values.now (take place numbers.now) + result }
    ensures one { result ≤ 1 }
{
    match numbers.get(place) {
        Some(number) => usize::from(values.contains(*number)),
        None => 0,
    }
}

/// How many values of the set stand before a place.
fn count_before(numbers: &[i64], place: usize, values: &IntSet) -> usize
    requires { place ≤ length numbers.now }
    ensures { result ≡ count_in values.now (take place numbers.now) }
{
    let mut count = 0;
    for k in 0..place {
        count += more_at(numbers, k, values);
    }
    count
}

/// The windows of these numbers.
pub(crate) fn counted_windows(
    alloc: Global,
    numbers: &[i64],
    values: &IntSet,
    most: i64,
    size: usize,
) -> Result<Levels, NoMemory>
    ensures each { IfOk result (λ windows.
        windows.each.items ≡ windows_of values.now most size numbers.now) }
    ensures kept { IfOk result IsKept }
{
    let mut windows = Levels::new(alloc);
    if size > numbers.len() {
        return Ok(windows);
    }
    let mut begun = count_before(numbers, size, values);
    let mut ended = 0;
    for start in 0..numbers.len() + 1 - size {
        windows.push(Level {
            height: begun as i128 - ended as i128,
            limit: most,
        })?;
        begun += more_at(numbers, start + size, values);
        ended += more_at(numbers, start, values);
    }
    Ok(windows)
}
