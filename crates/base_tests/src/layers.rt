//! The layers of items, and the cycle that is named.
ghost use Rattle.std.specs.Prelude.{◌≡◌, ℕ, ◌<◌, ◌^◌, length, slice_index};
ghost use Rattle.std.specs.Bool.{OnTrue};
ghost use Rattle.layer_plan.specs.Dependencies.{list_of, AreItems};

use layer_plan::plan;
use std::alloc::Global;
use std::test::*;

// Whether each number is below the count.
fn all_below(list: &[u32], count: usize) -> bool
    ensures { OnTrue result ((k : ℕ) → k < length list.now → slice_index list.now k < count) }
{
    for number in list {
        if *number as usize >= count {
            return false;
        }
    }
    true
}

// An item's list.
fn list_of(deps: &[Vec<u32>], item: u32) -> &[u32]
    requires { item < length deps.now }
    ensures { result.now ≡ list_of deps.now item }
{
    deps[item as usize].as_slice()
}

// Whether each entry is an item.
fn are_items(deps: &[Vec<u32>]) -> bool
    requires { length deps.now < 2 ^ 32 }
    ensures { OnTrue result (AreItems deps.now) }
{
    for item in 0..deps.len() as u32 {
        if !all_below(list_of(deps, item), deps.len()) {
            return false;
        }
    }
    true
}

// What `plan` answers for these lists, as text.
fn planned(alloc: Global, lists: &[&[u32]]) -> Result<String, Fail> {
    let mut deps = Vec::new(alloc);
    for list in lists {
        deps.push(list.to_vec(alloc)?)?;
    }
    if deps.len() > 1000 || !are_items(&deps) {
        return Ok(format!(in alloc; "no items")?);
    }
    match plan(alloc, &deps) {
        Ok(layers) => Ok(format!(in alloc; "{layers:?}")?),
        Err(stop) => Ok(format!(in alloc; "{stop:?}")?),
    }
}

/// The list of each item, and what `plan` answers.
static PLANS: [(&[&[u32]], &str); 10] = [
    (&[], "Layers { layers: [] }"),
    // Item 2 stands on two items, one of which stands on the other.
    (&[&[1], &[], &[0, 1]], "Layers { layers: [1, 0, 2] }"),
    // Used before their declaration, and no cycle.
    (&[&[1], &[2], &[3], &[]], "Layers { layers: [3, 2, 1, 0] }"),
    (&[&[1], &[0], &[]], "Cycle([0, 1])"),
    // An item on itself.
    (&[&[], &[0, 1]], "Cycle([1])"),
    // As `y <- z+1; z <- y` and x beside them.
    (&[&[], &[2], &[1]], "Cycle([1, 2])"),
    // The longer of two cycles goes through the least item.
    (&[&[2], &[3], &[4], &[1], &[0]], "Cycle([0, 2, 4])"),
    // The least item lies on no cycle, and only leads to one.
    (&[&[3], &[3], &[0], &[1]], "Cycle([1, 3])"),
    // Of equally short ones the first in the order of lists.
    (&[&[3, 2], &[], &[4], &[4], &[0]], "Cycle([0, 2, 4])"),
    // A shorter one through the same item.
    (&[&[1, 3], &[2], &[0], &[0]], "Cycle([0, 3])"),
];

#[test]
fn layers_and_cycles(rt: HostRuntime) -> Result<(), Fail> {
    for (lists, want) in &PLANS {
        assert_eq!(rt; planned(rt.alloc(), lists)?.as_str(), *want);
    }
    Ok(())
}
