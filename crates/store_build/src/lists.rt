//! Lists of lists.
ghost use Rattle.std.specs.Prelude.{◌≡◌, ◌≢◌, ℕ, ◌+◌, ◌-◌, ◌<◌, length, ◌++◌, [], ◌∷◌, None, slice_index_or, IfOk, OnOk};
ghost use Rattle.store_build.specs.Lists.{list_in};

use cbl_base::NoMemory;
use std::alloc::Global;

/// Empty lists behind the others, until there are so many.
pub(crate) fn grow<T: Drop>(
    alloc: Global,
    lists: &mut Vec<Vec<T>>,
    count: usize,
) -> Result<(), NoMemory>
    ensures count { OnOk result (length lists.new.items ≡
        length lists.old.items + (count - length lists.old.items)) }
    ensures same { OnOk result ((i : ℕ) → list_in lists.new.items i ≡ list_in lists.old.items i) }
{
    let missing = count.saturating_sub(lists.len());
    for _list in 0..missing {
        lists.push(Vec::new(alloc))?;
    }
    Ok(())
}

/// An item behind the others of a list.
pub(crate) fn put<T: Drop>(lists: &mut Vec<Vec<T>>, at: usize, item: T) -> Result<(), NoMemory>
    requires { at < length lists.old.items }
    ensures count { OnOk result (length lists.new.items ≡ length lists.old.items) }
    ensures here { OnOk result (list_in lists.new.items at ≡
        list_in lists.old.items at ++ item ∷ []) }
    ensures elsewhere { OnOk result ((i : ℕ) → i ≢ at →
        list_in lists.new.items i ≡ list_in lists.old.items i) }
{
    lists[at].push(item)?;
    Ok(())
}

/// So many places with nothing in them.
pub(crate) fn nothing<T: Drop>(alloc: Global, count: usize) -> Result<Vec<Option<T>>, NoMemory>
    ensures count { IfOk result (λ places. length places.items ≡ count) }
    ensures nothing { IfOk result (λ places. (i : ℕ) → slice_index_or places.items i None ≡ None) }
{
    let mut places = Vec::with_capacity(alloc, count)?;
    for _place in 0..count {
        places.push(None)?;
    }
    Ok(places)
}
