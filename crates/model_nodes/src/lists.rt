//! Lists of lists of ids.
ghost use Rattle.std.specs.Prelude.{◌≡◌, ◌≢◌, ◌<◌, ℕ, ◌++◌, ◌∷◌, [], length, IfOk, OnOk};
ghost use Rattle.store_build.specs.Lists.{list_in};

use cbl_base::{NoMemory, NodeId};
use std::alloc::Global;

/// So many empty lists.
pub(crate) fn empty_lists(alloc: Global, count: usize) -> Result<Vec<Vec<NodeId>>, NoMemory>
    ensures count { IfOk result (λ lists. length lists.items ≡ count) }
    ensures empty { IfOk result (λ lists. (k : ℕ) → list_in lists.items k ≡ []) }
{
    let mut lists = Vec::with_capacity(alloc, count)?;
    for _list in 0..count {
        lists.push(Vec::new(alloc))?;
    }
    Ok(lists)
}

/// An id behind the others of a list.
pub(crate) fn put(lists: &mut Vec<Vec<NodeId>>, at: usize, id: NodeId) -> Result<(), NoMemory>
    requires { at < length lists.old.items }
    ensures count { OnOk result (length lists.new.items ≡ length lists.old.items) }
    ensures here { OnOk result (list_in lists.new.items at ≡
        list_in lists.old.items at ++ id ∷ []) }
    ensures elsewhere { OnOk result ((i : ℕ) → i ≢ at →
        list_in lists.new.items i ≡ list_in lists.old.items i) }
{
    lists[at].push(id)?;
    Ok(())
}

/// A list of one id in place of another.
pub(crate) fn set_one(lists: &mut Vec<Vec<NodeId>>, at: usize, id: NodeId) -> Result<(), NoMemory>
    requires { at < length lists.old.items }
    ensures count { OnOk result (length lists.new.items ≡ length lists.old.items) }
    ensures here { OnOk result (list_in lists.new.items at ≡ id ∷ []) }
    ensures elsewhere { OnOk result ((i : ℕ) → i ≢ at →
        list_in lists.new.items i ≡ list_in lists.old.items i) }
{
    let list = &mut lists[at];
    list.clear();
    list.push(id)?;
    Ok(())
}
