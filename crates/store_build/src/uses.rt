//! Who uses an id.
ghost use Rattle.std.specs.Prelude.{◌≡◌, ℕ, ◌<◌, ◌≤◌, length, ◌++◌, IfOk, OnOk, All};
ghost use Rattle.store_turns.specs.Meaning.{ids_of};
ghost use Rattle.store_turns.specs.Telling.{positions, places_in};
ghost use Rattle.store_build.specs.Lists.{list_in};
ghost use Rattle.store_build.specs.Uses.{uses_by};

use crate::lists::{grow, put};
use cbl_base::{NoMemory, NodeId};
use std::alloc::Global;

/// An id uses each of these, once for each place.
fn add_uses(
    uses: &mut Vec<Vec<(NodeId, u32)>>,
    user: NodeId,
    inputs: &[NodeId],
) -> Result<(), NoMemory>
    requires within { All (λ i. i.0 < length uses.old.items) inputs.now }
    requires few { length inputs.now ≤ 4294967296 }
    ensures count { OnOk result (length uses.new.items ≡ length uses.old.items) }
    ensures more { OnOk result ((i : ℕ) →
        list_in uses.new.items i ≡ list_in uses.old.items i ++ uses_by user
        (positions i (ids_of inputs.now))) }
{
    for (place, id) in inputs.iter().enumerate() {
        put(uses, id.0 as usize, (user, place as u32))?;
    }
    Ok(())
}

/// The ids that use each id, each with the place, and once for each place.
pub(crate) fn uses_of(
    alloc: Global,
    inputs: &[Vec<NodeId>],
) -> Result<Vec<Vec<(NodeId, u32)>>, NoMemory>
    requires few { length inputs.now < 4294967296 }
    requires within { (j : ℕ) → All (λ i. i.0 < length inputs.now) (list_in inputs.now j) }
    requires short { (j : ℕ) → length (list_in inputs.now j) ≤ 4294967296 }
    ensures count { IfOk result (λ uses. length uses.items ≡ length inputs.now) }
    ensures users { IfOk result (λ uses. (i : ℕ) →
        All (λ u. u.0.0 < length inputs.now) (list_in uses.items i)) }
    ensures uses { IfOk result (λ uses. (i j : ℕ) →
        places_in j (list_in uses.items i) ≡ positions i (ids_of (list_in inputs.now j))) }
{
    let mut uses = Vec::new(alloc);
    grow(alloc, &mut uses, inputs.len())?;
    for (user, list) in inputs.iter().enumerate() {
        add_uses(&mut uses, NodeId(user as u32), list.as_slice())?;
    }
    Ok(uses)
}
