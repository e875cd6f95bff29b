//! The ids of the members of systems and of objectives.
ghost use Rattle.std.specs.Prelude.{◌≡◌, is_some, length, IfOk, OnOk};
ghost use Rattle.graph_values.specs.Members.{cells_of};
ghost use Rattle.model_nodes.specs.PostedIds.{ArePostedIds};
ghost use Rattle.model_nodes.specs.Gathered.{IsPut, AreGathered};
ghost use Rattle.term_model.specs.Posting.{member_at, totals_by};

use crate::lists::{empty_lists, put};
use cbl_base::{NoMemory, NodeId};
use std::alloc::Global;
use term_model::{Model, Posted, Posting, Side, Total, posting_of, totals_by};

/// Whether what was posted is a member that is there.
fn has_member(totals: &[Total], posting: Posting) -> bool
    ensures { result ≡ is_some (member_at totals.now posting.total posting.member) }
{
    match totals.get(posting.total as usize) {
        Some(total) => (posting.member as usize) < total.members.len(),
        None => false,
    }
}

/// The id of what was posted, behind those of its system or objective, where it is on this side.
fn put_posted(
    model: &Model,
    side: Side,
    posted: Posted,
    id: NodeId,
    lists: &mut Vec<Vec<NodeId>>,
) -> Result<(), NoMemory>
    requires { length lists.old.items ≡ length (totals_by model.now side) }
    ensures count { OnOk result (length lists.new.items ≡ length lists.old.items) }
    ensures put { OnOk result (IsPut model.now side posted id lists.old.items lists.new.items) }
{
    let Some(posting) = posting_of(side, posted) else {
        return Ok(());
    };
    if has_member(totals_by(model, side), posting) {
        return put(lists, posting.total as usize, id);
    }
    Ok(())
}

/// For each system, or for each objective, the ids of its members, in order of posting.
pub(crate) fn member_ids(
    alloc: Global,
    model: &Model,
    side: Side,
    ids: &[NodeId],
) -> Result<Vec<Vec<NodeId>>, NoMemory>
    requires { ArePostedIds model.now (cells_of model.now) model.now.posted.items ids.now }
    ensures { IfOk result (λ lists. AreGathered model.now side lists.items) }
{
    let mut lists = empty_lists(alloc, totals_by(model, side).len())?;
    for turn in 0..model.posted.len() {
        put_posted(model, side, model.posted[turn], ids[turn], &mut lists)?;
    }
    Ok(lists)
}
