//! On which ids a target stands.
ghost use Rattle.std.specs.Prelude.{◌≡◌, ℕ, ◌<◌, ◌≤◌, ◌++◌, [], ◌∷◌, cond, false, length, map, replicate, take, IfOk, OnOk, All};
ghost use Rattle.store_turns.specs.Meaning.{ids_of, is_empty};
ghost use Rattle.store_turns.specs.Cones.{IsCone, has};
ghost use Rattle.store_build.specs.Lists.{list_in};
ghost use Rattle.store_build.specs.Marking.{Marks};
ghost use Rattle.store_build.specs.declared.cones.TheConstants.{MOST_CONES};
ghost use Rattle.store_build.specs.Unused.{unused_below};

use cbl_base::{NoMemory, NodeId};
use std::alloc::Global;
use store_turns::{Cone, has};

/// How many targets have cones at most.
pub const MOST_CONES: usize = 64;

/// Marks an id that has no mark yet, and puts it on the stack.
fn mark(members: &mut Vec<bool>, stack: &mut Vec<u32>, id: NodeId) -> Result<(), NoMemory>
    ensures { OnOk result (Marks (id.0 ∷ []) members.old.items stack.old.items
        members.new.items stack.new.items) }
{
    if has(members, id) {
        return Ok(());
    }
    stack.push(id.0)?;
    members[id.0 as usize] = true;
    Ok(())
}

/// Marks those of some ids that have no mark yet, and puts them on the stack.
fn mark_all(members: &mut Vec<bool>, stack: &mut Vec<u32>, ids: &[NodeId]) -> Result<(), NoMemory>
    ensures { OnOk result (Marks (ids_of ids.now) members.old.items stack.old.items
        members.new.items stack.new.items) }
{
    for id in ids {
        mark(members, stack, *id)?;
    }
    Ok(())
}

/// As many entries as there are ids, none with a mark.
fn unmark(members: &mut Vec<bool>, count: usize) -> Result<(), NoMemory>
    ensures { OnOk result (members.new.items ≡ replicate count false) }
{
    members.clear();
    while members.len() < count {
        members.push(false)?;
    }
    Ok(())
}

/// Marks the ids on which a target stands, and no others.
fn mark_below(
    members: &mut Vec<bool>,
    stack: &mut Vec<u32>,
    inputs: &[Vec<NodeId>],
    target: u32,
) -> Result<(), NoMemory>
    requires { target < length inputs.now }
    ensures { OnOk result (IsCone (λ id. ids_of (list_in inputs.now id)) (length inputs.now)
        (record { target = target; members = members.new })) }
{
    unmark(members, inputs.len())?;
    stack.clear();
    mark(members, stack, NodeId(target))?;
    while let Some(id) = stack.pop() {
        mark_all(members, stack, inputs[id as usize].as_slice())?;
    }
    shorten(members);
    Ok(())
}

/// Finds the ids on which a target stands, with these lists of inputs. What the cone and the stack hold
/// before doesn't matter, and once their lists have grown no memory is taken. Each id on which the target
/// stands is looked at once, with its inputs.
pub fn find_cone(
    cone: &mut Cone,
    stack: &mut Vec<u32>,
    inputs: &[Vec<NodeId>],
    target: u32,
) -> Result<(), NoMemory>
    requires { target < length inputs.now }
    ensures target { OnOk result (cone.new.target ≡ target) }
    ensures cone { OnOk result (IsCone (λ id. ids_of (list_in inputs.now id))
        (length inputs.now) cone.new) }
{
    cone.target = target;
    mark_below(&mut cone.members, stack, inputs, target)
}

/// The ids on which a target stands, with these lists of inputs.
pub fn cone_of(alloc: Global, inputs: &[Vec<NodeId>], target: u32) -> Result<Cone, NoMemory>
    requires { target < length inputs.now }
    ensures target { IfOk result (λ cone. cone.target ≡ target) }
    ensures cone { IfOk result (IsCone (λ id. ids_of (list_in inputs.now id)) (length inputs.now)) }
{
    let mut cone = Cone {
        target,
        members: Vec::new(alloc),
    };
    let mut stack = Vec::new(alloc);
    find_cone(&mut cone, &mut stack, inputs, target)?;
    Ok(cone)
}

/// Drops the entries at the end that say yes, since an id past the end is had anyway.
fn shorten(members: &mut Vec<bool>)
    ensures { (j : ℕ) → has members.new.items j ≡ has members.old.items j }
{
    let mut count = members.len();
    while count > 0 {
        if !members[count - 1] {
            break;
        }
        count -= 1;
    }
    members.truncate(count);
}

/// Whether nothing uses an id.
fn is_unused(uses: &[Vec<(NodeId, u32)>], id: u32) -> bool
    requires { id < length uses.now }
    ensures { result ≡ is_empty (list_in uses.now id) }
{
    uses[id as usize].as_slice().is_empty()
}

/// One cone more, where nothing uses the id.
fn add_cone(
    alloc: Global,
    inputs: &[Vec<NodeId>],
    uses: &[Vec<(NodeId, u32)>],
    id: u32,
    cones: &mut Vec<Cone>,
) -> Result<(), NoMemory>
    requires count { length uses.now ≡ length inputs.now }
    requires within { id < length inputs.now }
    requires cones { All (IsCone (λ j. ids_of (list_in inputs.now j)) (length inputs.now))
        cones.old.items }
    ensures cones { OnOk result (All (IsCone (λ j. ids_of (list_in inputs.now j))
        (length inputs.now)) cones.new.items) }
    ensures targets { OnOk result (map (λ c. c.target) cones.new.items ≡
        map (λ c. c.target) cones.old.items ++ cond (is_empty (list_in uses.now id)) (id ∷ []) []) }
{
    if !is_unused(uses, id) {
        return Ok(());
    }
    let cone = cone_of(alloc, inputs, id)?;
    cones.push(cone)?;
    Ok(())
}

/// The cones of the targets that nothing uses, and where these are more than `MOST_CONES` of those with
/// the greatest ids.
pub(crate) fn cones_of(
    alloc: Global,
    inputs: &[Vec<NodeId>],
    uses: &[Vec<(NodeId, u32)>],
) -> Result<Vec<Cone>, NoMemory>
    requires count { length uses.now ≡ length inputs.now }
    requires few { length inputs.now < 4294967296 }
    ensures cones { IfOk result (λ cones. All (IsCone (λ id. ids_of (list_in inputs.now id))
        (length inputs.now)) cones.items) }
    ensures targets { IfOk result (λ cones. map (λ c. c.target) cones.items ≡
        take MOST_CONES (unused_below (λ id. list_in uses.now id) (length inputs.now))) }
{
    let mut cones = Vec::new(alloc);
    let mut id = inputs.len() as u32;
    while id > 0 {
        if cones.len() == MOST_CONES {
            return Ok(cones);
        }
        id -= 1;
        add_cone(alloc, inputs, uses, id, &mut cones)?;
    }
    Ok(cones)
}
