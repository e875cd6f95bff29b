//! Systems and objectives: their ids, and what is put behind the others.
ghost use Rattle.std.specs.Prelude.{◌≡◌, ◌<◌, [], ◌∷◌, ◌++◌, Some, length, slice_get, vec_capacity, vec_len, IfOk, OnOk, OnErr};
ghost use Rattle.std.specs.Option.{option_map};
ghost use Rattle.solver_models.specs.Adding.{GetsMember, Grows};
ghost use Rattle.solver_models.specs.State.{IsSameModel};
ghost use Rattle.solver_models.specs.Totals.{GetsTotal, IsPushed, of_objective, of_system, whole_of};
ghost use Rattle.term_model.specs.Posting.{totals_by};
ghost use Rattle.term_model.specs.declared.posting.Side.TheVariants.{Systems, Objectives};

use cbl_base::{NoMemory, Place};
use model_values::Whole;
use std::alloc::Global;
use term_model::{Member, Model, Posted, Side, Total};

/// A system: the number of its solver, and its index there, both from 0.
#[derive(Clone, Copy, PartialEq, Eq, Debug)]
pub struct SystemId {
    pub solver: u32,
    pub index: u32,
}

/// An objective: the number of its solver, and its index there, both from 0.
#[derive(Clone, Copy, PartialEq, Eq, Debug)]
pub struct ObjectiveId {
    pub solver: u32,
    pub index: u32,
}

/// A system or an objective: the number of its solver, and its index there on its side, both from 0.
#[derive(Clone, Copy)]
pub struct TotalId {
    pub side: Side,
    pub solver: u32,
    pub index: u32,
}

impl TotalId {
    /// A system.
    pub fn of_system(s: SystemId) -> TotalId
        ensures { result ≡ of_system s }
    {
        TotalId {
            side: Side::Systems,
            solver: s.solver,
            index: s.index,
        }
    }

    /// An objective.
    pub fn of_objective(f: ObjectiveId) -> TotalId
        ensures { result ≡ of_objective f }
    {
        TotalId {
            side: Side::Objectives,
            solver: f.solver,
            index: f.index,
        }
    }
}

/// The same as the values of a model name it.
pub fn whole_of(k: TotalId) -> Whole
    ensures { result ≡ whole_of k }
{
    match k.side {
        Side::Systems => Whole::System(k.index as usize),
        Side::Objectives => Whole::Objective(k.index as usize),
    }
}

/// Puts one without members behind the others, and tells its place there.
fn push_blank(alloc: Global, totals: &mut Vec<Total>, place: Place) -> Result<u32, NoMemory>
    ensures index { IfOk result (λ index. index ≡ length totals.old.items) }
    ensures ok { OnOk result (IsPushed totals.old.items totals.new.items place) }
    ensures err { OnErr result (totals.new.items ≡ totals.old.items) }
{
    let index = totals.len();
    if index > u32::MAX as usize {
        return Err(NoMemory);
    }
    totals.push(Total {
        place,
        members: Vec::new(alloc),
    })?;
    Ok(index as u32)
}

/// Puts a system or an objective without members behind the others, and tells its place there. With `NoMemory` all is as
/// before.
pub fn push_total(
    alloc: Global,
    model: &mut Model,
    side: Side,
    place: Place,
) -> Result<u32, NoMemory>
    ensures index { IfOk result (λ index. index ≡ length (totals_by model.old side)) }
    ensures ok { OnOk result (GetsTotal model.old model.new side place) }
    ensures err { OnErr result (IsSameModel model.old model.new) }
{
    match side {
        Side::Systems => push_blank(alloc, &mut model.systems, place),
        Side::Objectives => push_blank(alloc, &mut model.objectives, place),
    }
}

/// An empty list of members, with room for more than so many.
fn room_beyond(alloc: Global, count: usize) -> Result<Vec<Member>, NoMemory>
    ensures blank { IfOk result (λ v. v.items ≡ []) }
    ensures count { IfOk result (λ v. vec_len v ≡ 0) }
    ensures room { IfOk result (λ v. count < vec_capacity v) }
{
    let larger = Vec::with_capacity(alloc, count.saturating_mul(2).saturating_add(4))?;
    if larger.capacity() <= count {
        return Err(NoMemory);
    }
    Ok(larger)
}

/// Moves the members into a list with room for one more, and puts it behind them.
fn move_into(total: &mut Total, mut larger: Vec<Member>, member: Member)
    requires blank { larger.items ≡ [] }
    requires count { vec_len larger ≡ 0 }
    requires room { vec_len total.old.members < vec_capacity larger }
    ensures place { total.new.place ≡ total.old.place }
    ensures members { total.new.members.items ≡ total.old.members.items ++ member ∷ [] }
{
    let _moved = larger.append(&mut total.members);
    larger.push_reserved(member);
    total.members = larger;
}

/// Puts a member behind the others. With `NoMemory` nothing at all changes, nor where the others lie.
fn grow(alloc: Global, total: &mut Total, member: Member) -> Result<(), NoMemory>
    ensures place { OnOk result (total.new.place ≡ total.old.place) }
    ensures members { OnOk result (total.new.members.items ≡
        total.old.members.items ++ member ∷ []) }
    ensures err { OnErr result (total.new ≡ total.old) }
{
    if total.members.len() < total.members.capacity() {
        total.members.push_reserved(member);
        return Ok(());
    }
    let larger = room_beyond(alloc, total.members.len())?;
    move_into(total, larger, member);
    Ok(())
}

/// The same of the one at a place.
fn grow_at(alloc: Global, totals: &mut Vec<Total>, k: u32, member: Member) -> Result<(), NoMemory>
    requires { k < length totals.old.items }
    ensures ok { OnOk result (Grows totals.old.items totals.new.items k member) }
    ensures err { OnErr result (totals.new.items ≡ totals.old.items) }
{
    grow(alloc, &mut totals[k as usize], member)
}

/// How many members the one at a place has, as a number of a member.
fn next_member(totals: &[Total], k: u32) -> Result<u32, NoMemory>
    requires { k < length totals.now }
    ensures { IfOk result (λ n. option_map (λ total.
        length total.members.items) (slice_get totals.now k) ≡ Some n) }
{
    let count = totals[k as usize].members.len();
    if count > u32::MAX as usize {
        return Err(NoMemory);
    }
    Ok(count as u32)
}

/// Puts a constraint behind the others of its system, and posts it last.
fn push_constraint(alloc: Global, model: &mut Model, k: u32, member: Member) -> Result<(), NoMemory>
    requires { k < length model.old.systems.items }
    ensures ok { OnOk result (GetsMember model.old model.new Systems k member) }
    ensures err { OnErr result (IsSameModel model.old model.new) }
{
    let number = next_member(&model.systems, k)?;
    model.posted.push(Posted::Constrain {
        system: k,
        member: number,
    })?;
    if grow_at(alloc, &mut model.systems, k, member).is_err() {
        let _posted = model.posted.pop();
        return Err(NoMemory);
    }
    Ok(())
}

/// Puts a term behind the others of its objective, and posts it last.
fn push_part(alloc: Global, model: &mut Model, k: u32, member: Member) -> Result<(), NoMemory>
    requires { k < length model.old.objectives.items }
    ensures ok { OnOk result (GetsMember model.old model.new Objectives k member) }
    ensures err { OnErr result (IsSameModel model.old model.new) }
{
    let number = next_member(&model.objectives, k)?;
    model.posted.push(Posted::Part {
        objective: k,
        member: number,
    })?;
    if grow_at(alloc, &mut model.objectives, k, member).is_err() {
        let _posted = model.posted.pop();
        return Err(NoMemory);
    }
    Ok(())
}

/// Puts a member behind the others of its system or objective, and posts it last. With `NoMemory` all is as before.
pub fn push_member(
    alloc: Global,
    model: &mut Model,
    side: Side,
    k: u32,
    member: Member,
) -> Result<(), NoMemory>
    requires { k < length (totals_by model.old side) }
    ensures ok { OnOk result (GetsMember model.old model.new side k member) }
    ensures err { OnErr result (IsSameModel model.old model.new) }
{
    match side {
        Side::Systems => push_constraint(alloc, model, k, member),
        Side::Objectives => push_part(alloc, model, k, member),
    }
}
