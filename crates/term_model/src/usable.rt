//! Whether a model that was built is one that has values: well formed, acyclic, and with a definition for
//! each variable that is a set.
ghost use Rattle.std.specs.Prelude.{◌≡◌, ◌<◌, ◌++◌, [], ◌∷◌, ℕ, IfOk, Option, Some, List, filter_map, length, map, slice_get, slice_set};
ghost use Rattle.std.specs.Bool.{OnTrue};
ghost use Rattle.std.specs.List.{All, list_all, range_with_len};
ghost use Rattle.std.specs.Option.{ForSome};
ghost use Rattle.term_model.specs.Checks.{AreCounts, IsAllCounted, IsCounted, IsNumberOrDefined, IsOwned, IsRanked, IsTotal, is_below, owner_at, rank_at};
ghost use Rattle.term_model.specs.Definitions.{IsAcyclic, IsTableOf, definition_of, named_by};
ghost use Rattle.term_model.specs.Kinds.{kinds_in};
ghost use Rattle.term_model.specs.Posting.{number_by, totals_by};
ghost use Rattle.term_model.specs.Wellformed.{IsDefinition, IsMember, IsThere, IsWellFormed, HasDefinedSets};
ghost use Rattle.term_model.specs.declared.model.Definition.{Definition};
ghost use Rattle.term_model.specs.declared.model.Posted.{Posted};
ghost use Rattle.term_model.specs.declared.model.Total.{Total};
ghost use Rattle.term_model.specs.declared.posting.Side.TheVariants.{Systems, Objectives};

use crate::definitions::{definitions_of, dependencies_of};
use crate::kinds::{kind_at, kind_within};
use crate::model::{Definition, Member, Model, Posted, Total, VarDecl, VarKind};
use crate::naming::{are_defined_once, are_users_once};
use crate::order::order_of;
use crate::posting::{Posting, Side, posting_of, totals_by};
use cbl_base::NoMemory;
use cbl_base::limits::MAX_TERM_DEPTH;
use std::alloc::Global;

/// Whether two kinds are the same.
fn are_same(left: VarKind, right: VarKind) -> bool
    ensures { OnTrue result (left ≡ right) }
{
    match (left, right) {
        (VarKind::Number, VarKind::Number) => true,
        (VarKind::Set, VarKind::Set) => true,
        _ => false,
    }
}

/// Whether a definition's term is of the variable's kind and no deeper than the limit.
#[tactic(auto, using(crate::proofs::UsableLaws::definition_from))]
fn is_definition(alloc: Global, model: &Model, definition: &Definition) -> Result<bool, NoMemory>
    ensures { IfOk result (λ is. OnTrue is (IsDefinition model.now definition.now)) }
{
    let Some(wanted) = kind_at(&model.vars, definition.var.index) else {
        return Ok(false);
    };
    match kind_within(
        alloc,
        &model.vars,
        MAX_TERM_DEPTH as usize,
        &definition.term,
    )? {
        Some(kind) => Ok(are_same(kind, wanted)),
        None => Ok(false),
    }
}

/// Whether all definitions' terms are.
fn are_definitions(alloc: Global, model: &Model) -> Result<bool, NoMemory>
    ensures { IfOk result (λ is. OnTrue is (All (IsDefinition model.now) model.now.defs.items)) }
{
    for definition in &model.defs {
        if !is_definition(alloc, model, definition)? {
            return Ok(false);
        }
    }
    Ok(true)
}

/// Whether a member is a number and its term no deeper than the limit.
#[tactic(auto, using(crate::proofs::UsableLaws::member_from))]
fn is_member(alloc: Global, model: &Model, member: &Member) -> Result<bool, NoMemory>
    ensures { IfOk result (λ is. OnTrue is (IsMember model.now member.now)) }
{
    match kind_within(alloc, &model.vars, MAX_TERM_DEPTH as usize, &member.term)? {
        Some(VarKind::Number) => Ok(true),
        _ => Ok(false),
    }
}

/// Whether all members of a system or an objective are.
fn is_total(alloc: Global, model: &Model, total: &Total) -> Result<bool, NoMemory>
    ensures { IfOk result (λ is. OnTrue is (IsTotal model.now total.now)) }
{
    for member in &total.members {
        if !is_member(alloc, model, member)? {
            return Ok(false);
        }
    }
    Ok(true)
}

/// Whether all members of these systems or objectives are.
fn are_totals(alloc: Global, model: &Model, totals: &[Total]) -> Result<bool, NoMemory>
    ensures { IfOk result (λ is. OnTrue is (All (IsTotal model.now) totals.now)) }
{
    for total in totals {
        if !is_total(alloc, model, total)? {
            return Ok(false);
        }
    }
    Ok(true)
}

/// Counts a member, unless it isn't the next one of its system or objective.
fn count(counts: &mut Vec<usize>, posting: Posting) -> bool
    ensures length { length counts.new.items ≡ length counts.old.items }
    ensures counted { OnTrue result (IsCounted counts.old.items counts.new.items posting) }
{
    let place = posting.total as usize;
    if place >= counts.len() {
        return false;
    }
    if counts[place] != posting.member as usize {
        return false;
    }
    counts[place] = posting.member as usize + 1;
    true
}

/// Counts what was posted, where it is a member on this side.
#[tactic(auto, using(crate::proofs::UsableLaws::counts_more, crate::proofs::UsableLaws::counts_same, crate::proofs::UsableLaws::counted_there, crate::proofs::UsableLaws::none_there))]
fn count_posted(counts: &mut Vec<usize>, side: Side, posted: Posted) -> bool
    ensures length { length counts.new.items ≡ length counts.old.items }
    ensures counted { OnTrue result ((so_far : List Posted) →
        AreCounts side so_far counts.old.items →
        AreCounts side (so_far ++ posted ∷ []) counts.new.items) }
    ensures there { OnTrue result (IsThere side (length counts.old.items) posted) }
{
    match posting_of(side, posted) {
        Some(posting) => count(counts, posting),
        None => true,
    }
}

/// Whether a count is that of the members there.
fn is_all_counted(counts: &[usize], totals: &[Total], place: usize) -> bool
    ensures { OnTrue result (IsAllCounted counts.now totals.now place) }
{
    match (counts.get(place), totals.get(place)) {
        (Some(count), Some(total)) => *count == total.members.len(),
        _ => false,
    }
}

/// Whether each count is that of the members there.
#[tactic(auto, using(crate::proofs::UsableLaws::below_more, crate::proofs::UsableLaws::all_counted))]
fn are_all_counted(counts: &[usize], totals: &[Total]) -> bool
    ensures { OnTrue result ((k : ℕ) → IsAllCounted counts.now totals.now k) }
{
    for place in 0..totals.len() {
        if !is_all_counted(counts, totals, place) {
            return false;
        }
    }
    true
}

/// Whether the members on a side were posted, those of each system or objective once and in order, and no others.
#[tactic(auto, using(crate::proofs::UsableLaws::counts_none, crate::proofs::UsableLaws::counted_all))]
fn are_posted_in_order(alloc: Global, model: &Model, side: Side) -> Result<bool, NoMemory>
    ensures posted { IfOk result (λ is. OnTrue is ((k : ℕ) (total : Total) →
        slice_get (totals_by model.now side) k ≡ Some total →
        filter_map (number_by side k) model.now.posted.items ≡
        range_with_len 0 (length total.members.items))) }
    ensures there { IfOk result (λ is.
        OnTrue is (All (IsThere side (length (totals_by model.now side))) model.now.posted.items)) }
{
    let totals = totals_by(model, side);
    let mut counts = vec![in alloc; 0; totals.len()]?;
    for turn in 0..model.posted.len() {
        if !count_posted(&mut counts, side, model.posted[turn]) {
            return Ok(false);
        }
    }
    Ok(are_all_counted(&counts, totals))
}

/// The number of the definition at a variable's place in the table.
fn owner_at(table: &[Option<u32>], index: u32) -> Option<usize>
    ensures { result ≡ owner_at table.now index }
{
    match table.get(index as usize) {
        Some(Some(number)) => Some(*number as usize),
        _ => None,
    }
}

/// Whether the table has a definition at its own variable's place.
fn is_owned(table: &[Option<u32>], defs: &[Definition], place: usize) -> bool
    ensures { OnTrue result (IsOwned table.now defs.now place) }
{
    match defs.get(place) {
        Some(definition) => match owner_at(table, definition.var.index) {
            Some(owner) => owner == place,
            None => false,
        },
        None => true,
    }
}

/// Whether the table has each definition at its own variable's place.
#[tactic(auto, using(crate::proofs::UsableLaws::below_more, crate::proofs::UsableLaws::all_owned))]
fn are_owned(table: &[Option<u32>], defs: &[Definition]) -> bool
    ensures { OnTrue result ((d : ℕ) → IsOwned table.now defs.now d) }
{
    for place in 0..defs.len() {
        if !is_owned(table, defs, place) {
            return false;
        }
    }
    true
}

/// Whether a model with this table of its definitions is well formed.
#[tactic(auto, using(crate::proofs::UsableLaws::well_formed_from))]
fn is_well_formed(alloc: Global, model: &Model, table: &[Option<u32>]) -> Result<bool, NoMemory>
    ensures { IfOk result (λ is. OnTrue is (IsWellFormed model.now)) }
{
    if !are_definitions(alloc, model)? {
        return Ok(false);
    }
    if !are_owned(table, &model.defs) {
        return Ok(false);
    }
    if !are_totals(alloc, model, &model.systems)? {
        return Ok(false);
    }
    if !are_totals(alloc, model, &model.objectives)? {
        return Ok(false);
    }
    if !are_defined_once(alloc, model)? {
        return Ok(false);
    }
    if !are_posted_in_order(alloc, model, Side::Systems)? {
        return Ok(false);
    }
    if !are_posted_in_order(alloc, model, Side::Objectives)? {
        return Ok(false);
    }
    if !are_users_once(alloc, model)? {
        return Ok(false);
    }
    Ok(true)
}

/// Whether a variable is a number if the table has no definition of it.
fn is_number_or_defined(table: &[Option<u32>], vars: &[VarDecl], place: usize) -> bool
    ensures { OnTrue result (IsNumberOrDefined table.now vars.now place) }
{
    match (table.get(place), vars.get(place)) {
        (Some(None), Some(decl)) => match decl.kind {
            VarKind::Number => true,
            VarKind::Set => false,
        },
        (Some(None), None) => false,
        _ => true,
    }
}

/// Whether each variable is a number if the table has no definition of it.
#[tactic(auto, using(crate::proofs::UsableLaws::below_more, crate::proofs::UsableLaws::all_defined))]
fn are_numbers_or_defined(table: &[Option<u32>], vars: &[VarDecl]) -> bool
    ensures { OnTrue result ((i : ℕ) → IsNumberOrDefined table.now vars.now i) }
{
    for place in 0..table.len() {
        if !is_number_or_defined(table, vars, place) {
            return false;
        }
    }
    true
}

/// Whether each variable without a definition is a number.
#[tactic(auto, using(crate::proofs::UsableLaws::sets_from))]
fn has_defined_sets(model: &Model, table: &[Option<u32>]) -> bool
    requires { IsTableOf model.now table.now }
    ensures { OnTrue result (HasDefinedSets model.now) }
{
    are_numbers_or_defined(table, &model.vars)
}

/// The rank of a variable.
fn rank_at(ranks: &[usize], index: usize) -> usize
    ensures { result ≡ rank_at ranks.now index }
{
    ranks.get(index).copied().unwrap_or(0)
}

/// Whether a variable ranks below another.
fn is_below(ranks: &[usize], index: usize, other: usize) -> bool
    ensures { result ≡ is_below ranks.now index other }
{
    rank_at(ranks, other) < rank_at(ranks, index)
}

/// Whether all these variables rank below another.
fn are_below(ranks: &[usize], index: usize, names: &[u32]) -> bool
    ensures { result ≡ list_all (is_below ranks.now index) names.now }
{
    names
        .iter()
        .all(|name| is_below(ranks, index, *name as usize))
}

/// Whether a variable ranks below the count and above those that it depends on.
fn is_ranked(named: &[Vec<u32>], ranks: &[usize], count: usize, place: usize) -> bool
    ensures { OnTrue result (IsRanked named.now ranks.now count place) }
{
    match named.get(place) {
        Some(names) => rank_at(ranks, place) < count && are_below(ranks, place, names),
        None => true,
    }
}

/// Whether each variable does.
#[tactic(auto, using(crate::proofs::UsableLaws::below_more, crate::proofs::UsableLaws::all_ranked))]
fn are_ranked(named: &[Vec<u32>], ranks: &[usize], count: usize) -> bool
    ensures { OnTrue result ((i : ℕ) → IsRanked named.now ranks.now count i) }
{
    for place in 0..named.len() {
        if !is_ranked(named, ranks, count, place) {
            return false;
        }
    }
    true
}

/// For each variable its place in the order.
fn ranks_of(alloc: Global, order: &[usize], count: usize) -> Result<Vec<usize>, NoMemory> {
    let mut ranks = vec![in alloc; 0; count]?;
    for place in 0..order.len() {
        let var = order[place];
        if var < ranks.len() {
            ranks[var] = place;
        }
    }
    Ok(ranks)
}

/// Whether each variable of a well formed model stands behind those that it depends on in the order that was
/// found.
#[tactic(auto, using(crate::proofs::UsableLaws::acyclic_from))]
fn is_acyclic(alloc: Global, model: &Model, table: &[Option<u32>]) -> Result<bool, NoMemory>
    requires formed { IsWellFormed model.now }
    requires table { IsTableOf model.now table.now }
    ensures { IfOk result (λ is. OnTrue is (IsAcyclic model.now)) }
{
    let named = dependencies_of(alloc, &model.defs, table)?;
    let order = order_of(alloc, &named)?;
    let ranks = ranks_of(alloc, &order, model.vars.len())?;
    Ok(are_ranked(&named, &ranks, model.vars.len()))
}

/// Whether a model may be given to `fresh`, `fresh_with` and `delta`: `true` only where it is well formed and
/// acyclic and each set variable has a definition. It goes over the model a fixed number of times. That
/// `false` comes only where one of these doesn't hold isn't promised.
pub fn is_usable(alloc: Global, model: &Model) -> Result<bool, NoMemory>
    ensures well_formed { IfOk result (λ is. OnTrue is (IsWellFormed model.now)) }
    ensures sets { IfOk result (λ is. OnTrue is (HasDefinedSets model.now)) }
    ensures acyclic { IfOk result (λ is. OnTrue is (IsAcyclic model.now)) }
{
    let table = definitions_of(alloc, model)?;
    if !is_well_formed(alloc, model, &table)? {
        return Ok(false);
    }
    if !has_defined_sets(model, &table) {
        return Ok(false);
    }
    is_acyclic(alloc, model, &table)
}
