//! The parts of all members of a model's systems, made once.
ghost use Rattle.std.specs.Prelude.{◌≡◌, ◌++◌, [], ◌∷◌, ℕ, List, true, length, IfOk, OnOk};
ghost use Rattle.std.specs.List.{All};
ghost use Rattle.term_model.specs.declared.model.Total.{Total};
ghost use Rattle.term_model.specs.declared.term.Term.{Term};
ghost use Rattle.store_shares.specs.Made.{terms_of};
ghost use Rattle.store_shares.specs.Making.{IsMaking, IsMakingOf, terms_in};
ghost use Rattle.store_shares.specs.Telling.{IsClosed};

use crate::naming::Naming;
use crate::parts::{Part, Span};
use crate::walk::{Ids, Walk, part_of};
use cbl_base::NoMemory;
use std::alloc::Global;
use term_model::{Term, Total};

/// The parts of the members so far, of all systems so far, with the slots and the members that name each variable.
#[derive(Drop)]
pub(crate) struct Making {
    pub(crate) walk: Walk,
    pub(crate) members: Naming,
    pub(crate) parts: Vec<Part>,
    pub(crate) systems: Vec<Span>,
}

/// No system, of so many variables.
fn none_made(alloc: Global, variables: usize) -> Result<Making, NoMemory>
    ensures { (ids : Term → ℕ) → IfOk result (λ making. IsMakingOf variables ids making []) }
{
    let slots = Naming::new(alloc, variables)?;
    let members = Naming::new(alloc, variables)?;
    let parts = Vec::new(alloc);
    let systems = Vec::new(alloc);
    let named = Vec::new(alloc);
    Ok(Making {
        walk: Walk {
            alloc,
            slots,
            named,
        },
        members,
        parts,
        systems,
    })
}

/// A member more.
fn push_member<I: Ids>(making: &mut Making, ids: &mut I, term: &Term) -> Result<(), NoMemory>
    requires knows { I.knows ids.old term.now ≡ true }
    requires closed { IsClosed (I.knows ids.old) }
    requires ready { I.is_ready ids.old }
    ensures more { OnOk result ((variables : ℕ) (terms : List Term) →
        IsMaking variables (I.id_of ids.old) making.old terms →
        IsMaking variables (I.id_of ids.old) making.new (terms ++ term.now ∷ [])) }
    ensures systems { OnOk result (making.new.systems.items ≡ making.old.systems.items) }
    ensures same_ids { I.id_of ids.new ≡ I.id_of ids.old }
    ensures same_known { I.knows ids.new ≡ I.knows ids.old }
    ensures ready { I.is_ready ids.new }
{
    making.walk.named.clear();
    let part = part_of(&mut making.walk, ids, term)?;
    making.members.push(&making.walk.named)?;
    making.parts.push(part)?;
    Ok(())
}

/// The members of a system more.
fn push_members<I: Ids>(making: &mut Making, ids: &mut I, total: &Total) -> Result<(), NoMemory>
    requires knows { All (λ t. I.knows ids.old t ≡ true) (terms_of total.now) }
    requires closed { IsClosed (I.knows ids.old) }
    requires ready { I.is_ready ids.old }
    ensures more { OnOk result ((variables : ℕ) (terms : List Term) →
        IsMaking variables (I.id_of ids.old) making.old terms →
        IsMaking variables (I.id_of ids.old) making.new (terms ++ terms_of total.now)) }
    ensures systems { OnOk result (making.new.systems.items ≡ making.old.systems.items) }
    ensures same_ids { I.id_of ids.new ≡ I.id_of ids.old }
    ensures same_known { I.knows ids.new ≡ I.knows ids.old }
    ensures ready { I.is_ready ids.new }
{
    for member in &total.members {
        push_member(making, ids, &member.term)?;
    }
    Ok(())
}

/// A system more.
fn push_system<I: Ids>(making: &mut Making, ids: &mut I, total: &Total) -> Result<(), NoMemory>
    requires knows { All (λ t. I.knows ids.old t ≡ true) (terms_of total.now) }
    requires closed { IsClosed (I.knows ids.old) }
    requires ready { I.is_ready ids.old }
    ensures more { OnOk result ((variables : ℕ) (totals : List Total) →
        IsMakingOf variables (I.id_of ids.old) making.old totals →
        IsMakingOf variables (I.id_of ids.old) making.new (totals ++ total.now ∷ [])) }
    ensures same_ids { I.id_of ids.new ≡ I.id_of ids.old }
    ensures same_known { I.knows ids.new ≡ I.knows ids.old }
    ensures ready { I.is_ready ids.new }
{
    let first = making.parts.len();
    push_members(making, ids, total)?;
    let end = making.parts.len();
    making.systems.push(Span { first, end })?;
    Ok(())
}

/// The parts of all members of some systems, over so many variables.
pub(crate) fn parts_made<I: Ids>(
    alloc: Global,
    variables: usize,
    ids: &mut I,
    totals: &[Total],
) -> Result<Making, NoMemory>
    requires knows { All (λ total. All (λ t. I.knows ids.old t ≡ true) (terms_of total)) totals.now }
    requires closed { IsClosed (I.knows ids.old) }
    requires ready { I.is_ready ids.old }
    ensures { IfOk result (λ making. IsMakingOf variables (I.id_of ids.old) making totals.now) }
{
    let mut making = none_made(alloc, variables)?;
    for total in totals {
        push_system(&mut making, ids, total)?;
    }
    Ok(making)
}
