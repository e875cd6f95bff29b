//! The parts of a constraint, made once from its term.
ghost use Rattle.std.specs.Prelude.{◌≡◌, ◌∷◌, [], ℕ, Bool, true, List, map, IfOk, OnOk};
ghost use Rattle.term_model.specs.Definitions.{vars_of};
ghost use Rattle.term_model.specs.declared.term.Term.{Term};
ghost use Rattle.store_shares.specs.Slots.{slots_of};
ghost use Rattle.store_shares.specs.Telling.{IsClosed, Tells};
ghost use Rattle.store_shares.specs.Walked.{IsWalked};

use crate::naming::Naming;
use crate::parts::{Part, is_flat, kind_of, part_by};
use cbl_base::NoMemory;
use std::alloc::Global;
use term_model::{Term, push_variables};

/// Who knows under which id a term is read.
pub trait Ids {
    ghost use Rattle.std.specs.Prelude.{◌≡◌, ℕ, Bool, true, IfOk};
    ghost use Rattle.term_model.specs.declared.term.Term.{Term};

    /// The id of a term.
    ghost id_of: { Self → Term → ℕ };

    /// Whether the term is known.
    ghost knows: { Self → Term → Bool };

    /// Whether it can be asked.
    ghost is_ready: { Self → Type 0 };

    /// The id of a known term.
    fn id(&mut self, term: &Term) -> Result<u32, NoMemory>
        requires known { knows self.old term.now ≡ true }
        requires ready { is_ready self.old }
        ensures ready { is_ready self.new }
        ensures id { IfOk result (λ id. id ≡ id_of self.old term.now) }
        ensures same_ids { id_of self.new ≡ id_of self.old }
        ensures same_known { knows self.new ≡ knows self.old };
}

/// What a walk through terms keeps: the slots, and the variables that those of the present member name.
#[derive(Drop)]
pub(crate) struct Walk {
    pub(crate) alloc: Global,
    pub(crate) slots: Naming,
    pub(crate) named: Vec<u32>,
}

/// A slot more, of an argument.
fn push_slot(walk: &mut Walk, argument: &Term) -> Result<(), NoMemory>
    ensures { OnOk result (IsWalked walk.old walk.new (vars_of argument.now ∷ [])) }
{
    let first = walk.named.len();
    push_variables(argument, &mut walk.named)?;
    walk.slots.push(&walk.named[first..])?;
    Ok(())
}

/// A slot more for each argument.
fn push_slots(walk: &mut Walk, arguments: &[Term]) -> Result<(), NoMemory>
    ensures { OnOk result (IsWalked walk.old walk.new (map vars_of arguments.now)) }
{
    for argument in arguments {
        push_slot(walk, argument)?;
    }
    Ok(())
}

/// The part of a known term, with its slots behind those that there are.
pub(crate) fn part_of<I: Ids>(walk: &mut Walk, ids: &mut I, term: &Term) -> Result<Part, NoMemory>
    requires knows { I.knows ids.old term.now ≡ true }
    requires closed { IsClosed (I.knows ids.old) }
    requires ready { I.is_ready ids.old }
    ensures walked { OnOk result (IsWalked walk.old walk.new (slots_of term.now)) }
    ensures tells { IfOk result (λ part. Tells (I.id_of ids.old) part term.now walk.old.slots.count) }
    ensures same_ids { I.id_of ids.new ≡ I.id_of ids.old }
    ensures same_known { I.knows ids.new ≡ I.knows ids.old }
    ensures ready { I.is_ready ids.new }
{
    let id = ids.id(term)?;
    let Term::Node { op, args, place: _ } = term else {
        return Ok(Part::Leaf { id });
    };
    let kind = kind_of(op);
    let first = walk.slots.count;
    let mut parts = Vec::new(walk.alloc);
    if is_flat(kind) {
        push_slots(walk, args)?;
        return Ok(part_by(kind, id, first, walk.slots.count, parts));
    }
    for arg in args {
        let part = part_of(walk, ids, arg)?;
        parts.push(part)?;
    }
    Ok(part_by(kind, id, first, walk.slots.count, parts))
}
