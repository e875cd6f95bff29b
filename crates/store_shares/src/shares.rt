//! What is kept of a model so that the violations of a variable in a system are read.

ghost use Rattle.std.specs.Prelude.{◌≡◌, ◌<◌, ◌^◌, ℕ, Bool, length, IfOk};
ghost use Rattle.cbl_base.specs.NumberRule.{NumberRule};
ghost use Rattle.model_values.specs.Dependence.{var_depends};
ghost use Rattle.model_values.specs.Outcomes.{Outcome};
ghost use Rattle.term_model.specs.declared.model.Model.{Model};
ghost use Rattle.term_model.specs.declared.term.Term.{Term};
ghost use Rattle.term_model.specs.Wellformed.{IsWellFormed};
ghost use Rattle.violation_shares.specs.VariableViolations.{violation_in_system};
ghost use Rattle.layer_plan.specs.Dependencies.{list_of};
ghost use Rattle.term_model.specs.Definitions.{IsAcyclic};
ghost use Rattle.store_shares.specs.Closing.{AreUsers};
ghost use Rattle.store_shares.specs.Made.{AreAllKnown, AreKnown, AreWeights, IsOrdered, IsSharesOf};
ghost use Rattle.store_shares.specs.Telling.{AreReads, IsClosed};

use crate::calls::total_of;
use crate::closing::{closed, known_words};
use crate::held::Held;
use crate::making::{Making, parts_made};
use crate::parts::{Part, Span};
use crate::users::users_of;
use crate::walk::Ids;
use crate::words::Word;
use cbl_base::{NoMemory, RunFault};
use std::alloc::Global;
use term_model::{Model, definitions_of, dependencies_of, order_of};

/// The parts of the members of all systems, and for each variable the slots and the members in which it stands, also
/// through definitions.
#[derive(Drop)]
pub struct Shares {
    pub(crate) systems: Vec<Span>,
    pub(crate) parts: Vec<Part>,
    pub(crate) slots: Vec<Option<Vec<Word>>>,
    pub(crate) members: Vec<Option<Vec<Word>>>,
}

/// For each variable those whose definitions name it.
fn users_in(alloc: Global, model: &Model) -> Result<Vec<Vec<u32>>, NoMemory>
    requires formed { IsWellFormed model.now }
    requires few { length model.now.vars.items < 2 ^ 32 }
    ensures count { IfOk result (λ users. length users.items ≡ length model.now.vars.items) }
    ensures users { IfOk result (λ users. AreUsers model.now (list_of users.items)) }
{
    let table = definitions_of(alloc, model)?;
    let named = dependencies_of(alloc, &model.defs, &table)?;
    let users = users_of(alloc, &named)?;
    Ok(users)
}

impl Shares {
    /// What is kept of a model, whose terms are read under these ids.
    pub fn new<I: Ids>(alloc: Global, model: &Model, ids: &mut I) -> Result<Shares, NoMemory>
        requires formed { IsWellFormed model.now }
        requires acyclic { IsAcyclic model.now }
        requires few { length model.now.vars.items < 2 ^ 32 }
        requires ready { I.is_ready ids.old }
        requires known { AreAllKnown model.now (I.knows ids.old) }
        requires closed { IsClosed (I.knows ids.old) }
        ensures { IfOk result (λ shares. IsSharesOf model.now (I.id_of ids.old) shares) }
    {
        let Making {
            walk,
            members,
            parts,
            systems,
        } = parts_made(alloc, model.vars.len(), ids, &model.systems)?;
        let users = users_in(alloc, model)?;
        let hint = order_of(alloc, &users)?;
        let slots = closed(alloc, &walk.slots.sets, &users, &hint)?;
        let members = closed(alloc, &members.sets, &users, &hint)?;
        Ok(Shares {
            systems,
            parts,
            slots,
            members,
        })
    }

    /// The violations of a variable in a system whose terms all have values, read without taking memory: in a plain
    /// constraint the greatest of the violations at the places whose term depends on the variable, also through
    /// definitions, and 0 where there is none; in a combination of constraints by those of its members, and in
    /// the system their total, each times its weight. The system and the variable are named by their numbers, from 0.
    ///
    /// `Overflow` exactly where a total doesn't fit 64 bits.
    pub fn variable_violations<H: Held>(
        &self,
        held: &H,
        system: u32,
        variable: u32,
    ) -> Result<i64, RunFault>
        requires ready { H.is_ready held.now }
        requires system { system < length self.now.systems.items }
        requires ordered { IsOrdered self.now }
        ensures { (users : ℕ → NumberRule) (M : Model) (env : ℕ → Outcome) (ids : Term → ℕ) (known : Term → Bool) →
            IsWellFormed M → IsSharesOf M ids self.now → AreReads users env ids known (record { number = H.number_of held.now; violation = H.violation_of held.now }) →
            AreWeights M system (H.weight_of held.now) → AreKnown M system known → variable < length M.vars.items →
            result ≡ violation_in_system users M env (var_depends M variable) system }
    {
        let slots = known_words(&self.slots, variable as usize);
        let members = known_words(&self.members, variable as usize);
        let span = self.systems[system as usize];
        let parts = &self.parts[span.first..span.end];
        total_of(held, slots, members, parts, span.first, system as usize)
    }
}
