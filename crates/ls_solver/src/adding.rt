//! Constraints of systems, and terms of objectives.
ghost use Rattle.std.specs.Prelude.{◌≡◌, true, false, None, Some, [], IfOk, OnOk, OnErr};
ghost use Rattle.cbl_base.specs.Inputs.{number_kind};
ghost use Rattle.ls_solver.specs.Answers.{Answers};
ghost use Rattle.solver_models.specs.Adding.{Adds, early_member_refusal, is_own_member, member_refusal};
ghost use Rattle.solver_models.specs.Defining.{distinct_with, is_too_deep};
ghost use Rattle.solver_models.specs.State.{IsUnchanged};
ghost use Rattle.solver_models.specs.Totals.{of_objective, of_system};
ghost use Rattle.term_count.specs.Counting.{Counts};
ghost use Rattle.term_model.specs.Kinds.{kind_of_term, kinds_in};
ghost use Rattle.term_model.specs.Naming.{users_of};
ghost use Rattle.term_model.specs.Subterms.{distinct_subterms};

use crate::fault::SolverFault;
use crate::solver::Solver;
use cbl_base::{NoMemory, RunFault};
use node_kinds::SolverNode;
use solver_models::{ObjectiveId, SystemId, TotalId, names_given, push_member};
use term_count::Subterms;
use term_model::{Member, Term};

impl<N: SolverNode> Solver<N> {
    /// Whether a system or an objective, and all variables in a term, are this solver's.
    fn owns_member(&self, k: TotalId, term: &Term) -> bool
        ensures { result ≡ is_own_member self.now k term.now }
    {
        self.owns_total(k) && names_given(self.number, self.model.vars.len(), term)
    }

    /// Why a term can't be put to a system or an objective with a weight, whatever its size.
    pub fn early_member_refusal(&self, k: TotalId, term: &Term, weight: i64) -> Option<RunFault>
        ensures { result ≡ early_member_refusal self.now k term.now weight }
    {
        if self.is_closed() {
            return Some(RunFault::AlreadyClosed);
        }
        if !self.owns_member(k, term) {
            return Some(RunFault::WrongSolver);
        }
        if weight < 0 {
            return Some(RunFault::OutOfRange);
        }
        None
    }

    /// Posts a constraint to a system, with a weight. Refused with `AlreadyClosed`; then with `WrongSolver` where the
    /// system, or a variable in the constraint, isn't this solver's; then with `OutOfRange` where the weight is negative;
    /// and then with `TooMany` term nodes where the constraint is too deep, or the distinct subterms of all terms are too
    /// many with it. With any refusal the solver is as before.
    ///
    /// The constraint must be a number, as its violations are, and hold no user's constraint.
    pub fn post(&mut self, s: SystemId, c: Term, weight: i64) -> Result<(), SolverFault>
        requires usable { self.old.usable ≡ true }
        requires kind { is_own_member self.old (of_system s) c ≡ true →
            kind_of_term (kinds_in self.old.model.vars.items) c ≡ Some number_kind }
        requires users { users_of c ≡ [] }
        ensures answer { Answers (member_refusal self.old (of_system s) c weight) result }
        ensures added { OnOk result (Adds self.old self.new (of_system s)
            (record { term = c; weight = weight })) }
        ensures kept { OnErr result (IsUnchanged self.old self.new) }
    {
        self.add_member(TotalId::of_system(s), Member { term: c, weight })
    }

    /// Adds a term to an objective, with a weight. Refused as `post`.
    ///
    /// The term must be a number, and hold no user's constraint.
    pub fn add_to(&mut self, f: ObjectiveId, term: Term, weight: i64) -> Result<(), SolverFault>
        requires usable { self.old.usable ≡ true }
        requires kind { is_own_member self.old (of_objective f) term ≡ true →
            kind_of_term (kinds_in self.old.model.vars.items) term ≡ Some number_kind }
        requires users { users_of term ≡ [] }
        ensures answer { Answers (member_refusal self.old (of_objective f) term weight) result }
        ensures added { OnOk result (Adds self.old self.new (of_objective f)
            (record { term = term; weight = weight })) }
        ensures kept { OnErr result (IsUnchanged self.old self.new) }
    {
        self.add_member(TotalId::of_objective(f), Member { term, weight })
    }

    /// The same of either.
    pub fn add_member(&mut self, k: TotalId, member: Member) -> Result<(), SolverFault>
        requires usable { self.old.usable ≡ true }
        requires kind { is_own_member self.old k member.term ≡ true →
            kind_of_term (kinds_in self.old.model.vars.items) member.term ≡ Some number_kind }
        requires users { users_of member.term ≡ [] }
        ensures answer { Answers (member_refusal self.old k member.term member.weight) result }
        ensures added { OnOk result (Adds self.old self.new k member) }
        ensures kept { OnErr result (IsUnchanged self.old self.new) }
    {
        match self.admit(k, &member) {
            Ok(counted) => self.put_member(k, member, counted),
            Err(fault) => Err(fault),
        }
    }

    /// The distinct subterms with a member, or why it can't be put to a system or an objective.
    pub(crate) fn admit(&mut self, k: TotalId, member: &Member) -> Result<Subterms, SolverFault>
        ensures answer { Answers (member_refusal self.old k member.now.term member.now.weight)
            result }
        ensures same { self.new ≡ self.old }
        ensures early { OnOk result (early_member_refusal self.old k member.now.term
            member.now.weight ≡ None) }
        ensures shallow { OnOk result (is_too_deep member.now.term ≡ false) }
        ensures counted { IfOk result (λ counted.
            Counts counted (distinct_with (distinct_subterms self.old.model) member.now.term)) }
    {
        if let Some(fault) = self.early_member_refusal(k, &member.term, member.weight) {
            return Err(SolverFault::Run(fault));
        }
        self.admit_size(&member.term)
    }

    /// Puts a member behind the others, with the distinct subterms then.
    fn put_member(
        &mut self,
        k: TotalId,
        member: Member,
        counted: Subterms,
    ) -> Result<(), SolverFault>
        requires usable { self.old.usable ≡ true }
        requires early { early_member_refusal self.old k member.term member.weight ≡ None }
        requires shallow { is_too_deep member.term ≡ false }
        requires kind { kind_of_term (kinds_in self.old.model.vars.items) member.term ≡
            Some number_kind }
        requires users { users_of member.term ≡ [] }
        requires counted { Counts counted
            (distinct_with (distinct_subterms self.old.model) member.term) }
        ensures answer { Answers None result }
        ensures added { OnOk result (Adds self.old self.new k member) }
        ensures kept { OnErr result (IsUnchanged self.old self.new) }
    {
        match push_member(self.alloc, &mut self.model, k.side, k.index, member) {
            Ok(()) => {
                self.terms = Some(counted);
                Ok(())
            }
            Err(NoMemory) => Err(SolverFault::NoMemory),
        }
    }
}
