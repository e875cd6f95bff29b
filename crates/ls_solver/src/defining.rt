//! Definitions of variables.
ghost use Rattle.std.specs.Prelude.{◌≡◌, true, false, None, [], IfOk, OnOk, OnErr};
ghost use Rattle.ls_solver.specs.Answers.{Answers};
ghost use Rattle.solver_models.specs.Defining.{Defines, define_refusal, distinct_with, early_refusal, is_own_definition, is_too_deep, size_refusal};
ghost use Rattle.solver_models.specs.State.{IsUnchanged};
ghost use Rattle.term_count.specs.Counting.{Counts};
ghost use Rattle.term_model.specs.Kinds.{kind_of_term, kinds_in};
ghost use Rattle.term_model.specs.Naming.{users_of};
ghost use Rattle.term_model.specs.Subterms.{distinct_subterms};

use crate::fault::SolverFault;
use crate::solver::Solver;
use cbl_base::limits::{MAX_TERM_DEPTH, MAX_TERM_NODES};
use cbl_base::{Limit, NoMemory, RunFault, VarId};
use node_kinds::SolverNode;
use solver_models::{counted_with, defines_given, is_within, mark, mark_at, push_definition};
use std::mem;
use term_count::Subterms;
use term_model::{Definition, Term};

impl<N: SolverNode> Solver<N> {
    /// Why a variable can't have a definition, whatever the size of its term.
    pub fn early_refusal(&self, x: VarId, term: &Term) -> Option<RunFault>
        ensures { result ≡ early_refusal self.now x term.now }
    {
        if self.is_closed() {
            return Some(RunFault::AlreadyClosed);
        }
        if !defines_given(self.number, self.model.vars.len(), x, term) {
            return Some(RunFault::WrongSolver);
        }
        if mark_at(&self.marks, x.index) {
            return Some(RunFault::DefinedVariable);
        }
        None
    }

    /// Defines a variable by a term, which it always equals from then on. Refused with `AlreadyClosed`; then with
    /// `WrongSolver` where the variable, or one in the term, isn't this solver's; then with `DefinedVariable`; and then
    /// with `TooMany` term nodes where the term is too deep, or the distinct subterms of all terms are too many with
    /// it. With any refusal the solver is as before.
    ///
    /// The term must be of the variable's kind, and hold no user's constraint.
    pub fn define(&mut self, x: VarId, term: Term) -> Result<(), SolverFault>
        requires usable { self.old.usable ≡ true }
        requires kind { is_own_definition self.old x term ≡ true →
            kind_of_term (kinds_in self.old.model.vars.items) term ≡
            kinds_in self.old.model.vars.items x.index }
        requires users { users_of term ≡ [] }
        ensures answer { Answers (define_refusal self.old x term) result }
        ensures defined { OnOk result (Defines self.old self.new
            (record { var = x; term = term })) }
        ensures kept { OnErr result (IsUnchanged self.old self.new) }
    {
        match self.admit_definition(x, &term) {
            Ok(counted) => self.put_definition(Definition { var: x, term }, counted),
            Err(fault) => Err(fault),
        }
    }

    /// The distinct subterms with a variable's term, or why it can't have it as its definition.
    fn admit_definition(&mut self, x: VarId, term: &Term) -> Result<Subterms, SolverFault>
        ensures answer { Answers (define_refusal self.old x term.now) result }
        ensures same { self.new ≡ self.old }
        ensures early { OnOk result (early_refusal self.old x term.now ≡ None) }
        ensures shallow { OnOk result (is_too_deep term.now ≡ false) }
        ensures counted { IfOk result (λ counted.
            Counts counted (distinct_with (distinct_subterms self.old.model) term.now)) }
    {
        if let Some(fault) = self.early_refusal(x, term) {
            return Err(SolverFault::Run(fault));
        }
        self.admit_size(term)
    }

    /// The distinct subterms with a term, or why it is too much.
    pub(crate) fn admit_size(&mut self, term: &Term) -> Result<Subterms, SolverFault>
        ensures answer { Answers (size_refusal self.old.model term.now) result }
        ensures same { self.new ≡ self.old }
        ensures shallow { OnOk result (is_too_deep term.now ≡ false) }
        ensures counted { IfOk result (λ counted.
            Counts counted (distinct_with (distinct_subterms self.old.model) term.now)) }
    {
        if !is_within(term, MAX_TERM_DEPTH) {
            return Err(SolverFault::Run(RunFault::TooMany(Limit::TermNodes)));
        }
        let Ok(counted) = self.count_with(term) else {
            return Err(SolverFault::NoMemory);
        };
        if counted.len() > MAX_TERM_NODES {
            return Err(SolverFault::Run(RunFault::TooMany(Limit::TermNodes)));
        }
        Ok(counted)
    }

    /// The distinct subterms with a term.
    fn count_with(&mut self, term: &Term) -> Result<Subterms, NoMemory>
        ensures same { self.new ≡ self.old }
        ensures counted { IfOk result (λ counted.
            Counts counted (distinct_with (distinct_subterms self.old.model) term.now)) }
    {
        let kept = mem::replace(&mut self.terms, None);
        counted_with(self.alloc, kept, &self.model, term)
    }

    /// Puts a definition behind the others, with the distinct subterms then.
    fn put_definition(
        &mut self,
        definition: Definition,
        counted: Subterms,
    ) -> Result<(), SolverFault>
        requires usable { self.old.usable ≡ true }
        requires early { early_refusal self.old definition.var definition.term ≡ None }
        requires shallow { is_too_deep definition.term ≡ false }
        requires kind { kind_of_term (kinds_in self.old.model.vars.items) definition.term ≡
            kinds_in self.old.model.vars.items definition.var.index }
        requires users { users_of definition.term ≡ [] }
        requires counted { Counts counted
            (distinct_with (distinct_subterms self.old.model) definition.term) }
        ensures answer { Answers None result }
        ensures defined { OnOk result (Defines self.old self.new definition) }
        ensures kept { OnErr result (IsUnchanged self.old self.new) }
    {
        let place = definition.var.index as usize;
        match push_definition(&mut self.model, definition) {
            Ok(()) => {
                mark(&mut self.marks, place);
                self.terms = Some(counted);
                Ok(())
            }
            Err(NoMemory) => Err(SolverFault::NoMemory),
        }
    }
}
