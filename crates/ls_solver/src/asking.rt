//! What a caller may ask before a call that needs it.
ghost use Rattle.std.specs.Prelude.{◌≡◌, ◌≤◌, [], Some, IfOk};
ghost use Rattle.std.specs.Bool.{OnFalse, OnTrue};
ghost use Rattle.std.specs.Option.{option_map};
ghost use Rattle.cbl_base.specs.Inputs.{number_kind};
ghost use Rattle.cbl_base.specs.declared.limits.TheConstants.{MAX_TERM_DEPTH};
ghost use Rattle.ls_solver.specs.Asking.{own_kind};
ghost use Rattle.term_model.specs.Depth.{depth_of};
ghost use Rattle.term_model.specs.Kinds.{kind_of_term, kind_of_var, kinds_in};
ghost use Rattle.term_model.specs.Naming.{users_of};
ghost use Rattle.term_model.specs.Wellformed.{HasDefinedSets};

use crate::solver::Solver;
use cbl_base::{NoMemory, VarId};
use node_kinds::SolverNode;
use solver_models::{are_marked_or_numbers, holds_user, is_number, is_of_kind};
use term_model::{Term, VarKind, kind_at, term_kind};

impl<N: SolverNode> Solver<N> {
    /// The kind of a variable. `None` exactly where it isn't this solver's.
    pub fn kind(&self, x: VarId) -> Option<VarKind>
        ensures { option_map kind_of_var result ≡ own_kind self.now x }
    {
        if !self.owns(x) {
            return None;
        }
        kind_at(&self.model.vars, x.index)
    }

    /// The kind of a term that is no deeper than the limit, exactly where it is well kinded.
    pub fn kind_of(&self, term: &Term) -> Result<Option<VarKind>, NoMemory>
        requires { depth_of term.now ≤ MAX_TERM_DEPTH }
        ensures { IfOk result (λ kind. option_map kind_of_var kind ≡
            kind_of_term (kinds_in self.now.model.vars.items) term.now) }
    {
        term_kind(self.alloc, &self.model.vars, term)
    }

    /// Whether a term is of the kind of a variable, and holds no user's constraint, as `define` needs. That it says so
    /// wherever both hold is shown by tests alone.
    pub fn fits(&self, x: VarId, term: &Term) -> Result<bool, NoMemory>
        ensures kind { IfOk result (λ fits.
            OnTrue fits (kind_of_term (kinds_in self.now.model.vars.items) term.now ≡
            kinds_in self.now.model.vars.items x.index)) }
        ensures users { IfOk result (λ fits. OnTrue fits (users_of term.now ≡ [])) }
    {
        if holds_user(self.alloc, term)? {
            return Ok(false);
        }
        is_of_kind(self.alloc, &self.model.vars, x.index, term)
    }

    /// Whether a term is a number, and holds no user's constraint, as `post` and `add_to` need. That it says so wherever both
    /// hold is shown by tests alone.
    pub fn is_number(&self, term: &Term) -> Result<bool, NoMemory>
        ensures kind { IfOk result (λ is.
            OnTrue is (kind_of_term (kinds_in self.now.model.vars.items) term.now ≡
            Some number_kind)) }
        ensures users { IfOk result (λ is. OnTrue is (users_of term.now ≡ [])) }
    {
        if holds_user(self.alloc, term)? {
            return Ok(false);
        }
        is_number(self.alloc, &self.model.vars, term)
    }

    /// Whether each set variable has a definition, as `close` needs.
    #[tactic(auto, using(solver_models::proofs::MarkLaws::sets_by_marks, solver_models::proofs::MarkLaws::no_sets_by_marks))]
    pub fn has_defined_sets(&self) -> bool
        ensures holds { OnTrue result (HasDefinedSets self.now.model) }
        ensures fails { OnFalse result (HasDefinedSets self.now.model → ⊥) }
    {
        are_marked_or_numbers(&self.marks, &self.model.vars)
    }
}
