//! Definitions, and new variables.
ghost use Rattle.std.specs.Prelude.{◌≡◌, ◌≤◌, None, pos, length, option_map, IfOk, OnOk};
ghost use Rattle.cbl_base.specs.declared.limits.TheConstants.{MAX_TERM_DEPTH};
ghost use Rattle.comet_meaning.specs.Models.{nothing_of, same_kind};
ghost use Rattle.comet_meaning.specs.Solvers.{kind_in, kind_or_number};
ghost use Rattle.comet_meaning.specs.Variables.{defined, free, next_variable};
ghost use Rattle.ls_solver.specs.Defining.{early_refusal};
ghost use Rattle.model_view.specs.Building.{constant};
ghost use Rattle.model_view.specs.Plain.{plain_term};
ghost use Rattle.run_solvers.specs.Building.{IsShallow};
ghost use Rattle.run_solvers.specs.Changing.{added_one, declared_one, defined_one};
ghost use Rattle.run_solvers.specs.Kept.{HasDefinedOthers, IsKept, IsWholeHeld};
ghost use Rattle.run_solvers.specs.Makes.{Changes, Makes, Tries};
ghost use Rattle.run_solvers.specs.Refused.{sized_one};
ghost use Rattle.run_solvers.specs.Views.{beginning_seen, held_seen};
ghost use Rattle.term_model.specs.Depth.{depth_of};
ghost use Rattle.term_model.specs.Kinds.{kind_of_term, kind_of_var, kinds_in};
ghost use Rattle.term_model.specs.Wellformed.{HasDefinedSets};
ghost use Rattle.term_model.specs.declared.model.VarKind.TheVariants.{Number};

use crate::beginning::Beginning;
use crate::built::Built;
use crate::held::Held;
use crate::refusals::stop_of;
use cbl_base::{IntSet, NoMemory, Place, Text, VarId};
use node_kinds::SolverNode;
use run_values::Stop;
use std::alloc::Global;
use term_model::{Term, VarDecl, VarKind};

impl<N: SolverNode> Held<N> {
    /// Defines a variable by a term. At this place `AlreadyClosed` where the solver is closed; then `WrongSolver` where the
    /// variable, or one in the term, isn't the solver's; then `DefinedVariable` where it has a definition; and then
    /// `TooMany` term nodes where all terms have more distinct subterms than they may.
    pub(crate) fn define(&mut self, at: Place, variable: VarId, built: Built) -> Result<(), Stop>
        requires kept { IsKept self.old }
        requires own { variable.solver ≡ self.old.number }
        ensures { Changes self.old self.new result
            (defined_one at variable built (held_seen self.old)) }
    {
        let made = self.try_define(at, variable, built);
        self.finish(made)
    }

    /// The same, where a solver that stops is left as it may be, and where the variable alone may be a set without a
    /// definition.
    fn try_define(&mut self, at: Place, variable: VarId, built: Built) -> Result<(), Stop>
        requires whole { IsWholeHeld self.old }
        requires own { variable.solver ≡ self.old.number }
        ensures meant { Makes (held_seen self.new) result
            (defined_one at variable built (held_seen self.old)) }
        ensures whole { OnOk result (IsWholeHeld self.new) }
        ensures sets { OnOk result (HasDefinedOthers self.old.solver.model variable.index →
            HasDefinedSets self.new.solver.model) }
        ensures number { self.new.number ≡ self.old.number }
    {
        let term = built.term();
        if let Some(fault) = self.solver.early_refusal(variable, &term) {
            return Err(Stop::Fault(at, fault));
        }
        match self.is_fitting(variable, &term) {
            Err(NoMemory) => Err(Stop::NoMemory),
            Ok(true) => self.define_fitting(at, variable, term),
            Ok(false) => self.define_nothing(at, variable),
        }
    }

    /// Whether a term is of the kind of a variable.
    fn is_fitting(&self, variable: VarId, term: &Term) -> Result<bool, NoMemory>
        requires whole { IsWholeHeld self.now }
        requires early { early_refusal self.now.solver variable term.now ≡ None }
        requires depth { depth_of term.now ≤ MAX_TERM_DEPTH }
        ensures { IfOk result (λ is. is ≡
            same_kind (kind_in (held_seen self.now) variable.index)
            (kind_of_term (kinds_in (held_seen self.now).model.vars.items) term.now)) }
    {
        let wanted = self.solver.kind(variable);
        let kind = self.solver.kind_of(term)?;
        Ok(are_same(wanted, kind))
    }

    /// Defines a variable by a term of its kind.
    fn define_fitting(&mut self, at: Place, variable: VarId, term: Term) -> Result<(), Stop>
        requires whole { IsWholeHeld self.old }
        requires own { variable.solver ≡ self.old.number }
        requires early { early_refusal self.old.solver variable term ≡ None }
        requires shallow { IsShallow term }
        requires kind { kind_of_term (kinds_in self.old.solver.model.vars.items) term ≡
            kinds_in self.old.solver.model.vars.items variable.index }
        ensures meant { Makes (held_seen self.new) result
            (sized_one at variable (plain_term term) (held_seen self.old)) }
        ensures whole { OnOk result (IsWholeHeld self.new) }
        ensures sets { OnOk result (HasDefinedOthers self.old.solver.model variable.index →
            HasDefinedSets self.new.solver.model) }
        ensures number { self.new.number ≡ self.old.number }
    {
        self.solver.keeps_form();
        match self.solver.define(variable, term) {
            Ok(()) => Ok(()),
            Err(fault) => Err(stop_of(self.alloc, at, &self.names, fault)),
        }
    }

    /// Defines a variable by 0 or by the empty set.
    fn define_nothing(&mut self, at: Place, variable: VarId) -> Result<(), Stop>
        requires whole { IsWholeHeld self.old }
        requires own { variable.solver ≡ self.old.number }
        requires early { early_refusal self.old.solver variable (constant (pos 0)) ≡ None }
        ensures meant { Makes (held_seen self.new) result
            (sized_one at variable (nothing_of (kind_in (held_seen self.old) variable.index))
            (held_seen self.old)) }
        ensures whole { OnOk result (IsWholeHeld self.new) }
        ensures sets { OnOk result (HasDefinedOthers self.old.solver.model variable.index →
            HasDefinedSets self.new.solver.model) }
        ensures number { self.new.number ≡ self.old.number }
    {
        let term = nothing_of(self.alloc, self.solver.kind(variable));
        self.define_fitting(at, variable, term)
    }

    /// A new variable, as it is declared, with a name, which begins with a number or a definition. At this place
    /// `AlreadyClosed` where the solver is closed, then `TooMany` variables where it has 262,144, and then the stops of
    /// `define`. `NoMemory` also for a set variable that begins with a number, which no checked program declares.
    pub(crate) fn add(
        &mut self,
        at: Place,
        decl: VarDecl,
        name: Text,
        beginning: Beginning,
    ) -> Result<VarId, Stop>
        requires { IsKept self.old }
        ensures changes { Changes self.old self.new result
            (added_one at self.old.number decl name (beginning_seen beginning)
            (held_seen self.old)) }
        ensures id { IfOk result (λ x. x ≡ next_variable self.old.number (held_seen self.old)) }
    {
        let made = self.try_add(at, decl, name, beginning);
        self.finish(made)
    }

    /// The same, where a solver that stops is left as it may be.
    fn try_add(
        &mut self,
        at: Place,
        decl: VarDecl,
        name: Text,
        beginning: Beginning,
    ) -> Result<VarId, Stop>
        requires { IsKept self.old }
        ensures tries { Tries self.old self.new result
            (added_one at self.old.number decl name (beginning_seen beginning)
            (held_seen self.old)) }
        ensures id { IfOk result (λ x. x ≡ next_variable self.old.number (held_seen self.old)) }
    {
        match beginning {
            Beginning::Free(number) => self.add_free(at, decl, name, number),
            Beginning::Defined(built) => self.add_defined(at, decl, name, built),
        }
    }

    /// The same of a variable that begins with a number.
    fn add_free(&mut self, at: Place, decl: VarDecl, name: Text, number: i64) -> Result<VarId, Stop>
        requires { IsKept self.old }
        ensures tries { Tries self.old self.new result
            (added_one at self.old.number decl name (free number) (held_seen self.old)) }
        ensures id { IfOk result (λ x. x ≡ next_variable self.old.number (held_seen self.old)) }
    {
        match decl.kind {
            VarKind::Number => self.declare(at, decl, name, number),
            VarKind::Set => Err(Stop::NoMemory),
        }
    }

    /// The same of a variable that begins with a definition.
    fn add_defined(
        &mut self,
        at: Place,
        decl: VarDecl,
        name: Text,
        built: Built,
    ) -> Result<VarId, Stop>
        requires { IsKept self.old }
        ensures tries { Tries self.old self.new result
            (added_one at self.old.number decl name (defined built) (held_seen self.old)) }
        ensures id { IfOk result (λ x. x ≡ next_variable self.old.number (held_seen self.old)) }
    {
        match self.declare(at, decl, name, 0) {
            Err(stop) => Err(stop),
            Ok(variable) => match self.try_define(at, variable, built) {
                Ok(()) => Ok(variable),
                Err(stop) => Err(stop),
            },
        }
    }

    /// A new variable with a name and a number.
    fn declare(&mut self, at: Place, decl: VarDecl, name: Text, start: i64) -> Result<VarId, Stop>
        requires { IsKept self.old }
        ensures meant { Makes (held_seen self.new) result
            (declared_one at decl name start (held_seen self.old)) }
        ensures whole { OnOk result (IsWholeHeld self.new) }
        ensures sets { OnOk result (HasDefinedOthers self.new.solver.model
            (length self.old.solver.model.vars.items)) }
        ensures numbers { OnOk result (decl.kind ≡ Number → HasDefinedSets self.new.solver.model) }
        ensures id { IfOk result (λ x. x ≡ next_variable self.old.number (held_seen self.old)) }
        ensures number { self.new.number ≡ self.old.number }
    {
        match self.solver.declare(decl, start) {
            Err(fault) => Err(stop_of(self.alloc, at, &self.names, fault)),
            Ok(variable) => match self.names.push(name) {
                Ok(()) => Ok(variable),
                Err(NoMemory) => Err(Stop::NoMemory),
            },
        }
    }
}

/// Whether a kind is the wanted one; where none is wanted, a number is.
pub(crate) fn are_same(wanted: Option<VarKind>, kind: Option<VarKind>) -> bool
    ensures { result ≡ same_kind (kind_or_number (option_map kind_of_var wanted))
        (option_map kind_of_var kind) }
{
    match (wanted, kind) {
        (Some(VarKind::Set), Some(VarKind::Set)) => true,
        (Some(VarKind::Set), _) => false,
        (_, Some(VarKind::Number)) => true,
        (_, _) => false,
    }
}

/// The term of a kind that stands for one of another kind.
pub(crate) fn nothing_of(alloc: Global, kind: Option<VarKind>) -> Term
    ensures seen { plain_term result ≡ nothing_of (kind_or_number (option_map kind_of_var kind)) }
    ensures shallow { IsShallow result }
{
    match kind {
        Some(VarKind::Set) => Term::ConstSet(IntSet::new(alloc)),
        _ => Term::Const(0),
    }
}
