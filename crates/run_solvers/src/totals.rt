//! New systems and objectives, and what is posted to them.
ghost use Rattle.std.specs.Prelude.{◌≡◌, ◌≤◌, None, Some, pos, length, IfOk, OnOk};
ghost use Rattle.cbl_base.specs.Inputs.{number_kind};
ghost use Rattle.cbl_base.specs.declared.limits.TheConstants.{MAX_TERM_DEPTH};
ghost use Rattle.comet_meaning.specs.Models.{same_kind};
ghost use Rattle.comet_meaning.specs.Values as values;
ghost use Rattle.ls_solver.specs.Adding.{early_member_refusal};
ghost use Rattle.ls_solver.specs.Totals.{whole_of};
ghost use Rattle.model_values.specs.declared.wholes.Whole.TheVariants as wholes;
ghost use Rattle.model_view.specs.Building.{constant};
ghost use Rattle.model_view.specs.Plain.{plain_member};
ghost use Rattle.run_solvers.specs.Building.{IsShallow};
ghost use Rattle.run_solvers.specs.Changing.{objective_one, posted_one, total_one};
ghost use Rattle.run_solvers.specs.Kept.{IsKept};
ghost use Rattle.run_solvers.specs.Makes.{Changes, Tries};
ghost use Rattle.run_solvers.specs.Refused.{sized_member};
ghost use Rattle.run_solvers.specs.Views.{held_seen};
ghost use Rattle.run_values.specs.Views.{value_seen};
ghost use Rattle.term_model.specs.Depth.{depth_of};
ghost use Rattle.term_model.specs.Kinds.{kind_of_term, kinds_in};
ghost use Rattle.term_model.specs.Posting.{totals_by};
ghost use Rattle.term_model.specs.declared.posting.Side.TheVariants.{Objectives, Systems};

use crate::built::Built;
use crate::defining::{are_same, nothing_of};
use crate::held::Held;
use crate::refusals::stop_of;
use cbl_base::{NoMemory, Place};
use ls_solver::TotalId;
use node_kinds::SolverNode;
use run_values::{Stop, Value};
use term_model::{Member, Side, Term, VarKind};

impl<N: SolverNode> Held<N> {
    /// A new system. `AlreadyClosed` at this place exactly where the solver is closed.
    pub(crate) fn new_system(&mut self, at: Place) -> Result<Value, Stop>
        requires { IsKept self.old }
        ensures changes { Changes self.old self.new result
            (total_one at Systems (held_seen self.old)) }
        ensures value { IfOk result (λ v.
            value_seen v ≡ values.System self.old.number
            (length (held_seen self.old).model.systems.items)) }
    {
        let solver = self.number;
        match self.new_total(at, Side::Systems) {
            Ok(index) => Ok(Value::System { solver, index }),
            Err(stop) => Err(stop),
        }
    }

    /// A new objective without terms, likewise.
    pub(crate) fn new_sum(&mut self, at: Place) -> Result<Value, Stop>
        requires { IsKept self.old }
        ensures changes { Changes self.old self.new result
            (total_one at Objectives (held_seen self.old)) }
        ensures value { IfOk result (λ v.
            value_seen v ≡ values.Objective self.old.number
            (length (held_seen self.old).model.objectives.items)) }
    {
        let solver = self.number;
        match self.new_total(at, Side::Objectives) {
            Ok(index) => Ok(Value::Objective { solver, index }),
            Err(stop) => Err(stop),
        }
    }

    /// A new one of either side; tells its number.
    fn new_total(&mut self, at: Place, side: Side) -> Result<u32, Stop>
        requires { IsKept self.old }
        ensures changes { Changes self.old self.new result
            (total_one at side (held_seen self.old)) }
        ensures index { IfOk result (λ index.
            index ≡ length (totals_by (held_seen self.old).model side)) }
    {
        let made = self.try_total(at, side);
        self.finish(made)
    }

    /// The same, where a solver that stops is left as it may be.
    fn try_total(&mut self, at: Place, side: Side) -> Result<u32, Stop>
        requires { IsKept self.old }
        ensures tries { Tries self.old self.new result (total_one at side (held_seen self.old)) }
        ensures index { IfOk result (λ index.
            index ≡ length (totals_by (held_seen self.old).model side)) }
    {
        match self.solver.new_total(side, at) {
            Ok(index) => Ok(index),
            Err(fault) => Err(stop_of(self.alloc, at, &self.names, fault)),
        }
    }

    /// Posts a term with a weight to a system or an objective of the solver's number. At this place `AlreadyClosed` where
    /// the solver is closed; then `WrongSolver` where it has no such system or objective, or a variable in the term isn't
    /// its own; then `OutOfRange` where the weight is below 0; and then `TooMany` term nodes where all terms have more
    /// distinct subterms than they may.
    pub(crate) fn post(
        &mut self,
        at: Place,
        total: TotalId,
        built: Built,
        weight: i64,
    ) -> Result<(), Stop>
        requires kept { IsKept self.old }
        requires own { total.solver ≡ self.old.number }
        ensures { Changes self.old self.new result
            (posted_one at total.solver (whole_of total) built weight (held_seen self.old)) }
    {
        let made = self.try_post(at, total, built, weight);
        self.finish(made)
    }

    /// The same, where a solver that stops is left as it may be.
    fn try_post(&mut self, at: Place, total: TotalId, built: Built, weight: i64) -> Result<(), Stop>
        requires kept { IsKept self.old }
        requires own { total.solver ≡ self.old.number }
        ensures { Tries self.old self.new result
            (posted_one at total.solver (whole_of total) built weight (held_seen self.old)) }
    {
        let term = built.term();
        if let Some(fault) = self.solver.early_member_refusal(total, &term, weight) {
            return Err(Stop::Fault(at, fault));
        }
        match self.is_number(&term) {
            Err(NoMemory) => Err(Stop::NoMemory),
            Ok(true) => self.post_number(at, total, term, weight),
            Ok(false) => self.post_nothing(at, total, weight),
        }
    }

    /// Posts the number 0.
    fn post_nothing(&mut self, at: Place, total: TotalId, weight: i64) -> Result<(), Stop>
        requires kept { IsKept self.old }
        requires early { early_member_refusal self.old.solver total (constant (pos 0)) weight ≡
            None }
        ensures { Tries self.old self.new result
            (sized_member at (whole_of total) (record { term = constant (pos 0); weight = weight })
            (held_seen self.old)) }
    {
        let term = nothing_of(self.alloc, None);
        self.post_number(at, total, term, weight)
    }

    /// Whether a term is a number.
    pub(crate) fn is_number(&self, term: &Term) -> Result<bool, NoMemory>
        requires { depth_of term.now ≤ MAX_TERM_DEPTH }
        ensures { IfOk result (λ is. is ≡
            same_kind number_kind (kind_of_term
            (kinds_in (held_seen self.now).model.vars.items) term.now)) }
    {
        let kind = self.solver.kind_of(term)?;
        Ok(are_same(Some(VarKind::Number), kind))
    }

    /// Posts a term that is a number.
    fn post_number(
        &mut self,
        at: Place,
        total: TotalId,
        term: Term,
        weight: i64,
    ) -> Result<(), Stop>
        requires kept { IsKept self.old }
        requires early { early_member_refusal self.old.solver total term weight ≡ None }
        requires shallow { IsShallow term }
        requires kind { kind_of_term (kinds_in self.old.solver.model.vars.items) term ≡
            Some number_kind }
        ensures { Tries self.old self.new result
            (sized_member at (whole_of total)
            (plain_member (record { term = term; weight = weight })) (held_seen self.old)) }
    {
        self.solver.keeps_form();
        match self.solver.add_member(total, Member { term, weight }) {
            Ok(()) => Ok(()),
            Err(fault) => Err(stop_of(self.alloc, at, &self.names, fault)),
        }
    }

    /// A new objective of one term. The stops are those of `post`.
    pub(crate) fn new_objective(&mut self, at: Place, built: Built) -> Result<Value, Stop>
        requires { IsKept self.old }
        ensures changes { Changes self.old self.new result
            (objective_one at self.old.number built (held_seen self.old)) }
        ensures value { IfOk result (λ v.
            value_seen v ≡ values.Objective self.old.number
            (length (held_seen self.old).model.objectives.items)) }
    {
        let made = self.try_objective(at, built);
        self.finish(made)
    }

    /// The same, where a solver that stops is left as it may be.
    fn try_objective(&mut self, at: Place, built: Built) -> Result<Value, Stop>
        requires { IsKept self.old }
        ensures tries { Tries self.old self.new result
            (objective_one at self.old.number built (held_seen self.old)) }
        ensures value { IfOk result (λ v.
            value_seen v ≡ values.Objective self.old.number
            (length (held_seen self.old).model.objectives.items)) }
    {
        let solver = self.number;
        match self.try_total(at, Side::Objectives) {
            Err(stop) => Err(stop),
            Ok(index) => match self.post_first(at, index, built) {
                Ok(()) => Ok(Value::Objective { solver, index }),
                Err(stop) => Err(stop),
            },
        }
    }

    /// Posts a term of weight 1 to the objective with a number.
    fn post_first(&mut self, at: Place, index: u32, built: Built) -> Result<(), Stop>
        requires { IsKept self.old }
        ensures { Tries self.old self.new result
            (posted_one at self.old.number (wholes.Objective index) built (pos 1)
            (held_seen self.old)) }
    {
        let total = TotalId {
            side: Side::Objectives,
            solver: self.number,
            index,
        };
        self.try_post(at, total, built, 1)
    }
}
