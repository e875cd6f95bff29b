//! New variables.
ghost use Rattle.std.specs.Prelude.{◌≡◌, true, None, pos, length, IfOk, OnOk, OnErr};
ghost use Rattle.ls_solver.specs.Answers.{Answers};
ghost use Rattle.solver_models.specs.Declaring.{Declares, variable_refusal};
ghost use Rattle.solver_models.specs.Ids.{id_at};
ghost use Rattle.solver_models.specs.State.{IsUnchanged};
ghost use Rattle.term_model.specs.declared.model.VarKind.TheVariants.{Number, Set};

use crate::fault::SolverFault;
use crate::solver::Solver;
use cbl_base::limits::MAX_VARIABLES;
use cbl_base::{Limit, NoMemory, RunFault, VarId};
use node_kinds::SolverNode;
use solver_models::push_variable;
use term_model::{VarDecl, VarKind};

impl<N: SolverNode> Solver<N> {
    /// Why there can't be one more variable.
    fn variable_refusal(&self) -> Option<RunFault>
        ensures { result ≡ variable_refusal self.now }
    {
        if self.is_closed() {
            return Some(RunFault::AlreadyClosed);
        }
        if self.model.vars.len() < MAX_VARIABLES {
            return None;
        }
        Some(RunFault::TooMany(Limit::Variables))
    }

    /// A new variable as it is declared, and with its number in the assignment. A set variable must have a definition once
    /// the solver is closed. Refused as `new_var`.
    pub fn declare(&mut self, decl: VarDecl, start: i64) -> Result<VarId, SolverFault>
        requires { self.old.usable ≡ true }
        ensures answer { Answers (variable_refusal self.old) result }
        ensures id { IfOk result (λ x. x ≡ id_at self.old (length self.old.model.vars.items)) }
        ensures declared { OnOk result (Declares self.old self.new decl start) }
        ensures kept { OnErr result (IsUnchanged self.old self.new) }
    {
        if let Some(fault) = self.variable_refusal() {
            return Err(SolverFault::Run(fault));
        }
        self.put_variable(decl, start)
    }

    /// The same of a solver that is open and has room for it.
    fn put_variable(&mut self, decl: VarDecl, start: i64) -> Result<VarId, SolverFault>
        requires { variable_refusal self.old ≡ None }
        ensures answer { Answers None result }
        ensures id { IfOk result (λ x. x ≡ id_at self.old (length self.old.model.vars.items)) }
        ensures declared { OnOk result (Declares self.old self.new decl start) }
        ensures kept { OnErr result (IsUnchanged self.old self.new) }
    {
        let index = self.model.vars.len() as u32;
        let solver = self.number;
        match push_variable(
            &mut self.model,
            &mut self.assignment,
            &mut self.marks,
            decl,
            start,
        ) {
            Ok(()) => Ok(VarId { solver, index }),
            Err(NoMemory) => Err(SolverFault::NoMemory),
        }
    }

    /// A new whole-number variable with a domain, and with its number in the assignment. Refused with `AlreadyClosed`,
    /// and then with `TooMany` variables; with any refusal the solver is as before.
    pub fn new_var(&mut self, low: i64, up: i64, start: i64) -> Result<VarId, SolverFault>
        requires { self.old.usable ≡ true }
        ensures answer { Answers (variable_refusal self.old) result }
        ensures id { IfOk result (λ x. x ≡ id_at self.old (length self.old.model.vars.items)) }
        ensures declared { OnOk result (Declares self.old self.new
            (record { kind = Number; low = low; up = up }) start) }
        ensures kept { OnErr result (IsUnchanged self.old self.new) }
    {
        let decl = VarDecl {
            kind: VarKind::Number,
            low,
            up,
        };
        self.declare(decl, start)
    }

    /// A new set variable, which must have a definition once the solver is closed; its number in the assignment isn't
    /// looked at. Refused as `new_var`.
    pub fn new_set_var(&mut self) -> Result<VarId, SolverFault>
        requires { self.old.usable ≡ true }
        ensures answer { Answers (variable_refusal self.old) result }
        ensures id { IfOk result (λ x. x ≡ id_at self.old (length self.old.model.vars.items)) }
        ensures declared { OnOk result (Declares self.old self.new
            (record { kind = Set; low = pos 0; up = pos 0 }) (pos 0)) }
        ensures kept { OnErr result (IsUnchanged self.old self.new) }
    {
        let decl = VarDecl {
            kind: VarKind::Set,
            low: 0,
            up: 0,
        };
        self.declare(decl, 0)
    }
}
