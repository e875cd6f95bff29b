//! What is read of a solver.
ghost use Rattle.std.specs.Prelude.{◌≡◌, Some, IfErr};
ghost use Rattle.cbl_base.specs.Inputs.{number_kind, set_kind};
ghost use Rattle.comet_meaning.specs.Models.{domain_at};
ghost use Rattle.comet_meaning.specs.Parts.{variable_value};
ghost use Rattle.comet_meaning.specs.State.{State};
ghost use Rattle.comet_meaning.specs.Values as values;
ghost use Rattle.ls_solver.specs.Asking.{own_kind};
ghost use Rattle.run_solvers.specs.Kept.{IsKept};
ghost use Rattle.run_solvers.specs.Views.{held_seen};
ghost use Rattle.run_values.specs.Did.{Did, IsFaultOrMemory};
ghost use Rattle.run_values.specs.Views.{bounds_seen, value_seen};

use crate::held::Held;
use crate::refusals::stop_of;
use cbl_base::{IntSet, Place, RunFault, VarId};
use node_kinds::SolverNode;
use run_values::{Bounds, Stop, Value};
use term_model::VarKind;

impl<N: SolverNode> Held<N> {
    /// The value of the variable at an index, which is read at a place. `WrongSolver` there exactly where there is no such
    /// variable, and `NotClosed` exactly where only a closed solver has its value.
    pub(crate) fn read(&self, at: Place, index: u32) -> Result<Value, Stop>
        requires { IsKept self.now }
        ensures did { (s : State) → Did value_seen result s
            (variable_value at index (held_seen self.now) s) }
        ensures stop { IfErr result IsFaultOrMemory }
    {
        let variable = self.own(index);
        match self.solver.kind(variable) {
            None => Err(Stop::Fault(at, RunFault::WrongSolver)),
            Some(VarKind::Number) => self.read_number(at, variable),
            Some(VarKind::Set) => self.read_set(at, variable),
        }
    }

    /// The value of a whole-number variable.
    fn read_number(&self, at: Place, variable: VarId) -> Result<Value, Stop>
        requires kept { IsKept self.now }
        requires kind { own_kind self.now.solver variable ≡ Some number_kind }
        ensures did { (s : State) → Did value_seen result s
            (variable_value at variable.index (held_seen self.now) s) }
        ensures stop { IfErr result IsFaultOrMemory }
    {
        match self.solver.value(variable) {
            Ok(number) => Ok(Value::Number(number)),
            Err(fault) => Err(stop_of(self.alloc, at, &self.names, fault)),
        }
    }

    /// The value of a set variable.
    fn read_set(&self, at: Place, variable: VarId) -> Result<Value, Stop>
        requires kept { IsKept self.now }
        requires kind { own_kind self.now.solver variable ≡ Some set_kind }
        ensures did { (s : State) → Did value_seen result s
            (variable_value at variable.index (held_seen self.now) s) }
        ensures stop { IfErr result IsFaultOrMemory }
    {
        match self.solver.set_value(variable) {
            Ok(members) => {
                let copy = IntSet::from_slice(self.alloc, members.as_slice())?;
                Ok(Value::Set(copy))
            }
            Err(fault) => Err(stop_of(self.alloc, at, &self.names, fault)),
        }
    }

    /// The domain of the variable at an index, which is asked at a place. `WrongSolver` there exactly where there is no
    /// such variable.
    pub(crate) fn domain(&self, at: Place, index: u32) -> Result<Bounds, Stop>
        requires { IsKept self.now }
        ensures did { (s : State) → Did (λ d. values.Range (bounds_seen d)) result s
            (domain_at at (record { solver = self.now.number; index = index })
            (held_seen self.now) s) }
        ensures stop { IfErr result IsFaultOrMemory }
    {
        match self.solver.domain(self.own(index)) {
            Ok((low, up)) => Ok(Bounds { low, up }),
            Err(fault) => Err(stop_of(self.alloc, at, &self.names, fault)),
        }
    }
}
