//! Solvers that are asked, and not changed.
ghost use Rattle.std.specs.Prelude.{[], None};

use cbl_base::{Place, Text, VarId};
use ls_events::{Solution, VarChange};
use node_kinds::SolverNode;
use run_outside::Outside;
use run_outside::solvers_of_runs::{Beginning, Built, Solvers};
use run_solvers::values_of_runs::{Bounds, OutStop, Stop, Value};
use std::alloc::Global;
use term_model::VarDecl;

/// The solvers of a run, which are lent, without an output and users' constraints. All that would change a solver, print
/// or take a constraint answers want of memory, and nothing changes.
#[derive(Drop)]
pub struct Watch<'a, N: SolverNode> {
    pub solvers: &'a Solvers<N>,
}

impl<N: SolverNode> Outside for Watch<'_, N> {
    ghost told = { λ w. record { printed = []; solvers = w.solvers.now; users = [] } };

    ghost share = { λ w. None };

    ghost faults = { λ w. 0 };

    #[inline]
    fn put(&mut self, _bytes: &[u8]) -> Result<(), OutStop> {
        Err(OutStop::NoMemory)
    }

    fn make_solver(&mut self, _alloc: Global) -> Result<usize, Stop> {
        Err(Stop::NoMemory)
    }

    fn read_variable(&self, at: Place, variable: VarId) -> Result<Value, Stop> {
        self.solvers.read(at, variable)
    }

    fn domain(&self, at: Place, variable: VarId) -> Result<Bounds, Stop> {
        self.solvers.domain(at, variable)
    }

    fn close(&mut self, _at: Place, _number: usize) -> Result<(), Stop> {
        Err(Stop::NoMemory)
    }

    fn assign(
        &mut self,
        _at: Place,
        _variable: VarId,
        _number: i64,
    ) -> Result<Vec<VarChange>, Stop> {
        Err(Stop::NoMemory)
    }

    fn swap(&mut self, _at: Place, _x: VarId, _y: VarId) -> Result<Vec<VarChange>, Stop> {
        Err(Stop::NoMemory)
    }

    fn define(&mut self, _at: Place, _variable: VarId, _built: Built) -> Result<(), Stop> {
        Err(Stop::NoMemory)
    }

    fn add_variable(
        &mut self,
        _at: Place,
        _number: usize,
        _decl: VarDecl,
        _name: Text,
        _beginning: Beginning,
    ) -> Result<VarId, Stop> {
        Err(Stop::NoMemory)
    }

    fn open_block(&mut self, _at: Place, _number: usize) -> Result<bool, Stop> {
        Err(Stop::NoMemory)
    }

    fn commit_waiting(&mut self, _alloc: Global, _number: usize) -> Result<Vec<VarChange>, Stop> {
        Err(Stop::NoMemory)
    }

    fn new_system(&mut self, _at: Place, _number: usize) -> Result<Value, Stop> {
        Err(Stop::NoMemory)
    }

    fn new_sum(&mut self, _at: Place, _number: usize) -> Result<Value, Stop> {
        Err(Stop::NoMemory)
    }

    fn new_objective(&mut self, _at: Place, _built: Built) -> Result<Value, Stop> {
        Err(Stop::NoMemory)
    }

    fn post(
        &mut self,
        _at: Place,
        _whole: &Value,
        _built: Built,
        _weight: i64,
    ) -> Result<(), Stop> {
        Err(Stop::NoMemory)
    }

    fn take_user(&mut self, _at: Place, _name: &[u8]) -> Result<usize, Stop> {
        Err(Stop::NoMemory)
    }

    fn post_user(
        &mut self,
        _at: Place,
        _whole: &Value,
        _taken: usize,
        _places: Vec<Built>,
        _weight: i64,
    ) -> Result<(), Stop> {
        Err(Stop::NoMemory)
    }

    fn whole_value(&self, at: Place, whole: &Value) -> Result<Value, Stop> {
        self.solvers.whole_value(at, whole)
    }

    fn violations_of(&self, at: Place, whole: &Value, x: VarId) -> Result<Value, Stop> {
        self.solvers.violations_of(at, whole, x)
    }

    fn assign_delta(&self, at: Place, whole: &Value, x: VarId, number: i64) -> Result<Value, Stop> {
        self.solvers.assign_delta(at, whole, x, number)
    }

    fn swap_delta(&self, at: Place, whole: &Value, x: VarId, y: VarId) -> Result<Value, Stop> {
        self.solvers.swap_delta(at, whole, x, y)
    }

    fn snapshot(&self, at: Place, number: usize) -> Result<Solution, Stop> {
        self.solvers.snapshot(at, number)
    }

    fn restore(&mut self, _at: Place, _solution: &Solution) -> Result<Vec<VarChange>, Stop> {
        Err(Stop::NoMemory)
    }
}
