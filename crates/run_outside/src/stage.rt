//! An output, solvers and users' constraints beside each other.
use crate::beside::{domain_beside, open_beside, read_beside, restore_beside, snapshot_beside};
use crate::handed::{HandedIn, first_free, give, refusal, take};
use crate::out::Out;
use crate::outside::Outside;
use cbl_base::{Place, Text, VarId};
use ls_events::{Solution, VarChange};
use node_kinds::SolverNode;
use run_solvers::values_of_runs::{Bounds, OutStop, Stop, Value};
use run_solvers::{Beginning, Built, Solvers};
use std::alloc::Global;
use term_model::VarDecl;

/// An output, the solvers of a run, and the users' constraints that were handed in to it.
#[derive(Drop)]
pub struct Stage<O, N: SolverNode> {
    pub out: O,
    pub solvers: Solvers<N>,
    pub users: Vec<HandedIn<N>>,
}

impl<O: Out, N: SolverNode> Outside for Stage<O, N> {
    ghost told = { λ w. record { printed = O.taken w.out; solvers = w.solvers; users = w.users.items } };

    ghost share = { λ w. O.share w.out };

    ghost faults = { λ w. O.faults w.out };

    #[inline]
    fn put(&mut self, bytes: &[u8]) -> Result<(), OutStop> {
        self.out.put(bytes)
    }

    fn make_solver(&mut self, alloc: Global) -> Result<usize, Stop> {
        self.solvers.make(alloc)
    }

    fn read_variable(&self, at: Place, variable: VarId) -> Result<Value, Stop> {
        read_beside(&self.solvers, at, variable)
    }

    fn domain(&self, at: Place, variable: VarId) -> Result<Bounds, Stop> {
        domain_beside(&self.solvers, at, variable)
    }

    fn close(&mut self, at: Place, number: usize) -> Result<(), Stop> {
        self.solvers.close(at, number)
    }

    fn assign(&mut self, at: Place, variable: VarId, number: i64) -> Result<Vec<VarChange>, Stop> {
        self.solvers.assign(at, variable, number)
    }

    fn swap(&mut self, at: Place, x: VarId, y: VarId) -> Result<Vec<VarChange>, Stop> {
        self.solvers.swap(at, x, y)
    }

    fn define(&mut self, at: Place, variable: VarId, built: Built) -> Result<(), Stop> {
        self.solvers.define(at, variable, built)
    }

    fn add_variable(
        &mut self,
        at: Place,
        number: usize,
        decl: VarDecl,
        name: Text,
        beginning: Beginning,
    ) -> Result<VarId, Stop> {
        self.solvers.add(at, number, decl, name, beginning)
    }

    fn open_block(&mut self, at: Place, number: usize) -> Result<bool, Stop> {
        open_beside(&mut self.solvers, at, number)
    }

    fn commit_waiting(&mut self, alloc: Global, number: usize) -> Result<Vec<VarChange>, Stop> {
        self.solvers.commit_waiting(alloc, number)
    }

    fn new_system(&mut self, at: Place, number: usize) -> Result<Value, Stop> {
        self.solvers.new_system(at, number)
    }

    fn new_sum(&mut self, at: Place, number: usize) -> Result<Value, Stop> {
        self.solvers.new_sum(at, number)
    }

    fn new_objective(&mut self, at: Place, built: Built) -> Result<Value, Stop> {
        self.solvers.new_objective(at, built)
    }

    fn post(&mut self, at: Place, whole: &Value, built: Built, weight: i64) -> Result<(), Stop> {
        self.solvers.post(at, whole, built, weight)
    }

    fn take_user(&mut self, at: Place, name: &[u8]) -> Result<usize, Stop> {
        let users = self.users.as_slice();
        let Some(number) = first_free(users, name) else {
            return Err(Stop::Fault(at, refusal(users, name)));
        };
        take(&mut self.users, number);
        Ok(number)
    }

    fn post_user(
        &mut self,
        at: Place,
        whole: &Value,
        taken: usize,
        places: Vec<Built>,
        weight: i64,
    ) -> Result<(), Stop> {
        match give(&mut self.users, taken) {
            Some(node) => self.solvers.post_user(at, whole, node, places, weight),
            None => Err(Stop::NoMemory),
        }
    }

    fn whole_value(&self, at: Place, whole: &Value) -> Result<Value, Stop> {
        self.solvers.whole_value(at, whole)
    }

    fn violations_of(&self, at: Place, whole: &Value, x: VarId) -> Result<Value, Stop> {
        self.solvers.violations_of(at, whole, x)
    }

    fn assign_delta(&self, at: Place, whole: &Value, x: VarId, number: i64) -> Result<Value, Stop> {
        self.solvers.assign_delta(at, whole, x, number)
    }

    fn swap_delta(&self, at: Place, whole: &Value, x: VarId, y: VarId) -> Result<Value, Stop> {
        self.solvers.swap_delta(at, whole, x, y)
    }

    fn snapshot(&self, at: Place, number: usize) -> Result<Solution, Stop> {
        snapshot_beside(&self.solvers, at, number)
    }

    fn restore(&mut self, at: Place, solution: &Solution) -> Result<Vec<VarChange>, Stop> {
        restore_beside(&mut self.solvers, at, solution)
    }
}
