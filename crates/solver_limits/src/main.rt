//! Goes to the limits of a solver: 262,144 variables and 2,097,152 different terms are done, and one more is refused.
#![tactic(auto)]

use cbl_base::{Limit, NoMemory, Place, RunFault, VarId};
use cbl_operations::{NaryOp, Op};
use ls_solver::{Solver, SolverFault};
use node_kinds::{Kind, SolverNode};
use std::alloc::Global;
use std::process::ExitCode;
use term_model::Term;

const SOLVER: u32 = 1;

const VARIABLES: u32 = 262_144;

/// So many sums, each of so many constants that stand nowhere else, have 2,097,152 different terms.
const SUMS: u32 = 32;

const CONSTANTS: u32 = 65_535;

/// How a call ended.
#[derive(Clone, Copy, PartialEq, Eq, Drop)]
enum End {
    Done,
    TooMany(Limit),
    Other,
}

fn ended<T: Drop>(answer: Result<T, SolverFault>) -> End {
    match answer {
        Ok(_) => End::Done,
        Err(SolverFault::Run(RunFault::TooMany(limit))) => End::TooMany(limit),
        Err(_) => End::Other,
    }
}

fn new_var<N: SolverNode>(solver: &mut Solver<N>) -> End {
    if !solver.usable() {
        return End::Other;
    }
    ended(solver.new_var(0, 1, 0))
}

/// Whether so many variables are made.
fn makes<N: SolverNode>(solver: &mut Solver<N>, variables: u32) -> bool {
    for _variable in 0..variables {
        if new_var(solver) != End::Done {
            return false;
        }
    }
    true
}

/// The sum of the constants from this one on.
fn sum_from(alloc: Global, first: u32) -> Result<Term, NoMemory> {
    let mut args = Vec::new(alloc);
    for constant in 0..CONSTANTS {
        args.push(Term::Const(first.saturating_add(constant) as i64))?;
    }
    let place = Place { line: 1, col: 1 };
    let op = Op::Nary(NaryOp::Sum);
    Ok(Term::Node { op, args, place })
}

fn define<N: SolverNode>(solver: &mut Solver<N>, index: u32, term: Term) -> Result<End, NoMemory> {
    let x = VarId {
        solver: SOLVER,
        index,
    };
    if !solver.usable() || !solver.fits(x, &term)? {
        return Ok(End::Other);
    }
    Ok(ended(solver.define(x, term)))
}

/// Whether as many terms as there may be are defined.
fn defines_all<N: SolverNode>(alloc: Global, solver: &mut Solver<N>) -> Result<bool, NoMemory> {
    for sum in 0..SUMS {
        let term = sum_from(alloc, sum.saturating_mul(CONSTANTS))?;
        if define(solver, sum, term)? != End::Done {
            return Ok(false);
        }
    }
    Ok(true)
}

fn go<R: Print + AllocGlobal, N: SolverNode>(rt: &R) -> Result<bool, NoMemory> {
    let alloc = rt.alloc();
    let mut solver = Solver::<N>::new(alloc, SOLVER);
    let made = makes(&mut solver, VARIABLES);
    let one_variable_more = new_var(&mut solver);
    let defined = defines_all(alloc, &mut solver)?;
    let known = define(&mut solver, SUMS, Term::Const(5))?;
    let one_term_more = define(&mut solver, SUMS.saturating_add(1), Term::Const(-1))?;
    let good = made
        && one_variable_more == End::TooMany(Limit::Variables)
        && defined
        && known == End::Done
        && one_term_more == End::TooMany(Limit::TermNodes);
    let _told = println!(rt; "the limits of a solver are as they should be: {good}");
    Ok(good)
}

fn main(rt: HostRuntime) -> ExitCode {
    match go::<HostRuntime, Kind>(&rt) {
        Ok(true) => ExitCode::SUCCESS,
        _ => ExitCode::FAILURE,
    }
}
