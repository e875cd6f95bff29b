//! Draws models of up to 12 variables, and says whether a solver answers as plain recursion over their terms does: the
//! named cycle, the first operation that fails with its place, or the values of all variables, at the close and after
//! each commit, with the changes that the commit tells.
//!
//! The draws are the same in each run. It claims nothing of models that aren't drawn.
#![tactic(auto)]

mod drawn;
mod draws;
mod plain;
mod solved;

use crate::drawn::draw_model;
use crate::draws::Draws;
use crate::solved::{Seen, compare};
use cbl_base::NoMemory;
use node_kinds::{Kind, SolverNode};
use std::process::ExitCode;

/// How many models are drawn.
const MODELS: u32 = 2_000;

/// How often each end must come.
const OFTEN: u32 = 100;

/// How many models ended so.
#[derive(Clone, Copy, Drop)]
struct Counts {
    cycles: u32,
    faults: u32,
    values: u32,
    others: u32,
}

fn counted(counts: Counts, seen: Seen) -> Counts {
    let mut counts = counts;
    match seen {
        Seen::Cycle => counts.cycles = counts.cycles.saturating_add(1),
        Seen::Fault => counts.faults = counts.faults.saturating_add(1),
        Seen::Values => counts.values = counts.values.saturating_add(1),
        Seen::Other => counts.others = counts.others.saturating_add(1),
    }
    counts
}

/// Draws all models, and counts how they ended.
fn draw_all<R: AllocGlobal, N: SolverNode>(rt: &R) -> Result<Counts, NoMemory> {
    let alloc = rt.alloc();
    let mut draws = Draws::new(2_026);
    let mut counts = Counts {
        cycles: 0,
        faults: 0,
        values: 0,
        others: 0,
    };
    for _model in 0..MODELS {
        let variables = draws.below(12).saturating_add(1);
        let model = draw_model(alloc, &mut draws, variables)?;
        let seen = compare::<N>(alloc, &mut draws, &model)?;
        counts = counted(counts, seen);
    }
    Ok(counts)
}

/// Prints whether each end came often, and whether a solver answered otherwise.
fn report<R: Print + AllocGlobal, N: SolverNode>(rt: &R) -> Result<bool, NoMemory> {
    let counts = draw_all::<R, N>(rt)?;
    let often = counts.cycles >= OFTEN && counts.faults >= OFTEN && counts.values >= OFTEN;
    let _told = println!(rt;
        "cycles, faults and values often: {often}, other answers: {}",
        counts.others
    );
    Ok(often && counts.others == 0)
}

fn main(rt: HostRuntime) -> ExitCode {
    match report::<HostRuntime, Kind>(&rt) {
        Ok(true) => ExitCode::SUCCESS,
        _ => ExitCode::FAILURE,
    }
}
