//! Follows nodes through a table of states, and says where one answers otherwise than it should: the word
//! names the table, whose head says how it is written.
//!
//! What a node answers is compared with what the plain functions compute from all inputs, and with the
//! value that stands in the table. The program prints a line for each node, and ends with the status 1 where
//! one differs or where the table isn't in form. It claims nothing of inputs that the table doesn't have.
#![tactic(auto)]

mod answers;
mod from_scratch;
mod given;
mod subject;
mod walk;
mod zeros;

use crate::walk::{Walked, walk_of};
use crate::zeros::NoZeros;
use std::process::ExitCode;
use table_file::{Stop, status_of, table_of};
use user_constraint::UserConstraint;

/// Walks through each node's states, prints what came of it, and says whether all is as it should be.
fn follow_table<R: Print + AllocGlobal>(rt: &R, table: &str) -> Result<bool, Stop> {
    let alloc = rt.alloc();
    let mut nodes = 0u32;
    let mut states = 0usize;
    let mut good = true;
    for block in table.split("\n\n") {
        let block = block.trim();
        if block.is_empty() || block.starts_with('#') {
            continue;
        }
        let (head, rows) = block.split_once('\n').unwrap_or((block, ""));
        let boxed: Box<dyn UserConstraint> = Box::new(alloc, NoZeros::new(alloc))?;
        let walked = match walk_of(alloc, head, rows, boxed) {
            Err(Stop::Form) => Walked::out_of_form(alloc)?,
            walked => walked?,
        };
        nodes = nodes.saturating_add(1);
        states = states.saturating_add(walked.states);
        if walked.differs.is_empty() {
            println!(rt; "ok {head}")?;
        } else {
            good = false;
            println!(rt; "differs {head}{}", walked.differs)?;
        }
    }
    println!(rt; "{nodes} nodes, {states} states")?;
    Ok(good)
}

fn main(rt: HostRuntime) -> ExitCode {
    let good = match table_of(&rt) {
        Ok(table) => follow_table(&rt, table.as_str()),
        Err(stop) => Err(stop),
    };
    status_of(good)
}
