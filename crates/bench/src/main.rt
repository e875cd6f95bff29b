//! Benchmarks, by the first word: `nodes SIZE..` times one probe and one apply of one change for each kind of
//! node, `plan ITEMS EACH KIND` plans made-up dependencies, `store QUEENS..` times probes and commits of a store,
//! and `journal ENTRIES..` the printing and the reading of journals. Without words it does nothing.
#![tactic(auto)]

mod draws;
mod journal;
mod nodes;
mod planning;
mod stop;
mod store;

use crate::journal::time_journals;
use crate::nodes::time_nodes;
use crate::planning::time_plan;
use crate::stop::Stop;
use crate::store::time_stores;
use std::env;
use std::process::ExitCode;

/// Runs the benchmark that the words name.
fn run(rt: &HostRuntime, words: &[String]) -> Result<(), Stop> {
    let Some(name) = words.first() else {
        return Ok(());
    };
    match name.as_str() {
        "nodes" => time_nodes(rt, &words[1..]),
        "plan" => time_plan(rt, &words[1..]),
        "store" => time_stores(rt, &words[1..]),
        "journal" => time_journals(rt, &words[1..]),
        _ => Err(Stop::Words),
    }
}

fn main(rt: HostRuntime) -> ExitCode {
    let Ok(words) = env::args(&rt) else {
        return ExitCode::FAILURE;
    };
    let Ok(words) = words.skip(1).collect::<Vec<String>>(rt.alloc()) else {
        return ExitCode::FAILURE;
    };
    match run(&rt, words.as_slice()) {
        Ok(()) => ExitCode::SUCCESS,
        Err(_) => ExitCode::FAILURE,
    }
}
