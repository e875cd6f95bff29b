//! The top call.
ghost use Rattle.std.specs.Prelude.{◌≡◌, ◌≢◌, []};
ghost use Rattle.cbl_io.specs.Appended.{Appends, AppendsFront};
ghost use Rattle.cbl_io.specs.Faults.{HasRisen};
ghost use Rattle.checked_tree.specs.Tasks.{program_of};
ghost use Rattle.comet_meaning.specs.Program as programs;
ghost use Rattle.comet_words.specs.View.{texts};
ghost use Rattle.stmt_run.specs.OfRunOutside.HandedIn.{users_seen};
ghost use Rattle.stmt_run.specs.OfRunStanding.Seen.{standing_seen};
ghost use Rattle.comet.specs.Headline.{JobHeadline, RunHeadline, taken};
ghost use Rattle.comet.specs.Line.{line_of};
ghost use Rattle.comet.specs.Output.{Decides, meant_with, start_with};
ghost use Rattle.comet.specs.Status.{cause_of, status_of};

use crate::job::{Job, front};
use crate::line::say;
use crate::report::{Cause, Report};
use cbl_base::NoMemory;
use cbl_io::{Files, Sink};
use checked_tree::Checked;
use node_kinds::SolverNode;
use std::alloc::Global;
use stmt_run::outside_of_runs::{HandedIn, handed_in};
use stmt_run::standing_of_runs::Standing;
use stream_run::run_to_sink;
use user_constraint::LocalConstraint;

/// Runs the program whose file the words name, writes what it prints to `out`, and a line that tells why
/// it ended, where it isn't done, to `err`. The program posts the constraints in `users` by their names, in the order in
/// which they are handed in; they are dropped with the run. A fault of `err` changes nothing else.
pub fn comet_run<F: Files, O: Sink, E: Sink, U: LocalConstraint>(
    alloc: Global,
    words: &[String],
    files: &mut F,
    out: &mut O,
    err: &mut E,
    users: Vec<U>,
) -> Report
    ensures headline { RunHeadline (users_seen U.user_name U.user_rule users.items) (texts words.now) (F.held files.old) (F.faults files.old) (F.faults files.new) result
        (taken (O.bytes out.old) (O.faults out.old)) (taken (O.bytes out.new) (O.faults out.new))
        (taken (E.bytes err.old) (E.faults err.old)) (taken (E.bytes err.new) (E.faults err.new)) }
{
    match front(alloc, words, files) {
        Ok(job) => run_still(alloc, job, out, err, users),
        Err(cause) => refuse(cause, err),
    }
}

/// Runs a job, which waits for nobody, with these users' constraints, writes what it prints to `out`, and a line that tells
/// why it ended, where it isn't done, to `err`. A fault of `err` changes nothing else.
pub fn run_still<O: Sink, E: Sink, U: LocalConstraint>(
    alloc: Global,
    job: Job,
    out: &mut O,
    err: &mut E,
    users: Vec<U>,
) -> Report
    ensures headline { JobHeadline (users_seen U.user_name U.user_rule users.items) (program_of job.program) job.seed job.fuel job.data.items result
        (taken (O.bytes out.old) (O.faults out.old)) (taken (O.bytes out.new) (O.faults out.new))
        (taken (E.bytes err.old) (E.faults err.old)) (taken (E.bytes err.new) (E.faults err.new)) }
{
    let text = job.data;
    let report = run_to(alloc, &job.program, job.seed, job.fuel, text, users, out);
    say(&report.cause, err);
    report
}

/// Says why there is nothing to run.
fn refuse<E: Sink>(cause: Cause, err: &mut E) -> Report
    ensures cause { result.cause ≡ cause }
    ensures status { result.status ≡ status_of result.cause }
    ensures said { ¬ HasRisen (E.faults err.old) (E.faults err.new) →
        Appends (E.bytes err.old) (E.bytes err.new) (line_of result.cause) }
    ensures said_front { AppendsFront (E.bytes err.old) (E.bytes err.new) (line_of result.cause) }
{
    say(&cause, err);
    Report::of(cause)
}

/// The start of a run with this seed, this fuel, this data and these users' constraints.
fn begin<N: SolverNode>(
    alloc: Global,
    seed: u64,
    fuel: u64,
    text: Vec<u8>,
    users: Vec<HandedIn<N>>,
) -> Standing<N>
    ensures { standing_seen result [] ≡ start_with users.items seed fuel text.items }
{
    Standing::new(alloc, seed, fuel, text, users)
}

/// Runs a program with this seed, this fuel, this data and these users' constraints, and writes what it prints as it comes,
/// whatever way it ends.
fn run_to<O: Sink, U: LocalConstraint>(
    alloc: Global,
    program: &Checked,
    seed: u64,
    fuel: u64,
    text: Vec<u8>,
    users: Vec<U>,
    out: &mut O,
) -> Report
    ensures status { result.status ≡ status_of result.cause }
    ensures ran { (result.status ≢ 1) × (result.status ≢ 8) }
    ensures exact { Decides result.status →
        (result.cause ≡ cause_of (meant_with (users_seen U.user_name U.user_rule users.items) (program_of program.now) seed fuel text.items).end)
        × Appends (O.bytes out.old) (O.bytes out.new) (meant_with (users_seen U.user_name U.user_rule users.items) (program_of program.now) seed fuel text.items).printed }
    ensures front { AppendsFront (O.bytes out.old) (O.bytes out.new)
        (meant_with (users_seen U.user_name U.user_rule users.items)
        (program_of program.now) seed fuel text.items).printed }
    ensures write { result.status ≡ 9 → HasRisen (O.faults out.old) (O.faults out.new) }
{
    match handed_in(alloc, users) {
        Ok(users) => run_from(alloc, program, begin(alloc, seed, fuel, text, users), out),
        Err(NoMemory) => Report::of(Cause::NoMemory),
    }
}

/// Runs a program from a state on, and writes what it prints as it comes, whatever way it ends.
fn run_from<O: Sink, N: SolverNode>(
    alloc: Global,
    program: &Checked,
    standing: Standing<N>,
    out: &mut O,
) -> Report
    ensures status { result.status ≡ status_of result.cause }
    ensures ran { (result.status ≢ 1) × (result.status ≢ 8) }
    ensures exact { Decides result.status →
        (result.cause ≡ cause_of (programs.run (program_of program.now) (standing_seen standing [])).end)
        × Appends (O.bytes out.old) (O.bytes out.new) (programs.run (program_of program.now) (standing_seen standing [])).printed }
    ensures front { AppendsFront (O.bytes out.old) (O.bytes out.new)
        (programs.run (program_of program.now) (standing_seen standing [])).printed }
    ensures write { result.status ≡ 9 → HasRisen (O.faults out.old) (O.faults out.new) }
{
    Report::of(Cause::from(run_to_sink(alloc, program, standing, out)))
}
