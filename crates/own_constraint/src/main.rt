//! A constraint of one's own, and a program in Comet that posts it.
//!
//! `main` puts a program into memory, makes the constraint `rest`, hands both to `comet_run`, and writes what
//! the program printed. It knows nothing of how a program runs. docs/USERS.md goes through it.
#![tactic(auto)]

mod rest;

use crate::rest::Rest;
use cbl_base::NoMemory;
use cbl_io::{MemFiles, MemSink, RealSink, Sink, write_all};
use comet::{Cause, comet_run};
use std::alloc::Global;
use std::process::ExitCode;
use user_constraint::UserConstraint;

/// A week is planned: the best move is made until all is as it should be.
const WEEK: &[u8] = b"// A week of shifts of one person: 0 is off, 1 a day shift, 2 a night shift.
range Week = 1..7;
Solver<LS> m();
var{int} day[Week](m, 0..2) := [2, 1, 1, 1, 1, 1, 1];
ConstraintSystem<LS> S(m);
S.post(user(\"rest\", day));          // no day shift right behind a night shift
S.post(exactly([2, 3, 2], day));     // two days off, three day shifts, two night shifts
m.close();
cout << day << \" violations \" << S.violations() << \", shares \" << all(d in Week) S.violations(day[d]) << endl;

int moves = 0;
while (S.violations() > 0 && moves < 20) {
    // the first of the moves that make most better
    int best = 0;
    int shift = 0;
    int least = 0;
    forall (d in Week, s in 0..2 : s != day[d]) {
        int delta = S.getAssignDelta(day[d], s);
        if (best == 0 || delta < least) {
            best = d;
            shift = s;
            least = delta;
        }
    }
    day[best] := shift;
    moves++;
    cout << day << \" violations \" << S.violations() << \", delta \" << least << endl;
}

// a check that knows nothing of the model
int short = 0;
forall (d in 2..7 : day[d - 1] == 2 && day[d] == 1)
    short++;
cout << \"short rests: \" << short << \", night shifts: \" << count(day, 2) << endl;
";

fn main(rt: HostRuntime) -> ExitCode {
    let mut out = RealSink::new(rt.stdout());
    let mut err = RealSink::new(rt.stderr());
    match plan(rt.alloc(), &mut out, &mut err) {
        Ok(status) => ExitCode::from(status),
        Err(NoMemory) => ExitCode::from(Cause::NoMemory.status()),
    }
}

/// Runs the program over memory with the constraint, writes what it printed, and gives the run's status.
fn plan<O: Sink, E: Sink>(alloc: Global, out: &mut O, err: &mut E) -> Result<u8, NoMemory> {
    let words = vec![in alloc; String::from_str(alloc, "week")?]?;
    let week = (String::from_str(alloc, "week")?, WEEK.to_vec(alloc)?);
    let mut files = MemFiles::new(alloc, vec![in alloc; week]?, Vec::new(alloc));
    let mut printed = MemSink::new(alloc, 4096, 4096, Vec::new(alloc))?;
    let rest: Box<dyn UserConstraint> = Box::new(alloc, Rest::new(alloc))?;
    let users = vec![in alloc; rest]?;
    let report = comet_run(
        alloc,
        words.as_slice(),
        &mut files,
        &mut printed,
        err,
        users,
    );
    match write_all(out, printed.bytes()) {
        Ok(()) => Ok(report.status),
        Err(_) => Ok(Cause::Write.status()),
    }
}
