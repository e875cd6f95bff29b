//! The run of a checked program.
ghost use Rattle.std.specs.Prelude.{◌≡◌, true};
ghost use Rattle.cbl_io.specs.Faults.{HasRisen};
ghost use Rattle.checked_tree.specs.Tasks.{program_of};
ghost use Rattle.comet_meaning.specs.Program as programs;
ghost use Rattle.interpreter.specs.OfRunSteps.Does.{Does};
ghost use Rattle.interpreter.specs.OfRunSteps.Views.{flow_seen};
ghost use Rattle.run_standing.specs.Seen.{standing_seen};
ghost use Rattle.run_standing.specs.OfRunState.Views.{state_seen};
ghost use Rattle.stmt_run.specs.Ending.{EndsAs, end_seen, output_end};
ghost use Rattle.stmt_run.specs.declared.execution.RunEnd.TheVariants.{Write};

use crate::counted::CountedOut;
use cbl_base::{Names, Place, RunFault};
use checked_tree::Checked;
use interpreter::{Code, Flow, run as run_tasks};
use node_kinds::SolverNode;
use program_forms::pure_functions;
use run_standing::Standing;
use run_standing::state_of_runs::{Outside, Stage, State};
use run_values::{OutStop, Stop};
use std::alloc::Global;

/// How a run ends.
#[derive(Drop, Debug)]
pub enum RunEnd {
    /// The program ran to its end.
    Done,
    /// A cycle of definitions at this `close`, with the names of its variables in order.
    Cyclic(Place, Names),
    /// A fault, with its place.
    Run(Place, RunFault),
    /// The fuel is spent, at this place.
    Spent(Place),
    NoMemory,
    /// The output failed.
    Write,
}

/// What a run leaves: its end, the fuel that it didn't use, the state, and the output.
#[derive(Drop)]
pub struct Ended<O, N: SolverNode> {
    pub end: RunEnd,
    pub fuel: u64,
    pub standing: Standing<N>,
    pub out: O,
}

/// Runs a program from this state on, and adds what it prints to `out`, which it gives back. The end, the fuel that is left
/// and all that the output then has taken are those of the program's meaning; with `NoMemory` and `Write` what it has taken
/// is a front of that. `Write` comes only where the output failed in this call.
pub fn run<O: CountedOut, N: SolverNode>(
    alloc: Global,
    program: &Checked,
    standing: Standing<N>,
    out: O,
) -> Ended<O, N>
    ensures meant { EndsAs result.end result.fuel (O.taken result.out)
        (programs.run (program_of program.now) (standing_seen standing (O.taken out))) }
    ensures failed { result.end ≡ Write → HasRisen (O.faults out) (O.faults result.out) }
    ensures fuel { result.fuel ≡ result.standing.state.fuel }
{
    let Standing {
        mut state,
        solvers,
        users,
    } = standing;
    let failures = out.failures();
    let mut stage = Stage {
        out,
        solvers,
        users,
    };
    let flow = execute(alloc, program, &mut state, &mut stage);
    let Stage {
        out,
        solvers,
        users,
    } = stage;
    let end = end_of(flow, has_risen(failures, out.failures()));
    Ended {
        end,
        fuel: state.fuel,
        standing: Standing {
            state,
            solvers,
            users,
        },
        out,
    }
}

/// Whether a count of failures has risen. One that can't rise any more counts as risen.
fn has_risen(old: u64, new: u64) -> bool
    ensures { result ≡ true → HasRisen old new }
{
    old < new || new == u64::MAX
}

/// How a run ends whose statements ended so, where its output failed or didn't.
fn end_of(flow: Result<Flow, Stop>, failed: bool) -> RunEnd
    ensures { result ≡ end_seen flow failed }
{
    match flow {
        Ok(_) => RunEnd::Done,
        Err(Stop::Cyclic(place, names)) => RunEnd::Cyclic(place, names),
        Err(Stop::Fault(place, fault)) => RunEnd::Run(place, fault),
        Err(Stop::Spent(place)) => RunEnd::Spent(place),
        Err(Stop::NoMemory) => RunEnd::NoMemory,
        Err(Stop::Output(stop)) => end_of_output(stop, failed),
    }
}

/// How a run ends whose output stopped so. One that tells of no failure has none.
fn end_of_output(stop: OutStop, failed: bool) -> RunEnd
    ensures { result ≡ output_end stop failed }
{
    match (stop, failed) {
        (OutStop::Failed, true) => RunEnd::Write,
        _ => RunEnd::NoMemory,
    }
}

/// Executes the top statements of a program in order.
fn execute<O: Outside>(
    alloc: Global,
    program: &Checked,
    s: &mut State,
    out: &mut O,
) -> Result<Flow, Stop>
    ensures { Does flow_seen result (state_seen s.new (O.told out.new))
        (programs.meaning_of_program (program_of program.now) (state_seen s.old (O.told out.old))) }
{
    let pure = pure_functions(alloc, program.functions.as_slice())?;
    let code = Code::new(alloc, program.functions.as_slice(), pure.as_slice())?;
    run_tasks(s, out, &code, program.tasks.as_slice())
}
