//! Runs whose output goes to a sink as it comes.
ghost use Rattle.std.specs.Prelude.{◌≡◌, [], is_ok};
ghost use Rattle.cbl_io.specs.Faults.{HasRisen};
ghost use Rattle.checked_tree.specs.Tasks.{program_of};
ghost use Rattle.comet_meaning.specs.Program as programs;
ghost use Rattle.run_standing.specs.Seen.{standing_seen};
ghost use Rattle.stmt_run.specs.declared.execution.RunEnd.TheVariants.{Write};
ghost use Rattle.stream_run.specs.Streamed.{StreamsAs, ended_with};

use crate::buffered::{Begin, Buffered, OUTPUT_ROOM};
use crate::told::Told;
use crate::wire::{Lent, Wire};
use cbl_io::Sink;
use checked_tree::Checked;
use node_kinds::SolverNode;
use run_standing::Standing;
use run_values::OutStop;
use std::alloc::Global;
use std::marker::{Brand, PhantomData};
use stmt_run::{RunEnd, run};

/// Runs a program from this state on, and writes what it prints to the sink, through a buffer of 65,536 bytes, which is written
/// when it is full and when the run ends, whatever way that is. The end and the bytes that the sink gets are those of
/// the program's meaning; with `NoMemory` and `Write` the bytes are a front of these. `Write` comes only where a
/// write failed, behind which nothing more is written.
pub fn run_to_sink<S: Sink, N: SolverNode>(
    alloc: Global,
    program: &Checked,
    standing: Standing<N>,
    sink: &mut S,
) -> RunEnd
    ensures meant { StreamsAs result (S.bytes sink.old) (S.bytes sink.new)
        (programs.run (program_of program.now) (standing_seen standing [])) }
    ensures failed { result ≡ Write → HasRisen (S.faults sink.old) (S.faults sink.new) }
{
    let Ok(waiting) = Vec::with_capacity(alloc, OUTPUT_ROOM) else {
        return RunEnd::NoMemory;
    };
    let mut end = RunEnd::NoMemory;
    let lent = Lent { sink };
    let _ = run_lent::<S, N, Brand>(alloc, program, standing, lent, waiting, &mut end);
    end
}

/// The same to a sink that is lent, with this buffer: it gives the sink back, and the end is put where that is wanted.
fn run_lent<'a, S: Sink, N: SolverNode, B: Begin>(
    alloc: Global,
    program: &Checked,
    standing: Standing<N>,
    lent: Lent<'a, S>,
    waiting: Vec<u8>,
    end: &mut RunEnd,
) -> Lent<'a, S>
    requires lender { lent.sink.ghost_name ≡ B.lender }
    requires bytes { S.bytes lent.sink.now ≡ B.bytes }
    requires faults { S.faults lent.sink.now ≡ B.faults }
    requires empty { waiting.items ≡ [] }
    ensures same { result.sink.ghost_name ≡ lent.entry.sink.ghost_name }
    ensures meant { StreamsAs end.new B.bytes (S.bytes result.sink.now)
        (programs.run (program_of program.now) (standing_seen standing [])) }
    ensures failed { end.new ≡ Write → HasRisen B.faults (S.faults result.sink.now) }
{
    let buffered: Buffered<'a, S, B> = Buffered {
        wire: Wire {
            lent,
            told: Told::new(),
        },
        waiting,
        sent: 0,
        failures: 0,
        of: PhantomData,
    };
    let ended = run(alloc, program, standing, buffered);
    let (wire, written) = ended.out.finish();
    *end = end_with(ended.end, written);
    let Wire { lent, told: _ } = wire;
    lent
}

/// The end of a run behind the last write. A run that ends by its output has had a write that failed.
fn end_with(end: RunEnd, written: Result<(), OutStop>) -> RunEnd
    ensures { result ≡ ended_with end (is_ok written) }
{
    match (end, written) {
        (_, Err(_)) => RunEnd::Write,
        (RunEnd::Write, Ok(())) => RunEnd::NoMemory,
        (end, Ok(())) => end,
    }
}
