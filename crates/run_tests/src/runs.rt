//! Whole runs over memory: what the files of `examples/` can't hold, and a run that should succeed.
ghost use Rattle.std.specs.Prelude.{◌<◌};

use cbl_base::Place;
use cbl_io::{MemFiles, MemSink};
use comet::{Cause, Report, comet_run, say};
use comet_syntax::FormCause;
use std::alloc::Global;
use std::test::Fail;
use user_constraint::UserConstraint;

const SQUARE: &[u8] = b"Solver<LS> m(); var{int} x(m) := 3; var{int} y(m) <- x*x+1; m.close();
cout << y << endl; x := 5; cout << y << endl;";

const PLACE: Place = Place { line: 1, col: 1 };

/// What a run over memory left.
#[derive(Drop)]
struct Left {
    report: Report,
    sink: MemSink,
    err: MemSink,
}

/// Runs these words where the file `p` holds this text and the file `d` the number 7, over a sink that takes
/// `most` bytes a call and fails the listed calls.
fn run_words(
    alloc: Global,
    words: &[String],
    text: &[u8],
    most: usize,
    failing: Vec<u64>,
) -> Result<Left, Fail>
    requires { 0 < most }
{
    let name = String::from_str(alloc, "p")?;
    let data_name = String::from_str(alloc, "d")?;
    let data = b"7".to_vec(alloc)?;
    let entries = vec![in alloc; (name, text.to_vec(alloc)?), (data_name, data)]?;
    let mut files = MemFiles::new(alloc, entries, Vec::new(alloc));
    let mut sink = MemSink::new(alloc, 131_072, most, failing)?;
    let mut err = MemSink::new(alloc, 4096, 4096, Vec::new(alloc))?;
    let users: Vec<Box<dyn UserConstraint>> = Vec::new(alloc);
    let report = comet_run(alloc, words, &mut files, &mut sink, &mut err, users);
    Ok(Left { report, sink, err })
}

/// The place and the cause of a text that is refused by its form.
fn form_fault(cause: &Cause) -> Option<(Place, FormCause)> {
    match cause {
        Cause::IllFormed(place, form) => Some((*place, *form)),
        _ => None,
    }
}

fn run_text(alloc: Global, text: &[u8]) -> Result<Left, Fail> {
    run_over(alloc, text, 131_072, Vec::new(alloc))
}

/// The same over a sink that takes `most` bytes a call and fails the listed calls.
fn run_over(alloc: Global, text: &[u8], most: usize, failing: Vec<u64>) -> Result<Left, Fail>
    requires { 0 < most }
{
    let words = vec![in alloc; String::from_str(alloc, "p")?]?;
    run_words(alloc, words.as_slice(), text, most, failing)
}

#[test]
fn square_invariant(rt: HostRuntime) -> Result<(), Fail> {
    let left = run_text(rt.alloc(), SQUARE)?;
    assert_eq!(rt; left.report.status, 0);
    assert!(rt; matches!(left.report.cause, Cause::Done));
    assert!(rt; left.sink.bytes() == b"10\n26\n".as_slice());
    assert!(rt; left.err.bytes().is_empty());
    Ok(())
}

#[test]
fn partial_writes_and_a_failing_sink(rt: HostRuntime) -> Result<(), Fail> {
    let alloc = rt.alloc();
    let words = vec![in alloc; String::from_str(alloc, "p")?]?;
    let left = run_words(alloc, words.as_slice(), SQUARE, 3, vec![in alloc; 1]?)?;
    assert_eq!(rt; left.report.status, 9);
    assert!(rt; matches!(left.report.cause, Cause::Write));
    assert!(rt; left.sink.bytes() == b"10\n".as_slice());
    assert!(rt; left.err.bytes() == b"comet: cannot write\n".as_slice());
    Ok(())
}

/// A sink that takes a byte a call has got a byte for each call before the one that fails.
#[test]
fn a_sink_that_fails_has_got_what_came_before(rt: HostRuntime) -> Result<(), Fail> {
    let alloc = rt.alloc();
    let printed = b"10\n26\n".as_slice();
    for call in 0..7u64 {
        let left = run_over(alloc, SQUARE, 1, vec![in alloc; call]?)?;
        let got = printed.len().min(call as usize);
        assert_eq!(rt; left.report.status, if got < printed.len() { 9 } else { 0 });
        assert!(rt; left.sink.bytes() == &printed[..got]);
    }
    Ok(())
}

/// A program whose output has so many bytes and is written in so many calls.
struct Block {
    text: &'static [u8],
    bytes: usize,
    calls: u64,
}

/// A full buffer is written at once, and what is left at the end, also where the run ends by a fault.
static BLOCKS: [Block; 4] = [
    Block {
        text: b"int n = 0; while (n < 8192) { cout << \"12345678\"; n++; }",
        bytes: 65_536,
        calls: 1,
    },
    Block {
        text: b"int n = 0; while (n < 8192) { cout << \"12345678\"; n++; } cout << 9;",
        bytes: 65_537,
        calls: 2,
    },
    Block {
        text: b"int n = 0; while (n < 8192) { cout << \"12345678\"; n++; } cout << 9; n = 1 / 0;",
        bytes: 65_537,
        calls: 2,
    },
    Block {
        text: b"",
        bytes: 0,
        calls: 0,
    },
];

#[test]
fn output_is_written_in_blocks(rt: HostRuntime) -> Result<(), Fail> {
    let alloc = rt.alloc();
    for block in &BLOCKS {
        let left = run_over(alloc, block.text, 131_072, vec![in alloc; block.calls]?)?;
        assert!(rt; left.report.status != 9);
        assert_eq!(rt; left.sink.bytes().len(), block.bytes);
        if let Some(last) = block.calls.checked_sub(1) {
            let left = run_over(alloc, block.text, 131_072, vec![in alloc; last]?)?;
            assert_eq!(rt; left.report.status, 9);
            assert_eq!(rt; left.sink.bytes().len(), 65_536 * last as usize);
        }
    }
    Ok(())
}

/// Texts that are no UTF-8, or too long, and the lines that tell why they are refused.
#[test]
fn texts_that_no_file_of_cases_holds(rt: HostRuntime) -> Result<(), Fail> {
    let left = run_text(rt.alloc(), b"x\n\xff".as_slice())?;
    assert_eq!(rt;
        form_fault(&left.report.cause),
        Some((Place { line: 2, col: 1 }, FormCause::Encoding))
    );
    assert!(rt; left.err.bytes() == b"comet: 2:1: not UTF-8\n".as_slice());
    let too_long = vec![in rt.alloc(); b' '; 1024 * 1024 + 1]?;
    let left = run_text(rt.alloc(), too_long.as_slice())?;
    assert_eq!(rt;
        form_fault(&left.report.cause),
        Some((PLACE, FormCause::TooLong))
    );
    assert!(rt; left.err.bytes() == b"comet: 1:1: text too long\n".as_slice());
    Ok(())
}

#[test]
fn a_failing_standard_error_has_a_front_of_the_line(rt: HostRuntime) -> Result<(), Fail> {
    // `come` and `t: ` are taken, `no m` is taken, and the fourth write fails
    let mut err = MemSink::new(rt.alloc(), 4096, 4, vec![in rt.alloc(); 3]?)?;
    say(&Cause::NoMemory, &mut err);
    assert!(rt; err.bytes() == b"comet: no m".as_slice());
    Ok(())
}
