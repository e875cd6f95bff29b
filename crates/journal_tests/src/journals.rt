//! One journal in each version of the text, printed and read, and with its lines removed, doubled and changed.
use best_monitor::{Reply, Request};
use cbl_base::{NoMemory, Numbers, Text};
use journal_text::{JournalStop, loop_line, print, print_reply, print_request, read, tail};
use pool_monitor::{DeskRequest, Journal, PoolRequest};
use std::alloc::{AllocError, Global};
use std::test::*;

// The language's example of a journal, in each version. The second is how it is printed.
static EXAMPLES: [[&str; 7]; 3] = [
    [
        "comet journal 1",
        "loop 4",
        "0 report 0 4 [1] -> true",
        "1 report 0 1 [2] -> true",
        "2 report 0 0 [3] -> true",
        "3 report 0 1 [4] -> false",
        "end",
    ],
    [
        "comet journal 2",
        "loop 4",
        "0 report 0 4 0 [1] -> true",
        "1 report 0 1 0 [2] -> true",
        "2 report 0 0 0 [3] -> true",
        "3 report 0 1 0 [4] -> false",
        "end",
    ],
    [
        "comet journal 3",
        "loop 4",
        "0 report 0 4 0 [1] -> true",
        "1 report 0 1 0 [2] -> true",
        "2 report 0 0 0 [3] -> true",
        "3 report 0 1 0 [4] -> false",
        "end",
    ],
];

// A journal in which pools are asked, which only the third version has.
static POOLS: [&str; 9] = [
    "comet journal 3",
    "loop 4",
    "0 add 0 4 [1] -> true",
    "1 report 0 1 -7 [2,-3] -> true",
    "2 size 0 -> 1",
    "3 rank 0 1 -> 4",
    "1 take 0 1 9 -> [1]",
    "1 second 0 -> -7",
    "end",
];

// The line at fault in each version, if one is, where the first line of its example is another.
struct Header {
    text: &'static str,
    faults: &'static [Option<u64>],
}

static HEADERS: [Header; 7] = [
    Header {
        text: "comet journal 1",
        faults: &[None, Some(3), Some(3)],
    },
    Header {
        text: "comet journal 2",
        faults: &[Some(3), None, None],
    },
    Header {
        text: "comet journal 3",
        faults: &[Some(3), None, None],
    },
    Header {
        text: "comet journal 4",
        faults: &[Some(1), Some(1), Some(1)],
    },
    Header {
        text: "comet journal 1 ",
        faults: &[Some(1), Some(1), Some(1)],
    },
    Header {
        text: "comet journal",
        faults: &[Some(1), Some(1), Some(1)],
    },
    Header {
        text: "",
        faults: &[Some(1), Some(1), Some(1)],
    },
];

// The line at fault, if one is, where each line of an example in turn is written so often.
struct Repeated {
    times: u32,
    faults: &'static [Option<u64>],
}

static REPEATED: [Repeated; 2] = [
    Repeated {
        times: 0,
        faults: &[Some(1), Some(2), None, None, None, None, Some(7)],
    },
    // A loop without entries may stand before the other.
    Repeated {
        times: 2,
        faults: &[Some(2), None, None, None, None, None, Some(8)],
    },
];

// Whether a line of an example, counted from 1, may be this one. Else it is at fault.
struct Changed {
    line: usize,
    text: &'static str,
    is_line: bool,
}

static CHANGED: [Changed; 12] = [
    Changed {
        line: 2,
        text: "loop 1024",
        is_line: true,
    },
    Changed {
        line: 2,
        text: "loop 1025",
        is_line: false,
    },
    Changed {
        line: 2,
        text: "loop 04",
        is_line: false,
    },
    Changed {
        line: 2,
        text: "loop +4",
        is_line: false,
    },
    Changed {
        line: 2,
        text: "loop 4 ",
        is_line: false,
    },
    Changed {
        line: 2,
        text: "loop",
        is_line: false,
    },
    Changed {
        line: 4,
        text: "1 has 0 -> true",
        is_line: true,
    },
    Changed {
        line: 4,
        text: "1 has 0 -> yes",
        is_line: false,
    },
    Changed {
        line: 5,
        text: "4 has 0 -> true",
        is_line: false,
    },
    Changed {
        line: 6,
        text: "-1 has 0 -> true",
        is_line: false,
    },
    Changed {
        line: 6,
        text: "",
        is_line: false,
    },
    Changed {
        line: 7,
        text: "end ",
        is_line: false,
    },
];

// Which versions have these entries as the third line. In the others it is at fault.
struct Had {
    versions: [bool; 3],
    lines: &'static [&'static str],
}

static HAD: [Had; 5] = [
    Had {
        versions: [true, true, true],
        lines: &[
            "0 value 7 -> -3",
            "0 value 7 -> none",
            "0 has 7 -> false",
            "0 copy 7 0 -> [1,2]",
            "0 copy 7 0 -> none",
            "0 copy 7 18446744073709551615 -> long 18446744073709551615",
            "0 stop 7 -> ok",
            "0 stopped 7 -> true",
        ],
    },
    Had {
        versions: [true, false, false],
        lines: &[
            "3 report 0 4 [1] -> true",
            "0 report 4294967295 4 [1] -> true",
            "0 report 0 -4 [] -> true",
            "0 report 0 -9223372036854775808 [1] -> true",
            "0 report 0 9223372036854775807 [1] -> true",
            "0 report 0 4 [1,-2,30] -> false",
        ],
    },
    Had {
        versions: [false, true, true],
        lines: &[
            "3 report 0 4 0 [1] -> true",
            "0 report 4294967295 4 0 [1] -> true",
            "0 report 0 -4 0 [] -> true",
            "0 report 0 -9223372036854775808 0 [1] -> true",
            "0 report 0 9223372036854775807 0 [1] -> true",
            "0 report 0 4 0 [1,-2,30] -> false",
            "0 report 0 4 -7 [1] -> true",
            "0 second 7 -> -3",
            "0 second 7 -> none",
        ],
    },
    Had {
        versions: [false, false, true],
        lines: &[
            "0 add 7 -4 [1,2] -> true",
            "0 add 7 -4 [] -> false",
            "0 size 7 -> 3",
            "0 rank 7 -1 -> 3",
            "0 rank 7 1 -> none",
            "0 take 7 -1 0 -> [1,2]",
            "0 take 7 1 18446744073709551615 -> none",
            "0 take 7 1 5 -> long 6",
        ],
    },
    Had {
        versions: [false, false, false],
        lines: &[
            "4 report 0 4 [1] -> true",
            "4 report 0 4 0 [1] -> true",
            "0 report 4294967296 4 [1] -> true",
            "0 report 4294967296 4 0 [1] -> true",
            "0 report 00 4 [1] -> true",
            "0 report 00 4 0 [1] -> true",
            "0 report 0 04 [1] -> true",
            "0 report 0 04 0 [1] -> true",
            "0 report 0 -0 [1] -> true",
            "0 report 0 -0 0 [1] -> true",
            "0 report 0 9223372036854775808 [1] -> true",
            "0 report 0 9223372036854775808 0 [1] -> true",
            "0 report 0 -9223372036854775809 [1] -> true",
            "0 report 0 -9223372036854775809 0 [1] -> true",
            "0 report 0 4 [1,] -> true",
            "0 report 0 4 0 [1,] -> true",
            "0 report 0 4 [,1] -> true",
            "0 report 0 4 0 [,1] -> true",
            "0 report 0 4 [1]] -> true",
            "0 report 0 4 0 [1]] -> true",
            "0 report 0 4 [1 -> true",
            "0 report 0 4 0 [1 -> true",
            "0 report 0 4 [1, 2] -> true",
            "0 report 0 4 0 [1, 2] -> true",
            "0  report 0 4 [1] -> true",
            "0  report 0 4 0 [1] -> true",
            "0 report 0 4 [1] -> ok",
            "0 report 0 4 0 [1] -> ok",
            "0 report 0 4 [1] => true",
            "0 report 0 4 0 [1] => true",
            "0 report 0 4 [1] -> true\r",
            "0 report 0 4 0 [1] -> true\r",
            "0 value 7 -> true",
            "0 has 7 -> none",
            "0 copy 7 18446744073709551616 -> none",
            "0 copy 7 0 -> 5",
            "0 report 0 4 9223372036854775808 [1] -> true",
            "0 report 0 4 0 0 [1] -> true",
            "0 second 7 -> true",
            "0 second 7 0 -> 1",
            "0 add 7 -4 0 [1,2] -> true",
            "0 add 4294967296 4 [1] -> true",
            "0 add 7 4 [1] -> 1",
            "0 size 7 -> none",
            "0 size 7 1 -> 3",
            "0 rank 7 1 -> [3]",
            "0 rank 7 -> 3",
            "0 take 7 1 5 -> 6",
            "0 take 7 1 -5 -> none",
            "0 take 7 1 -> none",
        ],
    },
];

// What a text is as a journal.
#[derive(Clone, Copy, PartialEq, Eq, Debug, Drop)]
enum Verdict {
    Journal,
    Fault(u64),
    NoMemory,
}

fn read_as(alloc: Global, text: &[u8]) -> Verdict {
    match read(alloc, text) {
        Ok(_) => Verdict::Journal,
        Err(JournalStop::Fault { line }) => Verdict::Fault(line),
        Err(JournalStop::NoMemory) => Verdict::NoMemory,
    }
}

fn push_line(text: &mut String, line: &str) -> Result<(), AllocError> {
    text.push_str(line)?;
    text.push_str("\n")
}

fn text_of(alloc: Global, lines: &[&str]) -> Result<String, AllocError> {
    let mut text = String::new(alloc);
    for line in lines {
        push_line(&mut text, line)?;
    }
    Ok(text)
}

// The lines, of which one, counted from 0, is written so often.
fn with_repeated(
    alloc: Global,
    lines: &[&str],
    repeated: usize,
    times: u32,
) -> Result<String, AllocError> {
    let mut text = String::new(alloc);
    for (place, line) in lines.iter().enumerate() {
        let times = if place == repeated { times } else { 1 };
        for _ in 0..times {
            push_line(&mut text, line)?;
        }
    }
    Ok(text)
}

// The lines, of which one, counted from 1, is another.
fn with_changed(
    alloc: Global,
    lines: &[&str],
    changed: usize,
    other: &str,
) -> Result<String, AllocError> {
    let mut text = String::new(alloc);
    for (place, line) in lines.iter().enumerate() {
        let line = if place + 1 == changed { other } else { *line };
        push_line(&mut text, line)?;
    }
    Ok(text)
}

// What a text should be in which this line, counted from 1, may stand or not.
fn judged(is_line: bool, line: usize) -> Verdict {
    if is_line {
        Verdict::Journal
    } else {
        Verdict::Fault(line as u64)
    }
}

#[test]
fn a_line_that_is_removed_or_doubled_is_named(rt: HostRuntime) -> Result<(), Fail> {
    for lines in &EXAMPLES {
        for row in &REPEATED {
            for (place, fault) in row.faults.iter().enumerate() {
                let text = with_repeated(rt.alloc(), lines, place, row.times)?;
                let want = fault.map_or(Verdict::Journal, Verdict::Fault);
                assert_eq!(rt; read_as(rt.alloc(), text.as_bytes()), want);
            }
        }
    }
    Ok(())
}

#[test]
fn a_line_that_is_changed_is_named(rt: HostRuntime) -> Result<(), Fail> {
    for lines in &EXAMPLES {
        for row in &CHANGED {
            let text = with_changed(rt.alloc(), lines, row.line, row.text)?;
            let want = judged(row.is_line, row.line);
            assert_eq!(rt; read_as(rt.alloc(), text.as_bytes()), want);
        }
    }
    Ok(())
}

#[test]
fn each_version_has_its_entries(rt: HostRuntime) -> Result<(), Fail> {
    for row in &HAD {
        for (lines, is_had) in EXAMPLES.iter().zip(&row.versions) {
            for line in row.lines {
                let text = with_changed(rt.alloc(), lines, 3, line)?;
                assert_eq!(rt; read_as(rt.alloc(), text.as_bytes()), judged(*is_had, 3));
            }
        }
    }
    Ok(())
}

#[test]
fn a_header_says_the_version(rt: HostRuntime) -> Result<(), Fail> {
    for row in &HEADERS {
        for (lines, fault) in EXAMPLES.iter().zip(row.faults) {
            let text = with_changed(rt.alloc(), lines, 1, row.text)?;
            let want = fault.map_or(Verdict::Journal, Verdict::Fault);
            assert_eq!(rt; read_as(rt.alloc(), text.as_bytes()), want);
        }
    }
    let text = with_changed(rt.alloc(), &POOLS, 1, "comet journal 2")?;
    assert_eq!(rt; read_as(rt.alloc(), text.as_bytes()), Verdict::Fault(3));
    Ok(())
}

#[test]
fn the_end_of_a_text_belongs_to_its_last_line(rt: HostRuntime) -> Result<(), Fail> {
    for lines in &EXAMPLES {
        let text = text_of(rt.alloc(), lines)?;
        let Some((_, unended)) = text.as_bytes().split_last() else {
            return Err(Fail::new("no text"));
        };
        assert_eq!(rt; read_as(rt.alloc(), unended), Verdict::Fault(7));
        let mut more = text_of(rt.alloc(), lines)?;
        more.push_str("x")?;
        assert_eq!(rt; read_as(rt.alloc(), more.as_bytes()), Verdict::Fault(8));
    }
    assert_eq!(rt; read_as(rt.alloc(), b""), Verdict::Fault(1));
    assert_eq!(rt; read_as(rt.alloc(), b"comet journal 3"), Verdict::Fault(1));
    assert_eq!(rt;
        read_as(rt.alloc(), b"comet journal 2\n"),
        Verdict::Fault(2)
    );
    assert_eq!(rt;
        read_as(rt.alloc(), b"comet journal 1\nend\n"),
        Verdict::Journal
    );
    Ok(())
}

// The text of the journal that a text spells.
fn printed_again(alloc: Global, text: &[u8]) -> Result<Option<Text>, NoMemory> {
    let Ok(journal) = read(alloc, text) else {
        return Ok(None);
    };
    let text = print(alloc, &journal)?;
    Ok(Some(text))
}

#[test]
fn each_version_is_read_as_one_journal(rt: HostRuntime) -> Result<(), Fail> {
    let want = text_of(rt.alloc(), &EXAMPLES[1])?;
    for lines in &EXAMPLES {
        let text = text_of(rt.alloc(), lines)?;
        let Some(again) = printed_again(rt.alloc(), text.as_bytes())? else {
            return Err(Fail::new("no journal"));
        };
        assert!(rt; again.as_slice() == want.as_bytes());
    }
    Ok(())
}

#[test]
fn a_journal_with_pools_is_of_the_third_version(rt: HostRuntime) -> Result<(), Fail> {
    let text = text_of(rt.alloc(), &POOLS)?;
    let Some(again) = printed_again(rt.alloc(), text.as_bytes())? else {
        return Err(Fail::new("no journal"));
    };
    assert!(rt; again.as_slice() == text.as_bytes());
    let none = print(rt.alloc(), &Journal::new(rt.alloc()))?;
    assert!(rt; none.as_slice() == b"comet journal 2\nend\n".as_slice());
    Ok(())
}

// Whether a request by itself is printed so.
fn is_printed(alloc: Global, request: DeskRequest, want: &[u8]) -> Result<bool, NoMemory> {
    let text = print_request(alloc, &request)?;
    Ok(text.as_slice() == want)
}

#[test]
fn parts_are_printed_alone(rt: HostRuntime) -> Result<(), Fail> {
    let list = Numbers::from_slice(rt.alloc(), &[1, -2, 30])?;
    let request = DeskRequest::Best(Request::Report {
        monitor: 7,
        value: -4,
        second: 0,
        list,
    });
    assert!(rt; is_printed(rt.alloc(), request, b"report 7 -4 0 [1,-2,30]")?);
    let request = DeskRequest::Pool(PoolRequest::Take {
        pool: 7,
        rank: -1,
        room: 20,
    });
    assert!(rt; is_printed(rt.alloc(), request, b"take 7 -1 20")?);
    assert!(rt; print_reply(rt.alloc(), &Reply::Long(5))?.as_slice() == b"long 5".as_slice());
    assert!(rt; print_reply(rt.alloc(), &Reply::Missing)?.as_slice() == b"none".as_slice());
    assert!(rt; loop_line(rt.alloc(), 1024)?.as_slice() == b"loop 1024".as_slice());
    Ok(())
}

#[test]
fn the_last_header_is_found(rt: HostRuntime) {
    assert_eq!(rt; tail(b""), None);
    assert_eq!(rt; tail(b"0 [3]\n"), None);
    assert_eq!(rt; tail(b" comet journal 1\n"), None);
    assert_eq!(rt; tail(b"comet journal 4\n"), None);
    assert_eq!(rt; tail(b"0 [3]\ncomet journal 3\nend\n"), Some(6));
    assert_eq!(rt;
        tail(b"comet journal 3\nend\ncomet journal 1\nend\n"),
        Some(20)
    );
    assert_eq!(rt; tail(b"comet journal 1\nend\ncomet journal 2"), Some(20));
    assert_eq!(rt; tail(b"comet journal 1\nend\ncomet journal 12\n"), Some(0));
}
