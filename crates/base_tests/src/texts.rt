//! The faults' codes and texts, and texts that are kept.
use cbl_base::{Limit, Names, RunFault, Text};
use std::test::Fail;

/// Each fault, its code and its text.
static FAULTS: [(RunFault, u8, &str); 22] = [
    (RunFault::Overflow, 1, "overflow"),
    (RunFault::DivideByZero, 2, "division by zero"),
    (RunFault::OutOfRange, 3, "out of range"),
    (RunFault::NotClosed, 4, "solver not closed"),
    (RunFault::AlreadyClosed, 5, "solver already closed"),
    (RunFault::DefinedVariable, 6, "variable has a definition"),
    (RunFault::NoMove, 7, "no move"),
    (RunFault::NoBest, 8, "no best"),
    (RunFault::EmptyRange, 9, "empty range"),
    (RunFault::NoData, 10, "no more data"),
    (RunFault::BadData, 11, "bad data"),
    (RunFault::Depth, 12, "depth exceeded"),
    (
        RunFault::TooMany(Limit::Variables),
        13,
        "too many variables",
    ),
    (RunFault::TooMany(Limit::TermNodes), 13, "too many terms"),
    (
        RunFault::TooMany(Limit::Candidates),
        13,
        "too many candidates",
    ),
    (RunFault::TooMany(Limit::Cells), 13, "too many cells"),
    (
        RunFault::TooMany(Limit::Iterations),
        13,
        "too many iterations",
    ),
    (RunFault::WrongSolver, 14, "wrong solver"),
    (RunFault::JournalFull, 15, "journal full"),
    (RunFault::OutputFull, 16, "output full"),
    (RunFault::UnknownUser, 17, "unknown user constraint"),
    (RunFault::UserSpent, 18, "user constraint already posted"),
];

#[test]
fn faults_have_their_codes_and_texts(rt: HostRuntime) {
    for (fault, code, text) in &FAULTS {
        assert_eq!(rt; fault.code(), *code);
        assert_eq!(rt; fault.text(), *text);
    }
    assert_eq!(rt; Limit::TermNodes.text(), "terms");
}

#[test]
fn texts_and_names_keep_what_they_are_given(rt: HostRuntime) -> Result<(), Fail> {
    let text = Text::from_slice(rt.alloc(), b"queen")?;
    assert_eq!(rt; text.len(), 5);
    assert!(rt; !text.is_empty());
    assert_eq!(rt; text.get(4), Some(b'n'));
    assert_eq!(rt; text.get(5), None);
    assert_eq!(rt; text.as_slice(), b"queen".as_slice());

    let mut names = Names::new(rt.alloc());
    assert!(rt; names.is_empty());
    names.push(text)?;
    names.push(Text::from_slice(rt.alloc(), b"x[1]")?)?;
    assert_eq!(rt; names.len(), 2);
    let second = names.get(1).ok_or("no second name")?;
    assert_eq!(rt; second.as_slice(), b"x[1]".as_slice());
    assert!(rt; names.get(2).is_none());
    assert_eq!(rt; names.as_slice().len(), 2);
    Ok(())
}
