//! What the words ask for, and which words are refused.

use comet_words::{Source, Words, read_words, words_form};
use std::alloc::{AllocError, Global};
use std::test::Fail;

const PROGRAM: Words<'static> = Words {
    source: Source::Program("p"),
    data: None,
    replay: None,
    seed: 0,
    workers: 1,
    fuel: 1_099_511_627_776,
    journal: false,
};

/// Words, and what they ask for.
static ASKED: [(&[&str], Words<'static>); 8] = [
    (&["p"], PROGRAM),
    (
        &["--fuel", "10", "p"],
        Words {
            fuel: 10,
            ..PROGRAM
        },
    ),
    (
        &["p", "--fuel=4611686018427387904"],
        Words {
            fuel: 4_611_686_018_427_387_904,
            ..PROGRAM
        },
    ),
    (
        &["--seed=5", "--gen", "8"],
        Words {
            source: Source::Generate(8),
            seed: 5,
            ..PROGRAM
        },
    ),
    (
        &["--seed", "18446744073709551615", "p"],
        Words {
            seed: u64::MAX,
            ..PROGRAM
        },
    ),
    (
        &["--workers", "00000000000000000064", "p"],
        Words {
            workers: 64,
            ..PROGRAM
        },
    ),
    (
        &["--replay", "j", "p", "--journal"],
        Words {
            replay: Some("j"),
            journal: true,
            ..PROGRAM
        },
    ),
    // Behind `=` a file's name may begin with `-`, and may hold another `=`.
    (
        &["--data=-a=b", "p"],
        Words {
            data: Some("-a=b"),
            ..PROGRAM
        },
    ),
];

/// Words that aren't in form.
static REFUSED: [&[&str]; 26] = [
    &[],
    &[""],
    &["-"],
    &["--"],
    &["--help"],
    &["p", "q"],
    &["--seed", "1"],
    &["p", "--gen", "4"],
    &["--gen", "3"],
    &["--gen", "2001"],
    &["--workers", "0", "p"],
    &["--workers", "65", "p"],
    &["--fuel", "0", "p"],
    &["--fuel", "4611686018427387905", "p"],
    &["--seed", "18446744073709551616", "p"],
    &["--seed", "000000000000000000001", "p"],
    &["--seed", "+1", "p"],
    &["--seed=-1", "p"],
    &["--seed", "1", "p", "--seed=1"],
    &["--journal", "p", "--journal"],
    &["--journal=yes", "p"],
    &["--data", "-d", "p"],
    &["--data", "", "p"],
    &["--data=", "p"],
    &["p", "--data"],
    &["--Data", "d", "p"],
];

fn owned(alloc: Global, words: &[&str]) -> Result<Vec<String>, AllocError> {
    let mut all = Vec::new(alloc);
    for word in words {
        all.push(String::from_str(alloc, word)?)?;
    }
    Ok(all)
}

#[test]
fn words_ask_for_what_they_say(rt: HostRuntime) -> Result<(), Fail> {
    for (words, expected) in &ASKED {
        let words = owned(rt.alloc(), words)?;
        assert!(rt; read_words(words.as_slice()) == Some(*expected));
        assert!(rt; words_form(words.as_slice()));
    }
    Ok(())
}

#[test]
fn other_words_are_refused(rt: HostRuntime) -> Result<(), Fail> {
    for words in &REFUSED {
        let words = owned(rt.alloc(), words)?;
        assert!(rt; read_words(words.as_slice()) == None);
        assert!(rt; !words_form(words.as_slice()));
    }
    Ok(())
}
