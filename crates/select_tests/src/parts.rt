//! Parts of candidates, added one by one and merged.
use cbl_base::{Place, RunFault};
use ls_select::{End, Merged, Part, Scored, Stop, Ties, Want};
use std::alloc::Global;
use std::test::*;

const PLACE: Place = Place { line: 3, col: 9 };

const SKIPPED: Scored = Scored {
    cost: 1,
    end: End::Skipped,
};

const TWO: Scored = Scored {
    cost: 2,
    end: End::Kept(2),
};

const FOUR: Scored = Scored {
    cost: 2,
    end: End::Kept(4),
};

const NINE: Scored = Scored {
    cost: 2,
    end: End::Kept(9),
};

const FAULT: Scored = Scored {
    cost: 3,
    end: End::Stopped(Stop::Fault(PLACE, RunFault::Overflow)),
};

static SCORES: [Scored; 6] = [FOUR, SKIPPED, TWO, NINE, TWO, NINE];

fn no<T>(reason: &'static str) -> Result<T, Fail> {
    Err(Fail::from(reason))
}

fn add(part: &mut Part, want: Want, scored: Scored) -> Result<(), Fail> {
    if part.first > 100 || part.count > 100 || part.cost > 100 || scored.cost > 100 {
        return no("a part that is too large for these tests");
    }
    match part.stop {
        Some(_) => no("a part that stopped"),
        None => match part.add(want, scored) {
            Ok(()) => Ok(()),
            Err(_) => no("no memory"),
        },
    }
}

fn part_of(alloc: Global, want: Want, first: u64, scores: &[Scored]) -> Result<Part, Fail> {
    let mut part = Part::new(alloc, first);
    for scored in scores {
        add(&mut part, want, *scored)?;
    }
    Ok(part)
}

fn merged(earlier: Part, later: Part, want: Want, fuel: u64) -> Result<Merged, Fail> {
    if earlier.first > 100 || earlier.count > 100 || later.count > 100 {
        return no("a part that is too large for these tests");
    }
    if earlier.ties.len() > 100 || later.ties.len() > 100 {
        return no("too many ties for these tests");
    }
    if later.first != earlier.first + earlier.count {
        return no("parts that don't adjoin");
    }
    Ok(earlier.merge(later, want, fuel))
}

// ---- what they are, as text
fn numbers_of(alloc: Global, ties: &Ties) -> Result<Vec<u64>, Fail> {
    let mut numbers = Vec::new(alloc);
    for place in 0..ties.len() {
        if let Some(number) = ties.get(place) {
            numbers.push(number)?;
        }
    }
    Ok(numbers)
}

fn shown(alloc: Global, part: &Part) -> Result<String, Fail> {
    let ties = numbers_of(alloc, &part.ties)?;
    Ok(format!(in alloc;
        "{} from {}, cost {}, best {:?}, ties {ties:?}, {:?}",
        part.count, part.first, part.cost, part.best, part.stop
    )?)
}

fn shown_merged(alloc: Global, merged: &Merged) -> Result<String, Fail> {
    match merged {
        Merged::Whole(part) => shown(alloc, part),
        Merged::Rescan(part) => {
            let text = shown(alloc, part)?;
            Ok(format!(in alloc; "again behind {text}")?)
        }
    }
}

/// The part of all scores for each wish, and that of two candidates of which the second meets a fault.
static WHOLE: [(Want, &str); 3] = [
    (
        Want::Any,
        "6 from 0, cost 11, best None, ties [0, 2, 3, 4, 5], None",
    ),
    (
        Want::Least,
        "6 from 0, cost 11, best Some(2), ties [2, 4], None",
    ),
    (
        Want::Greatest,
        "6 from 0, cost 11, best Some(9), ties [3, 5], None",
    ),
];

const STOPPED: &str =
    "2 from 7, cost 5, best Some(4), ties [7], Some((8, Fault(Place { line: 3, col: 9 }, Overflow)))";

#[test]
fn parts_are_added_up(rt: HostRuntime) -> Result<(), Fail> {
    let alloc = rt.alloc();
    for (want, text) in &WHOLE {
        let part = part_of(alloc, *want, 0, &SCORES)?;
        assert_eq!(rt; shown(alloc, &part)?.as_str(), *text);
    }
    let stopped = part_of(alloc, Want::Least, 7, &[FOUR, FAULT])?;
    assert_eq!(rt; shown(alloc, &stopped)?.as_str(), STOPPED);
    Ok(())
}

// Wherever the scores are cut, the parts of both pieces give the part of all; and with one unit of fuel less the later
// piece has to be scanned again.
#[test]
fn parts_are_merged(rt: HostRuntime) -> Result<(), Fail> {
    let alloc = rt.alloc();
    for (want, text) in &WHOLE {
        for cut in 0..SCORES.len() {
            let front = part_of(alloc, *want, 0, &SCORES[..cut])?;
            let back = part_of(alloc, *want, cut as u64, &SCORES[cut..])?;
            let whole = merged(front, back, *want, 11)?;
            assert_eq!(rt; shown_merged(alloc, &whole)?.as_str(), *text);
        }
    }
    let front = part_of(alloc, Want::Least, 0, &SCORES[..1])?;
    let back = part_of(alloc, Want::Least, 1, &SCORES[1..])?;
    let again = merged(front, back, Want::Least, 10)?;
    assert_eq!(rt;
        shown_merged(alloc, &again)?.as_str(),
        "again behind 1 from 0, cost 2, best Some(4), ties [0], None"
    );
    Ok(())
}

// An earlier stop decides, whatever comes behind it and whatever it costs.
#[test]
fn a_part_that_stopped_stays(rt: HostRuntime) -> Result<(), Fail> {
    let alloc = rt.alloc();
    let front = part_of(alloc, Want::Least, 7, &[FOUR, FAULT])?;
    let back = part_of(alloc, Want::Least, 9, &[TWO, FAULT])?;
    let whole = merged(front, back, Want::Least, 0)?;
    assert_eq!(rt; shown_merged(alloc, &whole)?.as_str(), STOPPED);
    Ok(())
}
